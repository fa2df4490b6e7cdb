mod many;
mod sockets;
