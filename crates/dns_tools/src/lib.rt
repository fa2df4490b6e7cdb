//! What the programs do once `main` calls them: parse their arguments, load a zone, and answer
//! queries.
#![tactic(auto)]

mod arguments;
mod check;
mod epoll;
mod faults;
mod line;
mod line_parts;
mod listen;
mod load;
mod message;
mod nonblocking;
mod once;
mod report;
mod socket;
mod startup;
mod stop;
mod watch;

pub use arguments::{
    CheckWords, ServeWords, Service, SocketWords, check_words, serve_words, socket_words,
};
pub use check::{Flags, check_zone};
pub use epoll::{Connection, Epoll};
pub use faults::list_faults;
pub use listen::{Ending, given_listener, given_socket, listener_at, serve_datagrams, socket_at};
pub use load::{LoadFault, Refusal, load_zone, write_refusal};
pub use message::run_message;
pub use nonblocking::Nonblocking;
pub use once::run_once;
pub use socket::Socket;
pub use startup::{buffered_stream, end, finish, given_words, open_file, refuse, say, say_serving};
pub use stop::{FAULT_STATUS, FaultText, Outcome, Stop, end_of, exit_status, status_of_turns};
pub use watch::Watch;
