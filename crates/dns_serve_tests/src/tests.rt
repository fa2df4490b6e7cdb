mod frames;
mod sessions;
mod streams;
mod turns;
