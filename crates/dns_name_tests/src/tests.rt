mod comparing;
mod tally;
mod text;
mod written;
