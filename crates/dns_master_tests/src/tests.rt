mod devices;
mod faults;
mod hostile;
mod limits;
mod many_words;
mod pieces;
mod reading;
mod records;
