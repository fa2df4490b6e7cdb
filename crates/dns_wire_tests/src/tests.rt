mod plain;
mod reading;
mod writing;
