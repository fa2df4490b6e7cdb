mod costs;
mod large;
mod long;
mod replies;
mod small;
mod zones;
