mod bus;
mod units;
