mod comparisons;
mod helpers;
mod listings;
mod parts;
mod reading;
mod refusals;
mod reported;
