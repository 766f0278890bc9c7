mod labels;
mod marked;
mod places;
mod rows;
mod tips;
mod words;
