mod cut_short;
mod losses;
mod outcome;
mod reports;
mod sensitivity;
mod tables;
