//! The front of the out-of-order core: the fetch buffer, and the branch predictors that guide the fetch. The buffer's
//! model is the list of the fetched words, each at the pc that the one before it predicts, for every predictor; the core
//! fetches into it, dispatches from it and redirects it.
#![tactic(auto)]

mod decoded;
mod fetched;
mod flow;
mod front;
mod predictor;
mod predictors;

pub use fetched::{FetchStop, Fetched};
pub use flow::Flow;
pub use front::Front;
pub use predictor::Predictor;
pub use predictors::{BackwardTaken, Bimodal, DescribedPredictor, NotTaken};
