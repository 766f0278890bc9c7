//! The program as a library: `run` is one call of it over any streams, from the bytes of the input to those of the
//! output, the fault lines and the exit status. Beside it stand the calls that it is made of. The program passes its
//! words and streams on to `run`.
#![tactic(auto)]

mod answer;
mod asked_path;
mod boxed_predictor;
pub mod compare;
mod ended;
mod output;
mod program;
pub mod reference;
mod refusal;
mod run_view;
pub mod sensitivity;
pub mod simulate;
mod task;

pub use boxed_predictor::BoxedPredictor;
pub use ended::Ended;
pub use program::{Exit, run};
pub use run_view::{RunView, Stretch, show};
pub use task::{Refused, Task, begin, finish};
