//! What each event of a run waited for: a fetch, a dispatch, an issue, a broadcast, a commit, the start of a drain or
//! of a write-back of lines, or an interrupt waited last for one other event, which it names, and so the path that is
//! walked back from the run's end, the critical path, has each cycle of the run on account of exactly one cause. Its
//! model is what is known between two cycles: the events for which later ones may wait, and all events of the run, of
//! which only the last are kept, with the account of the path to where all later paths meet. It reads of a cycle what a
//! `Cycle` has of it, and nothing of the pipeline that made it. `specs/` defines what an event waited for, and what a
//! cycle makes of what is known.
#![tactic(auto)]

mod account;
mod account_text;
mod before;
mod cause;
mod claim;
mod cycle;
mod ended;
mod event;
mod fetching;
mod holding;
mod issuing;
mod leaving;
mod lines;
mod live;
mod marked;
mod meeting;
mod moving;
mod numbering;
mod path;
mod point;
mod ranking;
mod scene;
mod seeing;
mod sentences;
mod sought;
mod text;
mod waiting_stores;
mod way;
mod window;
mod word_cycles;

pub use account::Account;
pub use account_text::{Ranks, write_account};
pub use before::Facts;
pub use cause::{CAUSES, Cause};
pub use cycle::{After, Cycle};
pub use event::Event;
pub use marked::is_marked;
pub use numbering::Numbering;
pub use path::Path;
pub use point::Point;
pub use sentences::write_sentences;
pub use text::{Share, rank};
pub use word_cycles::Words;
