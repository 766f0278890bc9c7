ghost use Rattle.std.specs.Prelude.{◌≡◌};
ghost use Rattle.rv_counts.specs.Passing.{broadcast_wait, cycles_between, dispatch_wait, issue_wait, retirement_wait};
ghost use Rattle.rv_passage.specs.Passage.{is_retirement, is_squash, retired_in};

use rv_passage::{Ending, Passage};

/// Whether an instruction retired.
pub fn has_retired(passage: &Passage) -> bool
    ensures { result ≡ is_retirement passage.now.ending }
{
    matches!(passage.ending, Ending::Retired { .. })
}

/// Whether it was squashed.
pub fn was_squashed(passage: &Passage) -> bool
    ensures { result ≡ is_squash passage.now.ending }
{
    matches!(passage.ending, Ending::Squashed { .. })
}

// The cycles from one stage to a later one.
fn cycles_between(from: Option<u64>, to: Option<u64>) -> Option<u64>
    ensures { result ≡ cycles_between from to }
{
    match (from, to) {
        (Some(from), Some(to)) => Some(to.saturating_sub(from)),
        _ => None,
    }
}

// The cycle in which an instruction retired.
fn retired_in(ending: Ending) -> Option<u64>
    ensures { result ≡ retired_in ending }
{
    match ending {
        Ending::Retired { cycle, .. } => Some(cycle),
        Ending::InFlight | Ending::Trapped { .. } | Ending::Squashed { .. } => None,
    }
}

/// The cycles from an instruction's fetch to its dispatch.
pub(crate) fn dispatch_wait(passage: &Passage) -> Option<u64>
    ensures { result ≡ dispatch_wait passage.now }
{
    cycles_between(Some(passage.fetched), passage.dispatched)
}

/// The cycles from its dispatch to its issue.
pub(crate) fn issue_wait(passage: &Passage) -> Option<u64>
    ensures { result ≡ issue_wait passage.now }
{
    cycles_between(passage.dispatched, passage.issued())
}

/// The cycles from its issue to its broadcast.
pub(crate) fn broadcast_wait(passage: &Passage) -> Option<u64>
    ensures { result ≡ broadcast_wait passage.now }
{
    cycles_between(passage.issued(), passage.broadcast)
}

/// The cycles from its broadcast to its retirement.
pub(crate) fn retirement_wait(passage: &Passage) -> Option<u64>
    ensures { result ≡ retirement_wait passage.now }
{
    cycles_between(passage.broadcast, retired_in(passage.ending))
}
