ghost use Rattle.std.specs.Prelude.{◌≡◌, ◌+◌, ◌<◌, ◌^◌};
ghost use Rattle.rv_counts.specs.Counts.{one_more};
ghost use Rattle.rv_sentences.specs.Head.{flusher_after, flusher_with, flushes, is_idle};

use rv_passage::{Ending, Passage};

// Whether what was fetched after an instruction that retired is squashed.
fn flushes(passage: &Passage) -> bool
    ensures { result ≡ flushes passage.now }
{
    passage.instruction.is_serialising() || passage.is_mispredicted()
}

// The word of the last instruction that retired or trapped, if it flushed the reorder buffer, with one more.
fn flusher_with(passage: &Passage, before: Option<u32>) -> Option<u32>
    ensures { result ≡ flusher_with passage.now.ending passage.now before }
{
    match passage.ending {
        Ending::Retired { .. } => {
            if flushes(passage) {
                Some(passage.pc / 4)
            } else {
                None
            }
        }
        Ending::Trapped { .. } => Some(passage.pc / 4),
        Ending::InFlight | Ending::Squashed { .. } => before,
    }
}

/// The cycles on account of no instruction, with one that is on account of a word, or of none.
pub fn idle_with(idle: u64, account: Option<u32>) -> u64
    requires room { idle + 1 < 2 ^ 64 }
    ensures { result ≡ one_more (is_idle account) idle }
{
    match account {
        Some(_) => idle,
        None => idle + 1,
    }
}

/// The word of the last instruction that retired or trapped, if it flushed the reorder buffer, with some instructions more.
pub fn flusher_after(rows: &[Passage], before: Option<u32>) -> Option<u32>
    ensures { result ≡ flusher_after rows.now before }
{
    match rows {
        [] => before,
        [row, rest @ ..] => flusher_after(rest, flusher_with(row, before)),
    }
}
