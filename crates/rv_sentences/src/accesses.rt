ghost use Rattle.rv_sentences.specs.Access.{access_text};
ghost use Rattle.rv_text.specs.Said.{Says};

use itoa::Buffer;
use rv_text::Sink;
use std::io::Write;

/// How many accesses to memory there were.
#[derive(Clone, Copy)]
pub struct Accesses {
    /// All.
    pub all: u64,
    /// Those that did not miss.
    pub quick: u64,
}

/// Writes how many accesses there were, by what they cost.
#[tactic(auto, using(rv_text::proofs::Saying::saying), unfolding(crate::specs::Access::access_text))]
pub fn write_accesses<W: Write>(
    out: &mut Sink<'_, W>,
    name: &[u8],
    quick_cost: &[u8],
    accesses: &Accesses,
)
    ensures { Says W.contents out.old out.new (access_text name.now quick_cost.now accesses.now) }
{
    let mut all_buffer = Buffer::new();
    let all = all_buffer.format(accesses.all).as_bytes();
    let mut quick_buffer = Buffer::new();
    let quick = quick_buffer.format(accesses.quick).as_bytes();
    let mut missed_buffer = Buffer::new();
    let missed = missed_buffer
        .format(accesses.all.saturating_sub(accesses.quick))
        .as_bytes();
    out.put_all(&[
        name,
        all,
        b", of them ",
        quick,
        quick_cost,
        missed,
        b" at that of a miss\n",
    ]);
}
