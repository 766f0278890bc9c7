ghost use Rattle.std.specs.Prelude.{◌≡◌, ◌+◌, ◌<◌, ◌^◌};
ghost use Rattle.rv_sentences.specs.Work.{branches_text, is_of, is_retired_branch, part_text};
ghost use Rattle.rv_sentences.specs.Work.{word_in, work_text, work_with};
ghost use Rattle.rv_text.specs.Said.{Says};

use crate::outcomes::one_more;
use crate::stack::parts_of;
use itoa::Buffer;
use rv_counts::{has_retired, was_squashed};
use rv_passage::Passage;
use rv_text::Sink;
use std::io::Write;

/// What became of the instructions that left the hardware.
#[derive(Clone, Copy)]
pub struct Work {
    /// How many left it.
    pub left: u64,
    /// Those of them that were squashed.
    pub squashed: u64,
    /// The branches and jumps that retired.
    pub branches: u64,
    /// Those of them that were mispredicted.
    pub mispredicted: u64,
}

fn is_retired_branch(passage: &Passage) -> bool
    ensures { result ≡ is_retired_branch passage.now }
{
    has_retired(passage) && passage.instruction.is_branch_or_jump()
}

/// A class of instructions that retired.
#[derive(Clone, Copy)]
pub enum Class {
    /// The branches and jumps.
    Branch,
    /// Those of them that were mispredicted.
    Mispredicted,
}

// Whether a fetched word is of a class.
fn is_of(class: Class, passage: &Passage) -> bool
    ensures { result ≡ is_of class passage.now }
{
    match class {
        Class::Branch => is_retired_branch(passage),
        Class::Mispredicted => passage.is_mispredicted(),
    }
}

/// The word of RAM that a fetched word is, if it is of a class.
pub(crate) fn word_in(class: Class, passage: &Passage) -> Option<u32>
    ensures { result ≡ word_in class passage.now }
{
    if is_of(class, passage) {
        Some(passage.pc / 4)
    } else {
        None
    }
}

impl Work {
    /// Of no instruction.
    pub const NONE: Work = Work {
        left: 0,
        squashed: 0,
        branches: 0,
        mispredicted: 0,
    };

    // Adds an instruction, if it left the hardware.
    pub(crate) fn add_row(&mut self, row: &Passage)
        requires left { self.old.left + 1 < 2 ^ 64 }
        requires squashed { self.old.squashed + 1 < 2 ^ 64 }
        requires branches { self.old.branches + 1 < 2 ^ 64 }
        requires mispredicted { self.old.mispredicted + 1 < 2 ^ 64 }
        ensures { self.new ≡ work_with row.now self.old }
    {
        self.left = one_more(!row.is_in_flight(), self.left);
        self.squashed = one_more(was_squashed(row), self.squashed);
        self.branches = one_more(is_retired_branch(row), self.branches);
        self.mispredicted = one_more(row.is_mispredicted(), self.mispredicted);
    }
}

/// Writes how many there were of something, how many of them were something more, and what part that is.
#[tactic(auto, using(rv_text::proofs::Saying::saying), unfolding(crate::specs::Work::part_text, crate::specs::Work::percent_text))]
pub fn write_part<W: Write>(out: &mut Sink<'_, W>, name: &[u8], all: u64, what: &[u8], part: u64)
    ensures { Says W.contents out.old out.new (part_text name.now all what.now part) }
{
    let tenths = parts_of(1000, part, all);
    let mut all_buffer = Buffer::new();
    let every = all_buffer.format(all).as_bytes();
    let mut part_buffer = Buffer::new();
    let some = part_buffer.format(part).as_bytes();
    let mut percent_buffer = Buffer::new();
    let percent = percent_buffer.format(tenths / 10).as_bytes();
    let mut tenth_buffer = Buffer::new();
    let tenth = tenth_buffer.format(tenths % 10).as_bytes();
    out.put_all(&[
        name,
        every,
        b", of them ",
        some,
        what,
        b" (",
        percent,
        b".",
        tenth,
        b"%)\n",
    ]);
}

#[tactic(auto, unfolding(crate::specs::Work::branches_text))]
fn write_branches<W: Write>(out: &mut Sink<'_, W>, work: &Work)
    ensures { Says W.contents out.old out.new (branches_text work.now) }
{
    if work.branches == 0 {
        out.put(b"branches and jumps: none\n");
        return;
    }
    write_part(
        out,
        b"branches and jumps: ",
        work.branches,
        b" mispredicted",
        work.mispredicted,
    );
}

/// Writes what became of the fetched words, of which there were so many, and of the branches and jumps among them.
pub fn write_work<W: Write>(out: &mut Sink<'_, W>, fetched: u64, work: &Work)
    ensures { Says W.contents out.old out.new (work_text fetched work.now) }
{
    write_part(
        out,
        b"fetched words: ",
        fetched,
        b" squashed",
        work.squashed,
    );
    write_branches(out, work);
}
