ghost use Rattle.std.specs.Prelude.{◌≡◌, filter, length};
ghost use Rattle.rv_counts.specs.Passing.{has_left};
ghost use Rattle.rv_memory.specs.Memory.{word_of};
ghost use Rattle.rv_sentences.specs.Access.{both};
ghost use Rattle.rv_sentences.specs.Left.{CanAdd};
ghost use Rattle.rv_sentences.specs.Load.{loads_of, loads_with};
ghost use Rattle.rv_sentences.specs.Outcome.{outcomes_with, with_passages};
ghost use Rattle.rv_sentences.specs.WordCount.{with_all, with_one};
ghost use Rattle.rv_sentences.specs.WordNotes.{with_change};
ghost use Rattle.rv_sentences.specs.Work.{both_work, word_in, work_of, work_with};
ghost use Rattle.rv_sentences.specs.declared.work.Class.TheVariants.{Branch, Mispredicted};

use crate::accesses::Accesses;
use crate::loads::add_load;
use crate::outcomes::{Outcomes, count_in};
use crate::word_notes::{WordNotes, count_one};
use crate::work::{Class, Work, word_in};
use rv_counts::LoadCosts;
use rv_passage::Passage;

// Adds one. One in flight adds nothing.
#[inline(always)]
fn add_row(
    work: &mut Work,
    loads: &mut Accesses,
    branches: &mut WordNotes<u64>,
    mispredicted: &mut WordNotes<u64>,
    outcomes: &mut WordNotes<Outcomes>,
    costs: &LoadCosts,
    row: &Passage,
)
    requires { CanAdd work.old loads.old branches.old mispredicted.old outcomes.old 1 }
    ensures work { work.new ≡ work_with row.now work.old }
    ensures loads { loads.new ≡ loads_with costs.now row.now loads.old }
    ensures branches { branches.new ≡ with_one (word_in Branch row.now) branches.old }
    ensures mispredicted { mispredicted.new ≡ with_one (word_in Mispredicted row.now) mispredicted.old }
    ensures outcomes { outcomes.new ≡ with_change (outcomes_with costs.now row.now) outcomes.old (word_of row.now.pc) }
{
    work.add_row(row);
    add_load(loads, costs, row);
    count_one(branches, word_in(Class::Branch, row));
    count_one(mispredicted, word_in(Class::Mispredicted, row));
    count_in(outcomes, costs, row.pc / 4, row);
}

/// Adds those of some instructions that left the hardware: what became of them, the loads that retired, the branches
/// and jumps that did and those of them that were mispredicted, each at its word of RAM, and the loads in each word.
pub fn add_left(
    work: &mut Work,
    loads: &mut Accesses,
    branches: &mut WordNotes<u64>,
    mispredicted: &mut WordNotes<u64>,
    outcomes: &mut WordNotes<Outcomes>,
    costs: &LoadCosts,
    rows: &[Passage],
)
    requires { CanAdd work.old loads.old branches.old mispredicted.old outcomes.old (length rows.now) }
    ensures work { work.new ≡ both_work work.old (work_of (filter has_left rows.now)) }
    ensures loads { loads.new ≡ both loads.old (loads_of costs.now rows.now) }
    ensures branches { branches.new ≡ with_all (word_in Branch) rows.now branches.old }
    ensures mispredicted { mispredicted.new ≡ with_all (word_in Mispredicted) rows.now mispredicted.old }
    ensures outcomes { outcomes.new ≡ with_passages costs.now (filter has_left rows.now) outcomes.old }
{
    if let Some((row, before)) = rows.split_last() {
        add_row(work, loads, branches, mispredicted, outcomes, costs, row);
        add_left(work, loads, branches, mispredicted, outcomes, costs, before);
    }
}
