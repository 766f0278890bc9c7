ghost use Rattle.std.specs.Prelude.{◌≡◌, ◌+◌, ◌<◌, ◌^◌};
ghost use Rattle.rv_counts.specs.Load.{is_hit};
ghost use Rattle.rv_sentences.specs.Load.{load_text, loads_with, retired_load_cost};
ghost use Rattle.rv_text.specs.Said.{Says};

use crate::accesses::{Accesses, write_accesses};
use rv_counts::{LoadCosts, has_retired, load_cost};
use rv_passage::Passage;
use rv_text::Sink;
use std::io::Write;

/// What a load cost that retired.
pub fn retired_load_cost(passage: &Passage) -> Option<u32>
    ensures { result ≡ retired_load_cost passage.now }
{
    if has_retired(passage) {
        load_cost(passage)
    } else {
        None
    }
}

/// Whether a load retired at the cost of a hit or of forwarding.
pub fn is_quick(costs: &LoadCosts, passage: &Passage) -> bool
    ensures { result ≡ is_hit costs.now (retired_load_cost passage.now) }
{
    match retired_load_cost(passage) {
        Some(cost) => costs.is_quick(cost),
        None => false,
    }
}

/// Counts an instruction, if it is a load that retired.
pub(crate) fn add_load(loads: &mut Accesses, costs: &LoadCosts, row: &Passage)
    requires all { loads.old.all + 1 < 2 ^ 64 }
    requires quick { loads.old.quick + 1 < 2 ^ 64 }
    ensures { loads.new ≡ loads_with costs.now row.now loads.old }
{
    let Some(cost) = retired_load_cost(row) else {
        return;
    };
    loads.all += 1;
    if costs.is_quick(cost) {
        loads.quick += 1;
    }
}

/// Writes how many loads retired, by what they cost.
#[tactic(auto, unfolding(crate::specs::Load::load_text))]
pub fn write_loads<W: Write>(out: &mut Sink<'_, W>, loads: &Accesses)
    ensures { Says W.contents out.old out.new (load_text loads.now) }
{
    write_accesses(
        out,
        b"loads: ",
        b" at the cost of a hit or of forwarding, ",
        loads,
    );
}
