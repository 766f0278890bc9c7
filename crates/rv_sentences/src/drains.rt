ghost use Rattle.std.specs.Prelude.{◌≡◌, ◌+◌, ◌<◌, ◌^◌};
ghost use Rattle.std.specs.Option.{option_to_list};
ghost use Rattle.rv_sentences.specs.Access.{both};
ghost use Rattle.rv_sentences.specs.Drain.{drain_text, drains_by};
ghost use Rattle.rv_text.specs.Said.{Says};

use crate::accesses::{Accesses, write_accesses};
use rv_text::Sink;
use std::io::Write;

/// Counts the drain that began in a cycle, if one did, by what it costs, and what a hit costs.
pub fn add_drain(drains: &mut Accesses, hit: u32, drain: Option<u64>)
    requires all { drains.old.all + 1 < 2 ^ 64 }
    requires quick { drains.old.quick + 1 < 2 ^ 64 }
    ensures { drains.new ≡ both drains.old (drains_by hit (option_to_list drain)) }
{
    let Some(cost) = drain else {
        return;
    };
    drains.all += 1;
    if cost == u64::from(hit) {
        drains.quick += 1;
    }
}

/// Writes how many drains began, by what they cost.
#[tactic(auto, unfolding(crate::specs::Drain::drain_text))]
pub fn write_drains<W: Write>(out: &mut Sink<'_, W>, drains: &Accesses)
    ensures { Says W.contents out.old out.new (drain_text drains.now) }
{
    write_accesses(out, b"drains: ", b" at the cost of a hit, ", drains);
}
