ghost use Rattle.std.specs.List.{flat_map};
ghost use Rattle.rv_hardware.specs.Report.{all_stalls};
ghost use Rattle.rv_states.specs.Counts.{counts_json, counts_text, stall_count, stall_text};
ghost use Rattle.rv_text.specs.Said.{Says};

use crate::json::{write_begin, write_key, write_name, write_number};
use rv_hardware::{Stall, StallCounts};
use rv_text::Sink;
use rv_watch::Progress;
use std::io::Write;

#[tactic(auto, unfolding(crate::specs::Counts::stall_text))]
fn write_stall<W: Write>(out: &mut Sink<'_, W>, stall: Option<Stall>)
    ensures { Says W.contents out.old out.new (stall_text stall) }
{
    match stall {
        Some(stall) => write_name(out, "stall", stall.name()),
        None => {}
    }
}

fn write_stall_count<W: Write>(out: &mut Sink<'_, W>, stalls: &StallCounts, stall: Stall)
    ensures { Says W.contents out.old out.new (stall_count stalls.now stall) }
{
    write_number(out, stall.name(), stalls.of(stall))
}

#[tactic(auto, using(rv_text::proofs::Saying::saying))]
fn write_stall_counts<W: Write>(out: &mut Sink<'_, W>, stalls: &StallCounts)
    ensures { Says W.contents out.old out.new (flat_map (stall_count stalls.now) all_stalls) }
{
    for stall in Stall::all() {
        write_stall_count(out, stalls, *stall);
    }
}

#[tactic(auto, using(rv_text::proofs::Saying::says_both), unfolding(crate::specs::Counts::counts_json))]
fn write_object<W: Write>(out: &mut Sink<'_, W>, progress: &Progress)
    ensures { Says W.contents out.old out.new (counts_json progress.now) }
{
    write_begin(out, "cycles", progress.cycles);
    write_number(out, "busy", progress.busy);
    write_stall_counts(out, &progress.stalls);
    out.put(b"}")
}

/// Writes what the last cycle waited for, where it dispatched nothing, and the counts so far.
#[tactic(auto, using(rv_text::proofs::Saying::says_both), unfolding(crate::specs::Counts::counts_text, crate::specs::Json::also))]
pub(crate) fn write_counts<W: Write>(out: &mut Sink<'_, W>, progress: &Progress)
    ensures { Says W.contents out.old out.new (counts_text progress.now) }
{
    write_stall(out, progress.stall);
    write_key(out, "counts");
    write_object(out, progress)
}
