ghost use Rattle.rv_states.specs.Cycle.{cycle_line, rest_text, start_line};
ghost use Rattle.rv_text.specs.Said.{Says};

use crate::array::write_array_member;
use crate::counts::write_counts;
use crate::in_flight::write_instructions_in_flight;
use crate::instruction::Instructions;
use crate::json::write_begin;
use crate::predictor::write_predictor;
use crate::state::write_state;
use crate::step::Steps;
use rv_front::DescribedPredictor;
use rv_hardware::Step;
use rv_passage::Passage;
use rv_text::Sink;
use rv_watch::{Progress, ShownHardware};
use std::io::Write;

// The counts so far, and the hardware.
#[tactic(auto, using(rv_text::proofs::Saying::says_both), unfolding(crate::specs::Cycle::rest_text))]
fn write_rest<W: Write>(out: &mut Sink<'_, W>, hardware: &ShownHardware<'_>, progress: &Progress)
    ensures { Says W.contents out.old out.new (rest_text hardware.now progress.now) }
{
    write_counts(out, progress);
    write_state(out, hardware)
}

/// Writes the line of the hardware before the window's first cycle: the number of the cycle, those of the instructions that are in
/// flight, the hardware, and the counts of the cycles so far.
#[tactic(auto, using(rv_text::proofs::Saying::says_both), unfolding(crate::specs::Cycle::start_line))]
pub fn write_start<W: Write>(
    out: &mut Sink<'_, W>,
    rows: &[Passage],
    hardware: &ShownHardware<'_>,
    progress: &Progress,
)
    ensures { Says W.contents out.old out.new (start_line rows.now hardware.now progress.now) }
{
    write_begin(out, "start", hardware.cycles_done());
    write_instructions_in_flight(out, rows);
    write_rest(out, hardware, progress);
    out.put(b"}\n")
}

/// Writes the line of a cycle: its number, the instructions that are in flight at its end or left the hardware in it, in order
/// of fetch, its steps, the counts of the cycles so far, the hardware after it, and what it taught the predictor, which is such
/// after it, and what that answered of the words that the cycle fetched.
#[tactic(auto, using(rv_text::proofs::Saying::says_both), unfolding(crate::specs::Cycle::cycle_line))]
pub fn write_cycle<W: Write>(
    out: &mut Sink<'_, W>,
    cycle: u64,
    rows: &[Passage],
    steps: &[Step],
    hardware: &ShownHardware<'_>,
    progress: &Progress,
    predictor: &DescribedPredictor,
)
    ensures { Says W.contents out.old out.new
        (cycle_line cycle rows.now steps.now hardware.now progress.now predictor.now) }
{
    write_begin(out, "cycle", cycle);
    write_array_member(out, "instructions", &Instructions { rows });
    write_array_member(out, "steps", &Steps { steps });
    write_rest(out, hardware, progress);
    write_predictor(out, predictor, cycle, steps, hardware);
    out.put(b"}\n")
}
