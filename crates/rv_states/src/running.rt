ghost use Rattle.std.specs.Prelude.{◌≡◌, ◌≤◌, ◌++◌, false, vec_capacity};
ghost use Rattle.rv_hardware.specs.Guided.{guided};
ghost use Rattle.rv_states.specs.Page.{after_lines, before_lines};
ghost use Rattle.rv_states.specs.Predictor.{untaught_predictor};
ghost use Rattle.rv_states.specs.States.{WritesStates, head_text};
ghost use Rattle.rv_states.specs.Stop.{stop_line};
ghost use Rattle.rv_text.specs.Said.{Extends};
ghost use Rattle.rv_view.specs.Following.{BeginsAt};

use crate::form::Form;
use crate::moment::{write_begun, write_end, write_head, write_shown};
use crate::predictor::teach;
use rv_arch::Stop;
use rv_front::{DescribedPredictor, Predictor};
use rv_hardware::Step;
use rv_isa::Arrivals;
use rv_passage::{Passage, Table};
use rv_source::Listing;
use rv_text::Sink;
use rv_view::{follow, follow_numbers};
use rv_watch::{Progress, ShownHardware, Simulated, Watcher};
use std::convert::Infallible;
use std::io::Write;

/// Why a run ended, and whether a write of its states failed.
#[derive(Clone, Copy)]
pub(crate) struct Shown {
    pub(crate) stop: Stop,
    pub(crate) has_failed: bool,
}

// The watcher that writes the states after the first `from` cycles. Before these it follows no more than which
// instructions are in flight.
#[derive(Drop)]
struct StateWriter {
    from: u64,
    // What the predictor knows.
    predictor: DescribedPredictor,
    table: Table,
    has_failed: bool,
}

impl Watcher for StateWriter {
    ghost use Rattle.rv_states.specs.Showing.{IsShowing};

    type Refusal = Infallible;

    ghost has_seen = { λ start states seen before now. IsShowing start.from states.from start.predictor states.predictor
        states.table start.has_failed states.has_failed seen before now };

    ghost has_room = { λ _. Unit {0} };

    fn make_room(&mut self) -> Result<(), Infallible> {
        Ok(())
    }

    fn see<W: Write>(
        &mut self,
        cycle: u64,
        steps: &[Step],
        hardware: &ShownHardware<'_>,
        progress: &Progress,
        output: &mut W,
    ) {
        let next = hardware.observe().pc;
        teach(&mut self.predictor, steps, next);
        if progress.cycles < self.from {
            follow_numbers(&mut self.table, cycle, steps, hardware);
            return;
        }
        follow(&mut self.table, cycle, steps, hardware);
        let shown = self.table.rows();
        let mut out = Sink::after(output, self.has_failed);
        let from = self.from;
        write_shown(
            &mut out,
            from,
            cycle,
            shown,
            steps,
            hardware,
            progress,
            &self.predictor,
        );
        write_begun(&mut out, from, shown, hardware, progress, &self.predictor);
        self.has_failed = out.has_failed();
        self.table.drop_ended();
    }
}

// Writes what is shown before the first cycle. Answers whether a write failed.
fn begin<S: Simulated, W: Write>(
    writer: &mut W,
    form: Form,
    from: u64,
    listing: &Listing,
    rows: &[Passage],
    pipeline: &S,
    predictor: &DescribedPredictor,
) -> bool
    ensures { Extends false result (W.contents writer.old) (W.contents writer.new)
        (before_lines form ++ head_text from listing.now rows.now (S.hardware pipeline.now) predictor.now) }
{
    let mut out = Sink::new(writer);
    write_head(
        &mut out,
        form,
        from,
        listing,
        rows,
        &pipeline.shown(),
        predictor,
    );
    out.has_failed()
}

// Writes the end after what was written before. Answers whether a write failed.
fn end<W: Write>(writer: &mut W, has_failed: bool, form: Form, cycles: u64, stop: Stop) -> bool
    ensures { Extends has_failed result (W.contents writer.old) (W.contents writer.new)
        (stop_line cycles stop ++ after_lines form) }
{
    let mut out = Sink::after(writer, has_failed);
    write_end(&mut out, form, cycles, stop);
    out.has_failed()
}

/// Runs a pipeline that a predictor guides up to so many cycles, and writes the states after the first `from` of them as far as no
/// write fails. `untaught` is its predictor before any lesson. Asks for no memory.
pub(crate) fn run_shown<S: Simulated, W: Write>(
    pipeline: &mut S,
    predictor: &mut dyn Predictor,
    arrivals: &Arrivals,
    from: u64,
    limit: u64,
    form: Form,
    listing: &Listing,
    table: Table,
    steps: Vec<Step>,
    untaught: DescribedPredictor,
    writer: &mut W,
) -> Shown
    requires begins { BeginsAt (S.hardware pipeline.old) table }
    requires room { 8 ≤ vec_capacity steps }
    requires untaught { untaught ≡ untaught_predictor (S.hardware pipeline.old).values }
    ensures { WritesStates arrivals.now from limit form listing.now
        (guided (S.hardware pipeline.old) (known predictor.old))
        (guided (S.hardware pipeline.new) (known predictor.new))
        result.stop result.has_failed (W.contents writer.old) (W.contents writer.new) }
{
    let has_failed = begin(
        writer,
        form,
        from,
        listing,
        table.rows(),
        pipeline,
        &untaught,
    );
    let mut states = StateWriter {
        from,
        predictor: untaught,
        table,
        has_failed,
    };
    let ended = pipeline.watch(predictor, arrivals, limit, steps, &mut states, writer);
    match ended.stop {
        Ok(stop) => Shown {
            stop,
            has_failed: end(writer, states.has_failed, form, ended.progress.cycles, stop),
        },
    }
}
