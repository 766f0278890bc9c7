ghost use Rattle.rv_explain.specs.Explanation.{IsTallied};
ghost use Rattle.rv_explain.specs.Tally.{IsOfNoCycle};
ghost use Rattle.rv_hardware.specs.Guided.{guided};
ghost use Rattle.rv_view.specs.Following.{FollowsFrom};

use crate::cycle_places::{cycle_places, in_flight};
use crate::tally::Tally;
use rv_arch::Stop;
use rv_front::Predictor;
use rv_hardware::new_drain_cost;
use rv_isa::{Arrivals, Description};
use rv_text::Sink;
use rv_view::{Following, ShownCycle, View, Viewed, run_view};
use rv_watch::{Progress, Simulated};
use std::convert::Infallible;
use std::io;
use std::io::Write;

/// Why a run ended, and what was kept of it.
#[derive(Drop)]
pub(crate) struct Tallied {
    pub(crate) stop: Stop,
    pub(crate) progress: Progress,
    /// How many words were fetched.
    pub(crate) fetched: u64,
    pub(crate) tally: Tally,
}

// The view that keeps a tally, and says nothing: what it kept so far, and what it has to know of the hardware before the
// next cycle.
#[derive(Drop)]
struct Explainer {
    tally: Tally,
    registers: [u32; 32],
    drain_end: Option<u64>,
    /// How many instructions are in the reorder buffer.
    in_flight: usize,
}

impl View for Explainer {
    ghost use Rattle.std.specs.Prelude.{[], refl};
    ghost use Rattle.rv_explain.specs.Tally.{IsTallying};

    type Refusal = Infallible;

    ghost has_seen = { λ start explainer seen. IsTallying start.tally explainer.tally explainer.registers
        explainer.drain_end explainer.in_flight seen };

    ghost text = { λ _ _ _. [] };

    ghost has_room = { λ _. Unit {0} };

    ghost nothing_said = { λ _ _. refl };

    fn make_room(&mut self) -> Result<(), Infallible> {
        Ok(())
    }

    fn see<W: Write>(&mut self, cycle: &ShownCycle<'_>, _: &mut Sink<'_, W>) {
        let drain_end = cycle.hardware.drain_end();
        let drain = new_drain_cost(cycle.number, self.drain_end, drain_end);
        let places = cycle_places(cycle.number, self.in_flight, cycle.steps, cycle.hardware);
        let observed = cycle.hardware.observe();
        self.tally.add(
            cycle.number,
            &mut self.registers,
            cycle.steps,
            &places,
            drain,
            observed.lines,
            cycle.hardware,
            cycle.rows,
        );
        let after = cycle.hardware.observe();
        let registers = after.regs;
        self.registers = registers;
        self.drain_end = drain_end;
        self.in_flight = in_flight(cycle.hardware);
    }
}

/// Runs a pipeline that a predictor guides to the end, from a tally of no cycle on.
pub(crate) fn run_tallied<S: Simulated>(
    pipeline: &mut S,
    predictor: &mut dyn Predictor,
    description: &Description,
    arrivals: &Arrivals,
    limit: u64,
    following: Following,
    tally: Tally,
) -> Tallied
    requires follows { FollowsFrom (S.hardware pipeline.old) following }
    requires of_no_cycle { IsOfNoCycle description.now tally }
    ensures { IsTallied arrivals.now limit description.now
        (guided (S.hardware pipeline.old) (known predictor.old))
        (guided (S.hardware pipeline.new) (known predictor.new)) result }
{
    let hardware = pipeline.shown();
    let drain_end = hardware.drain_end();
    let in_flight = in_flight(&hardware);
    let registers = *hardware.registers;
    let explainer = Explainer {
        tally,
        registers,
        drain_end,
        in_flight,
    };
    let Viewed {
        view,
        table,
        progress,
        stop,
        has_failed: _,
    } = run_view(
        pipeline,
        predictor,
        arrivals,
        limit,
        following,
        explainer,
        false,
        &mut io::sink(),
    );
    // It counts so many cycles at most, and so what was fetched is counted.
    let _ = pipeline.is_exhausted();
    let Explainer { tally, .. } = view;
    let fetched = tally.work.left + table.rows().len() as u64;
    match stop {
        Ok(stop) => Tallied {
            stop,
            progress,
            fetched,
            tally,
        },
    }
}
