ghost use Rattle.std.specs.Prelude.{[]};
ghost use Rattle.rv_watch.specs.Watching.{watched};
ghost use Rattle.rv_hardware.specs.Guided.{guided};
ghost use Rattle.rv_view.specs.Following.{FollowsFrom};
ghost use Rattle.rv_view.specs.Viewing.{IsViewedRun};

use crate::following::{Following, follow_on};
use crate::shown_cycle::ShownCycle;
use crate::view::View;
use rv_arch::Stop;
use rv_front::Predictor;
use rv_hardware::Step;
use rv_isa::Arrivals;
use rv_passage::Table;
use rv_text::Sink;
use rv_watch::{Progress, ShownHardware, Simulated, Watcher};
use std::io::Write;

/// A view at the end of a run.
#[derive(Drop)]
pub struct Viewed<V, R> {
    /// The view.
    pub view: V,
    /// What is in flight.
    pub table: Table,
    /// The counts of the cycles.
    pub progress: Progress,
    /// Why the run ended, or why the view refused to see more of it.
    pub stop: Result<Stop, R>,
    /// Whether a write failed.
    pub has_failed: bool,
}

// The watcher that follows what is in flight, and shows each cycle to a view; and whether a write failed.
#[derive(Drop)]
struct Follower<V> {
    view: V,
    table: Table,
    has_failed: bool,
}

impl<V: View> Watcher for Follower<V> {
    ghost use Rattle.rv_view.specs.Viewing.{IsViewing};

    type Refusal = V::Refusal;

    ghost has_seen = { λ start follower seen before now. IsViewing V.has_seen V.text start.view follower.view
        start.has_failed follower.has_failed follower.table seen before now };

    ghost has_room = { λ follower. V.has_room follower.view };

    fn make_room(&mut self) -> Result<(), V::Refusal> {
        self.view.make_room()
    }

    fn see<W: Write>(
        &mut self,
        cycle: u64,
        steps: &[Step],
        hardware: &ShownHardware<'_>,
        progress: &Progress,
        output: &mut W,
    ) {
        follow_on(&mut self.table, cycle, steps, hardware);
        let shown = ShownCycle {
            number: cycle,
            steps,
            rows: self.table.rows(),
            hardware,
            progress,
        };
        let mut out = Sink::after(output, self.has_failed);
        self.view.see(&shown, &mut out);
        self.has_failed = out.has_failed();
        self.table.drop_ended();
    }
}

/// Runs a pipeline that a predictor guides, each cycle with the lines of its number, up to a breakpoint, a stale word,
/// exhaustion or `limit` cycles, as `watch` does, and shows each cycle to a view, with what became of the
/// instructions that were in flight before it or fetched in it. What the view says is written as far as no write fails,
/// or has failed before. Asks for no memory but what the view asks for before a cycle; where it refuses, the pipeline
/// stands at the end of its last whole cycle.
pub fn run_view<S: Simulated, V: View, W: Write>(
    pipeline: &mut S,
    predictor: &mut dyn Predictor,
    arrivals: &Arrivals,
    limit: u64,
    following: Following,
    view: V,
    has_failed: bool,
    writer: &mut W,
) -> Viewed<V, V::Refusal>
    requires follows { FollowsFrom (S.hardware pipeline.old) following }
    requires ready { V.has_seen view view
        (watched arrivals.now (guided (S.hardware pipeline.old) (known predictor.old)) []
        (guided (S.hardware pipeline.old) (known predictor.old))) }
    ensures { IsViewedRun V.has_seen V.text arrivals.now limit (guided (S.hardware pipeline.old) (known predictor.old))
        (guided (S.hardware pipeline.new) (known predictor.new)) view result.view result.table
        result.progress result.stop
        has_failed result.has_failed (W.contents writer.old) (W.contents writer.new) }
{
    let Following { table, steps } = following;
    let mut follower = Follower {
        view,
        table,
        has_failed,
    };
    let ended = pipeline.watch(predictor, arrivals, limit, steps, &mut follower, writer);
    let Follower {
        view,
        table,
        has_failed,
    } = follower;
    Viewed {
        view,
        table,
        progress: ended.progress,
        stop: ended.stop,
        has_failed,
    }
}
