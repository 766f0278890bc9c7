ghost use Rattle.std.specs.Prelude.{◌≡◌, ◌+◌, ◌-◌, ◌^◌, ◌<◌, ◌≤◌, IfOk, OnErr};
ghost use Rattle.rv_hardware.specs.Guided.{guided};
ghost use Rattle.rv_path.specs.Marking.{IsMarked};
ghost use Rattle.rv_view.specs.Run.{HasRun};

use crate::marks::marks_of;
use crate::reading::{begin_path, read_cycle};
use rv_causes::{Numbering, Path};
use rv_drawing::Mark;
use rv_front::Predictor;
use rv_isa::Arrivals;
use rv_text::Sink;
use rv_view::{Following, ShownCycle, View, Viewed, run_view};
use rv_watch::Simulated;
use std::alloc::{AllocError, Global};
use std::io;
use std::io::Write;

/// The view that follows the path, keeps all events of the window after so many cycles, and says nothing.
#[derive(Drop)]
pub(crate) struct Marker {
    path: Path,
    numbering: Numbering,
    from: u64,
    // Those so far.
    cycles: u64,
}

impl View for Marker {
    ghost use Rattle.std.specs.Prelude.{[], refl};
    ghost use Rattle.rv_causes.specs.Keeping.{HasRoom};
    ghost use Rattle.rv_path.specs.Marker.{IsMarking};

    type Refusal = AllocError;

    ghost has_seen = { λ start marker seen. IsMarking marker seen × (marker.from ≡ start.from) };

    ghost text = { λ _ _ _. [] };

    ghost has_room = { λ marker. HasRoom marker.path };

    ghost nothing_said = { λ _ _. refl };

    fn make_room(&mut self) -> Result<(), AllocError> {
        self.path.make_room_keeping(self.cycles >= self.from)
    }

    fn see<W: Write>(&mut self, cycle: &ShownCycle<'_>, _: &mut Sink<'_, W>) {
        self.path.follow(&read_cycle(cycle));
        self.cycles = cycle.progress.cycles;
        self.numbering.follow(self.from, self.cycles, cycle.rows);
    }
}

// So many cycles after others, or more than a run has.
fn limit_of(from: u64, cycles: u64) -> u64
    ensures exact { from + cycles < 2 ^ 64 → result ≡ from + cycles }
    ensures beyond { 2 ^ 64 ≤ from + cycles → result ≡ 2 ^ 64 - 1 }
{
    from.saturating_add(cycles)
}

/// Runs a pipeline that a predictor guides up to so many cycles after others, and answers the marks of its path in the
/// former, the newest first. The only error is out of memory, which may come in the middle of the run. The pipeline
/// stands at the end of a cycle then.
pub(crate) fn run_marked<S: Simulated>(
    alloc: Global,
    pipeline: &mut S,
    predictor: &mut dyn Predictor,
    arrivals: &Arrivals,
    from: u64,
    cycles: u64,
) -> Result<Vec<Mark>, AllocError>
    ensures marked { IfOk result (λ marks. IsMarked arrivals.now from cycles
        (guided (S.hardware pipeline.old) (known predictor.old))
        (guided (S.hardware pipeline.new) (known predictor.new)) marks.items) }
    ensures run { OnErr result (HasRun arrivals.now (guided (S.hardware pipeline.old) (known predictor.old))
        (guided (S.hardware pipeline.new) (known predictor.new))) }
{
    let following = Following::begin(alloc, pipeline)?;
    let rows = following.rows();
    let numbering = Numbering::begin(alloc, rows)?;
    let path = begin_path(alloc, pipeline, rows.len())?;
    let marker = Marker {
        path,
        numbering,
        from,
        cycles: 0,
    };
    let Viewed {
        view,
        table: _,
        progress: _,
        stop,
        has_failed: _,
    } = run_view(
        pipeline,
        predictor,
        arrivals,
        limit_of(from, cycles),
        following,
        marker,
        false,
        &mut io::sink(),
    );
    let _ = stop?;
    // No run is so long that a greater sum would be another limit.
    let _ = pipeline.is_exhausted();
    let Marker {
        path,
        numbering,
        from: _,
        cycles: _,
    } = view;
    let path = path.into_path()?;
    marks_of(alloc, from, &numbering, path.as_slice())
}
