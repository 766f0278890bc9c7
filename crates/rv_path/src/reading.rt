ghost use Rattle.std.specs.Prelude.{◌≡◌, ◌∷◌, ◌≤◌, [], replicate, IfOk, Some};
ghost use Rattle.rv_causes.specs.Before.{facts_of};
ghost use Rattle.rv_causes.specs.Event.{nothing_yet};
ghost use Rattle.rv_causes.specs.Keeping.{ways_of};
ghost use Rattle.rv_causes.specs.Path.{known_at};
ghost use Rattle.rv_causes.specs.Reading.{cycle_of};
ghost use Rattle.rv_causes.specs.Way.{way_from};
ghost use Rattle.rv_causes.specs.Window.{IsWindow, Passes};
ghost use Rattle.rv_path.specs.OnPath.{read_by};

use rv_causes::{After, Cycle, Facts, Path};
use rv_view::ShownCycle;
use rv_watch::{ShownHardware, Simulated};
use std::alloc::{AllocError, Global};

// What hardware between two cycles shows of its stores and its port.
fn facts_of(hardware: &ShownHardware<'_>) -> Facts
    ensures { result ≡ facts_of hardware.now }
{
    Facts::of(
        hardware.store_queue(),
        hardware.port_free(),
        hardware.drain_end(),
    )
}

/// The path of hardware in which so many instructions are in flight, before the first cycle. The only error is out of
/// memory.
pub(crate) fn begin_path<S: Simulated>(
    alloc: Global,
    pipeline: &S,
    in_flight: usize,
) -> Result<Path, AllocError>
    requires few { in_flight ≤ 576 }
    ensures ways { IfOk result (λ path. ways_of path ≡ replicate in_flight (way_from nothing_yet)) }
    ensures holds { IfOk result (λ path. path.holds.items ≡ []) }
    ensures before { IfOk result (λ path. path.before ≡ (known_at (S.hardware pipeline.now)).before) }
    ensures window { IfOk result (λ path. IsWindow path.window (nothing_yet ∷ [])) }
    ensures passes { IfOk result (λ path. Passes path.window (Some nothing_yet.at)) }
{
    let hardware = pipeline.shown();
    Path::begin(
        alloc,
        facts_of(&hardware),
        hardware.store_queue(),
        in_flight,
    )
}

/// What is read of a cycle that is shown.
pub(crate) fn read_cycle<'a>(cycle: &ShownCycle<'a>) -> Cycle<'a>
    ensures { cycle_of result ≡ read_by cycle.now }
{
    Cycle {
        number: cycle.number,
        elapsed: cycle.progress.cycles.saturating_sub(1),
        values: cycle.hardware.values(),
        rows: cycle.rows,
        steps: cycle.steps,
        after: After {
            facts: facts_of(cycle.hardware),
            rob: cycle.hardware.reorder_buffer(),
        },
    }
}
