ghost use Rattle.std.specs.Prelude.{◌≡◌, IfOk, OnErr};
ghost use Rattle.rv_hardware.specs.Guided.{guided};
ghost use Rattle.rv_counts.specs.Head.{head_of};
ghost use Rattle.rv_profile.specs.Run.{IsCounted};
ghost use Rattle.rv_view.specs.Run.{HasRun};

use rv_arch::Stop;
use rv_counts::Profile;
use rv_front::Predictor;
use rv_isa::{Arrivals, Description};
use rv_text::Sink;
use rv_view::{Following, ShownCycle, View, Viewed, run_view};
use rv_watch::{ShownHardware, Simulated};
use std::alloc::{AllocError, Global};
use std::io;
use std::io::Write;

/// Why a run ended, and the counts of its instructions.
#[derive(Drop)]
pub(crate) struct Counted {
    pub(crate) stop: Stop,
    pub(crate) profile: Profile,
}

// The view that counts what left the hardware, and says nothing.
#[derive(Drop)]
struct Profiler {
    profile: Profile,
}

impl View for Profiler {
    ghost use Rattle.std.specs.Prelude.{◌+◌, ◌≤◌, [], length, refl};
    ghost use Rattle.rv_profile.specs.Keeping.{IsProfiling};

    type Refusal = AllocError;

    ghost has_seen = { λ start profiler seen. IsProfiling start.profile.costs profiler.profile seen };

    ghost text = { λ _ _ _. [] };

    ghost has_room = { λ profiler. length profiler.profile.words + 577 ≤ profiler.profile.capacity };

    ghost nothing_said = { λ _ _. refl };

    fn make_room(&mut self) -> Result<(), AllocError> {
        self.profile.make_room()
    }

    fn see<W: Write>(&mut self, cycle: &ShownCycle<'_>, _: &mut Sink<'_, W>) {
        self.profile.follow(cycle.rows, head_of(cycle.hardware));
    }
}

// The address of the instruction at the head of the reorder buffer.
fn head_of(hardware: &ShownHardware<'_>) -> Option<u32>
    ensures { result ≡ head_of hardware.now }
{
    Some(hardware.reorder_buffer().head()?.pc)
}

/// Runs a pipeline that a predictor guides up to so many cycles, and counts what leaves the hardware in them and what is in
/// flight at their end. The description says what loads cost. The only error is out of memory, which may come in the middle of
/// the run; the pipeline stands at the end of a cycle then.
pub(crate) fn run_profiled<S: Simulated>(
    alloc: Global,
    pipeline: &mut S,
    predictor: &mut dyn Predictor,
    description: &Description,
    arrivals: &Arrivals,
    limit: u64,
) -> Result<Counted, AllocError>
    ensures counted { IfOk result (λ counted. IsCounted arrivals.now limit description.now
        (guided (S.hardware pipeline.old) (known predictor.old))
        (guided (S.hardware pipeline.new) (known predictor.new))
        counted.stop counted.profile.words) }
    ensures run { OnErr result (HasRun arrivals.now (guided (S.hardware pipeline.old) (known predictor.old))
        (guided (S.hardware pipeline.new) (known predictor.new))) }
{
    let following = Following::begin(alloc, pipeline)?;
    let profiler = Profiler {
        profile: Profile::new(alloc, description),
    };
    let Viewed {
        view,
        table,
        progress: _,
        stop,
        has_failed: _,
    } = run_view(
        pipeline,
        predictor,
        arrivals,
        limit,
        following,
        profiler,
        false,
        &mut io::sink(),
    );
    let stop = stop?;
    // It counts so many cycles at most, and so the counts can go on.
    let _ = pipeline.is_exhausted();
    let mut profile = view.profile;
    profile.finish(table.rows())?;
    Ok(Counted { stop, profile })
}
