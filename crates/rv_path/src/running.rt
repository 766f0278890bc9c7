ghost use Rattle.std.specs.Prelude.{IfOk, OnErr};
ghost use Rattle.rv_hardware.specs.Guided.{guided};
ghost use Rattle.rv_path.specs.Run.{IsAccounted};
ghost use Rattle.rv_causes.specs.Window.{accounted};
ghost use Rattle.rv_view.specs.Run.{HasRun};

use crate::reading::{begin_path, read_cycle};
use rv_arch::Stop;
use rv_causes::{Account, Path};
use rv_front::Predictor;
use rv_isa::Arrivals;
use rv_text::Sink;
use rv_view::{Following, ShownCycle, View, Viewed, run_view};
use rv_watch::Simulated;
use std::alloc::{AllocError, Global};
use std::io;
use std::io::Write;

/// Why a run ended, its cycles, and on whose account they are.
#[derive(Drop)]
pub(crate) struct Accounted {
    pub(crate) stop: Stop,
    pub(crate) cycles: u64,
    pub(crate) account: Account,
}

// The view that follows the path, and says nothing.
#[derive(Drop)]
struct Walker {
    path: Path,
}

impl View for Walker {
    ghost use Rattle.std.specs.Prelude.{[], refl};
    ghost use Rattle.rv_causes.specs.Keeping.{HasRoom};
    ghost use Rattle.rv_path.specs.OnPath.{IsOnPath};

    type Refusal = AllocError;

    ghost has_seen = { λ start walker seen. IsOnPath walker.path seen };

    ghost text = { λ _ _ _. [] };

    ghost has_room = { λ walker. HasRoom walker.path };

    ghost nothing_said = { λ _ _. refl };

    fn make_room(&mut self) -> Result<(), AllocError> {
        self.path.make_room()
    }

    fn see<W: Write>(&mut self, cycle: &ShownCycle<'_>, _: &mut Sink<'_, W>) {
        self.path.follow(&read_cycle(cycle));
    }
}

/// Runs a pipeline that a predictor guides up to so many cycles, and follows its path to the last retirement, trap or
/// interrupt. The only error is out of memory, which may come in the middle of the run. The pipeline stands at the end
/// of a cycle then.
pub(crate) fn run_accounted<S: Simulated>(
    alloc: Global,
    pipeline: &mut S,
    predictor: &mut dyn Predictor,
    arrivals: &Arrivals,
    limit: u64,
) -> Result<Accounted, AllocError>
    ensures accounted { IfOk result (λ done. IsAccounted arrivals.now limit
        (guided (S.hardware pipeline.old) (known predictor.old))
        (guided (S.hardware pipeline.new) (known predictor.new)) done.stop done.cycles (accounted done.account)) }
    ensures run { OnErr result (HasRun arrivals.now (guided (S.hardware pipeline.old) (known predictor.old))
        (guided (S.hardware pipeline.new) (known predictor.new))) }
{
    let following = Following::begin(alloc, pipeline)?;
    let path = begin_path(alloc, pipeline, following.rows().len())?;
    let Viewed {
        view,
        table: _,
        progress,
        stop,
        has_failed: _,
    } = run_view(
        pipeline,
        predictor,
        arrivals,
        limit,
        following,
        Walker { path },
        false,
        &mut io::sink(),
    );
    let stop = stop?;
    let cycles = progress.cycles;
    let account = view.path.into_account(cycles)?;
    Ok(Accounted {
        stop,
        cycles,
        account,
    })
}
