ghost use Rattle.std.specs.Prelude.{◌+◌, IfOk, OnErr};
ghost use Rattle.rv_hardware.specs.Guided.{guided};
ghost use Rattle.rv_path.specs.Marking.{IsMarked};
ghost use Rattle.rv_path.specs.Run.{HasOneAnswer};
ghost use Rattle.rv_view.specs.Run.{HasRun};

use crate::marking::run_marked;
use rv_drawing::Mark;
use rv_front::Predictor;
use rv_isa::Arrivals;
use rv_watch::Simulated;
use std::alloc::{AllocError, Global};

/// Runs a pipeline that a predictor guides, each cycle with the lines of its number, up to a breakpoint, a stale word,
/// exhaustion or `from + cycles` cycles, and answers the marks of the critical path, that to the last retirement, trap
/// or interrupt of the run, in the window of the cycles from `from` on: one for each fetch, dispatch, issue, broadcast
/// and commit of an instruction that is on the path, the newest first. The number of the instruction is that in the
/// picture of the window. The only error is out of memory: then the run was cut short or not begun, and the pipeline
/// stands at the end of a cycle.
pub fn path_marks<S: Simulated>(
    alloc: Global,
    pipeline: &mut S,
    predictor: &mut dyn Predictor,
    arrivals: &Arrivals,
    from: u64,
    cycles: u64,
) -> Result<Vec<Mark>, AllocError>
    ensures marked { IfOk result (λ marks. IsMarked arrivals.now from cycles
        (guided (S.hardware pipeline.old) (known predictor.old))
        (guided (S.hardware pipeline.new) (known predictor.new)) marks.items) }
    // With a described predictor the marks are a function of what they are of.
    ensures one_marking { HasOneAnswer (from + cycles) (IsMarked arrivals.now from cycles) }
    ensures run { OnErr result (HasRun arrivals.now (guided (S.hardware pipeline.old) (known predictor.old))
        (guided (S.hardware pipeline.new) (known predictor.new))) }
{
    run_marked(alloc, pipeline, predictor, arrivals, from, cycles)
}
