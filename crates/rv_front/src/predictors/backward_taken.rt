ghost use Rattle.std.specs.Prelude.{◌≡◌};
ghost use Rattle.rv_front.specs.Flow.{flow_at};
ghost use Rattle.rv_front.specs.Predictors.{backward_taken, guide_of};
ghost use Rattle.rv_front.specs.declared.predictors.DescribedPredictor.TheVariants as described;

use crate::flow::Flow;
use crate::predictor::Predictor;

/// Predicts that a branch is taken where its offset is negative, as at the end of a loop.
#[derive(Clone, Copy)]
pub struct BackwardTaken;

impl Predictor for BackwardTaken {
    ghost known = { λ predictor. guide_of (described.BackwardTaken predictor) };

    fn predict(&self, pc: u32, word: u32) -> u32
        ensures { result ≡ backward_taken pc (flow_at pc word) }
    {
        match Flow::at(pc, word) {
            Flow::Jump { target }
            | Flow::Branch {
                target,
                backward: true,
            } => target,
            Flow::Sequential | Flow::Branch { .. } | Flow::Indirect => pc.wrapping_add(4),
        }
    }

    fn learn(&mut self, _pc: u32, _word: u32, _next: u32) {}
}
