ghost use Rattle.std.specs.Prelude.{◌≡◌};
ghost use Rattle.rv_front.specs.Flow.{flow_at};
ghost use Rattle.rv_front.specs.Predictors.{guide_of, not_taken};
ghost use Rattle.rv_front.specs.declared.predictors.DescribedPredictor.TheVariants as described;

use crate::flow::Flow;
use crate::predictor::Predictor;

/// Predicts that no branch is taken. Only a JAL leads elsewhere than to the next word.
#[derive(Clone, Copy)]
pub struct NotTaken;

impl Predictor for NotTaken {
    ghost known = { λ predictor. guide_of (described.NotTaken predictor) };

    fn predict(&self, pc: u32, word: u32) -> u32
        ensures { result ≡ not_taken pc (flow_at pc word) }
    {
        match Flow::at(pc, word) {
            Flow::Jump { target } => target,
            Flow::Sequential | Flow::Branch { .. } | Flow::Indirect => pc.wrapping_add(4),
        }
    }

    fn learn(&mut self, _pc: u32, _word: u32, _next: u32) {}
}
