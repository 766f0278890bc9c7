ghost use Rattle.std.specs.Prelude.{◌≡◌, IfOk};
ghost use Rattle.rv_front.specs.Predictors.{guide_of};
ghost use Rattle.rv_isa.specs.Description.{IsLegalPredictor};
ghost use Rattle.rv_program.specs.CoreReport.{untaught_of};

use rv_front::{DescribedPredictor, Predictor};
use rv_isa::PredictorValues;
use std::alloc::{AllocError, Global};

/// A branch predictor of any kind, of which nothing is asked but that its calls return.
#[derive(Drop)]
pub struct BoxedPredictor {
    /// The predictor.
    pub predictor: Box<dyn Predictor>,
}

/// The predictor that a description names, which was taught nothing, in a box.
pub(crate) fn boxed(
    alloc: Global,
    values: PredictorValues,
) -> Result<Box<DescribedPredictor>, AllocError>
    requires { IsLegalPredictor values }
    ensures { IfOk result (λ predictor. guide_of predictor.value ≡ untaught_of values) }
{
    let predictor = DescribedPredictor::new(alloc, values.kind, values.entries)?;
    Ok(Box::new(alloc, predictor)?)
}
