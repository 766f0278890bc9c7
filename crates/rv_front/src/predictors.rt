mod backward_taken;
mod bimodal;
mod not_taken;

use crate::flow::leads_elsewhere;
use crate::predictor::Predictor;
pub use backward_taken::BackwardTaken;
pub use bimodal::Bimodal;
pub use not_taken::NotTaken;
use rv_isa::PredictorKind;
use std::alloc::{AllocError, Global};

/// The predictor that a description names: one of the kinds, which answers and learns as its kind does.
#[derive(Drop)]
pub enum DescribedPredictor {
    NotTaken(NotTaken),
    BackwardTaken(BackwardTaken),
    Bimodal(Bimodal),
}

impl DescribedPredictor {
    ghost use Rattle.std.specs.Prelude.{◌≡◌, IfOk, option_copied};
    ghost use Rattle.rv_isa.specs.Description.{Within};
    ghost use Rattle.rv_front.specs.Predictors.{described, tables_of};

    /// A predictor of a kind that was taught nothing, with so many entries where the kind has tables.
    pub fn new(alloc: Global, kind: PredictorKind, entries: u32) -> Result<Self, AllocError>
        requires { Within 1 4096 entries }
        ensures { IfOk result (λ predictor. predictor ≡ described kind entries) }
    {
        match kind {
            PredictorKind::NotTaken => Ok(DescribedPredictor::NotTaken(NotTaken)),
            PredictorKind::BackwardTaken => Ok(DescribedPredictor::BackwardTaken(BackwardTaken)),
            PredictorKind::Bimodal => {
                let bimodal = Bimodal::new(alloc, entries)?;
                Ok(DescribedPredictor::Bimodal(bimodal))
            }
        }
    }

    /// The tables of a predictor that has them.
    pub fn tables(&self) -> Option<&Bimodal>
        ensures { option_copied result ≡ tables_of self.now }
    {
        match self {
            DescribedPredictor::Bimodal(tables) => Some(tables),
            _ => None,
        }
    }
}

impl DescribedPredictor {
    ghost use Rattle.std.specs.Prelude.{◌≡◌};
    ghost use Rattle.rv_front.specs.Flow.{flow_at};
    ghost use Rattle.rv_front.specs.Predictors.{answer, taught};

    // What its kind answers.
    #[inline(never)]
    fn predict_by_kind(&self, pc: u32, word: u32) -> u32
        ensures { result ≡ answer self.now pc (flow_at pc word) }
    {
        match self {
            DescribedPredictor::NotTaken(predictor) => predictor.predict(pc, word),
            DescribedPredictor::BackwardTaken(predictor) => predictor.predict(pc, word),
            DescribedPredictor::Bimodal(predictor) => predictor.predict(pc, word),
        }
    }

    // Learns as its kind does.
    #[inline(never)]
    fn learn_by_kind(&mut self, pc: u32, word: u32, next: u32)
        ensures { self.new ≡ taught self.old (record { pc = pc; word = word; next = next }) }
    {
        match self {
            DescribedPredictor::NotTaken(predictor) => predictor.learn(pc, word, next),
            DescribedPredictor::BackwardTaken(predictor) => predictor.learn(pc, word, next),
            DescribedPredictor::Bimodal(predictor) => predictor.learn(pc, word, next),
        }
    }
}

impl Predictor for DescribedPredictor {
    ghost use Rattle.std.specs.Prelude.{◌≡◌};
    ghost use Rattle.rv_front.specs.Flow.{flow_at};
    ghost use Rattle.rv_front.specs.Predictors.{answer, guide_of, taught};

    ghost known = { guide_of };

    fn predict(&self, pc: u32, word: u32) -> u32
        ensures { result ≡ answer self.now pc (flow_at pc word) }
    {
        // Most words lead to the next one, by each kind.
        if !leads_elsewhere(word) {
            return pc.wrapping_add(4);
        }
        self.predict_by_kind(pc, word)
    }

    fn learn(&mut self, pc: u32, word: u32, next: u32)
        ensures { self.new ≡ taught self.old (record { pc = pc; word = word; next = next }) }
    {
        // Of a word that leads to the next one nothing is learned.
        if leads_elsewhere(word) {
            self.learn_by_kind(pc, word, next);
        }
    }
}
