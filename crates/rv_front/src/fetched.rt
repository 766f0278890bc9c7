ghost use Rattle.std.specs.Prelude.{◌≡◌};
ghost use Rattle.rv_front.specs.FetchBuffer.{stop_after};

use rv_decode::Decoded;

/// A word in the fetch buffer.
#[derive(Clone, Copy)]
pub struct Fetched {
    /// The address that it was fetched from.
    pub pc: u32,
    /// What RAM held there at that moment, None outside RAM: an access fault.
    pub word: Option<u32>,
    /// The instruction that the word is, None where there is no word or it is illegal.
    pub instruction: Decoded,
    /// The predicted pc of the next instruction, a multiple of 4.
    pub predicted: u32,
    /// The cycle of its fetch.
    pub cycle: u64,
}

/// Why a cycle's fetch stopped.
#[derive(Clone, Copy, PartialEq, Eq)]
pub enum FetchStop {
    /// It took as many words as the front fetches in a cycle.
    Width,
    /// The fetch buffer was full.
    Room,
    /// A prediction was not the address after the word.
    Prediction,
    /// The pc is outside RAM: nothing is fetched until the front is redirected.
    Halted,
}

impl Fetched {
    // Why a fetch ends with this word, if it does.
    pub(crate) fn stop(&self) -> Option<FetchStop>
        ensures { result ≡ stop_after self.now }
    {
        if self.word.is_none() {
            return Some(FetchStop::Halted);
        }
        if self.predicted != self.pc.wrapping_add(4) {
            return Some(FetchStop::Prediction);
        }
        None
    }
}
