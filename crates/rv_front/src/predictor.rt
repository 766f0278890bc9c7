ghost use Rattle.std.specs.Prelude.{[], ◌∷◌};
ghost use Rattle.rv_front.specs.Guide.{AreTaught, Guide, answers_of};

/// What guesses where the program goes on after each fetched word.
///
/// Nothing is asked of the answers: whoever uses a predictor is right for every one.
pub trait Predictor: Drop {
    // What it answers, now and after lessons: by its state (`guide_by`), or `unknown`.
    ghost known: { Self → Guide };

    /// Guesses the pc of the instruction after the one whose word was fetched at `pc`.
    fn predict(&self, pc: u32, word: u32) -> u32
        ensures { answers_of (known self.now) pc word result };

    /// Learns that the instruction with this word, at `pc`, retired and went on at `next`.
    fn learn(&mut self, pc: u32, word: u32, next: u32)
        ensures { AreTaught (known self.old) (record { pc = pc; word = word; next = next } ∷ []) (known self.new) };
}
