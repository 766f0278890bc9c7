use rv_front::Predictor;

/// The word after another in a list of random words.
pub(crate) fn next_word(word: u32) -> u32 {
    word.wrapping_mul(1_664_525).wrapping_add(1_013_904_223)
}

/// A predictor that guesses badly.
#[derive(Clone, Copy)]
pub(crate) enum Guesses {
    /// It always guesses this.
    Always(u32),
    /// It guesses that an instruction is followed by itself.
    Itself,
    /// It guesses that an instruction is followed by the next word, a jump too.
    Ahead,
    /// It guesses this word, and after each lesson the next one.
    Word(u32),
}

/// The two ways to mend a wrong prediction, as a description asks for them.
pub(crate) static RECOVERIES: [&str; 2] = ["recovery = \"commit\"\n", "recovery = \"early\"\n"];

/// A predictor of each sort.
pub(crate) const GUESSES: [Guesses; 4] = [
    Guesses::Always(0),
    Guesses::Always(0xffff_ffff),
    Guesses::Itself,
    Guesses::Word(1),
];

impl Predictor for Guesses {
    ghost use Rattle.rv_front.specs.Guide.{unknown};

    ghost known = { λ _. unknown };

    fn predict(&self, pc: u32, _word: u32) -> u32 {
        match *self {
            Guesses::Always(next) | Guesses::Word(next) => next,
            Guesses::Itself => pc,
            Guesses::Ahead => pc.wrapping_add(4),
        }
    }

    fn learn(&mut self, _pc: u32, _word: u32, _next: u32) {
        if let Guesses::Word(word) = *self {
            *self = Guesses::Word(next_word(word));
        }
    }
}
