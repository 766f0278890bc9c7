ghost use Rattle.std.specs.Prelude.{◌≡◌};
ghost use Rattle.rv_states.specs.Place.{word_address};

/// The address of a word of RAM by its number. Addresses go on modulo 2^32.
#[tactic(auto, using(rv_text::proofs::Writing::place_of_word))]
pub(crate) fn word_address(base: u32, number: u32) -> u32
    ensures { result ≡ word_address base number }
{
    base.wrapping_add(number.wrapping_mul(4))
}
