ghost use Rattle.std.specs.Prelude.{◌≡◌, ◌<◌, ◌*◌, ◌/◌, ◌%◌};
ghost use Rattle.std.specs.Char.{digit_char};
ghost use Rattle.rv_text.specs.Line.{word_text, three_digits};

// The lower-case hexadecimal digit of a number below 16.
fn digit(value: u32) -> u8
    requires { value < 16 }
    ensures { result ≡ digit_char value }
{
    if value < 10 {
        b'0' + value as u8
    } else {
        b'a' + (value - 10) as u8
    }
}

/// A word as eight hexadecimal digits, the highest first, letters in lower case.
#[tactic(auto, unfolding(crate::specs::Line::word_text))]
pub fn hexadecimal(word: u32) -> [u8; 8]
    ensures { result ≡ word_text word }
{
    [
        digit(word >> 28),
        digit((word >> 24) % 16),
        digit((word >> 20) % 16),
        digit((word >> 16) % 16),
        digit((word >> 12) % 16),
        digit((word >> 8) % 16),
        digit((word >> 4) % 16),
        digit(word % 16),
    ]
}

/// How many thousandths are left of a ratio beyond its whole part.
pub(crate) fn thousandths(count: u64, each: u64) -> u32
    requires { 0 < each }
    ensures { result ≡ count * 1000 / each % 1000 }
{
    (u128::from(count) * 1000 / u128::from(each) % 1000) as u32
}

/// A number below 1000 in three digits.
#[tactic(auto, unfolding(crate::specs::Line::three_digits))]
pub fn three_digits(number: u32) -> [u8; 3]
    requires { number < 1000 }
    ensures { result ≡ three_digits number }
{
    [
        digit(number / 100),
        digit(number / 10 % 10),
        digit(number % 10),
    ]
}
