ghost use Rattle.std.specs.Prelude.{◌≡◌};
ghost use Rattle.rv_isa.specs.Key.{text_of};

use rv_describe::KeyRange;
use rv_isa::Key;
use std::fmt;

/// Why a text of `--also` sets no value.
#[derive(Clone, Copy)]
pub(crate) enum Reason {
    /// Four others stand before it.
    TooMany,
    /// It begins with no key.
    UnknownKey,
    /// Its key is one of RAM or of reports, on which no cycle depends.
    OtherKey(Key),
    /// It has no `=`, and so no value for its key.
    NoValue(Key),
    /// Its key does not take its value.
    WrongValue(Key),
    /// One before it sets the same key.
    SetTwice,
}

/// The first text of `--also` at fault.
#[derive(Clone, Copy)]
pub(crate) struct AlsoFault {
    /// Which text it is, from 0.
    pub place: usize,
    pub reason: Reason,
}

/// A key as a description writes it.
pub(crate) fn text_of(key: Key) -> &'static str
    ensures { result.now ≡ text_of key }
{
    key.place().text
}

impl fmt::Display for Reason {
    ghost use Rattle.std.specs.Prelude.{Some};
    ghost use Rattle.rv_command.specs.AlsoFault.{reason_text};

    ghost output = { λ reason. Some (reason_text reason) };

    #[tactic(auto, unfolding(crate::specs::AlsoFault::reason_text))]
    fn fmt<W: fmt::Write>(&self, f: &mut fmt::Formatter<W>) -> fmt::Result {
        match *self {
            Reason::TooMany => f.write_str("--also may be given four times"),
            Reason::UnknownKey => f.write_str("no key has this name"),
            Reason::OtherKey(key) => {
                write!(f, "{} does not say how fast a program runs", text_of(key))
            }
            Reason::NoValue(key) => {
                write!(
                    f,
                    "a value is missing; {} is {}",
                    text_of(key),
                    KeyRange { key }
                )
            }
            Reason::WrongValue(key) => write!(f, "{} is {}", text_of(key), KeyRange { key }),
            Reason::SetTwice => f.write_str("its key is set twice"),
        }
    }
}
