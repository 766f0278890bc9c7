ghost use Rattle.std.specs.Prelude.{◌≡◌, ◌<◌, [], ◌++◌, get_or, length};
ghost use Rattle.rv_states.specs.Json.{also, array, comma_at, values_from};
ghost use Rattle.rv_text.specs.Said.{Says};

use crate::json::write_key;
use rv_text::Sink;
use std::io::Write;

/// The values of a JSON array, each at its place.
pub trait Values {
    ghost use Rattle.std.specs.Prelude.{◌≡◌, ◌<◌, ℕ, List, [], get_or, length};
    ghost use Rattle.rv_text.specs.Said.{Says};

    // The texts of the values.
    ghost values: { Self → List (List ℕ) };

    /// How many values there are.
    fn count(&self) -> usize
        ensures { result ≡ length (values self.now) };

    /// Writes the value at a place.
    fn write_value<W: Write>(&self, out: &mut Sink<'_, W>, place: usize)
        requires { place < length (values self.now) }
        ensures { Says W.contents out.old out.new (get_or (values self.now) place []) };
}

#[tactic(auto, unfolding(crate::specs::Json::comma_at))]
fn comma_at(place: usize) -> &'static [u8]
    ensures { result.now ≡ comma_at place }
{
    if place == 0 { b"" } else { b"," }
}

/// Writes the comma before the value at a place of an array, if one stands there.
pub(crate) fn write_comma<W: Write>(out: &mut Sink<'_, W>, place: usize)
    ensures { Says W.contents out.old out.new (comma_at place) }
{
    out.put(comma_at(place))
}

#[tactic(auto, using(rv_text::proofs::Saying::says_both))]
fn write_after_comma<T: Values, W: Write>(out: &mut Sink<'_, W>, values: &T, place: usize)
    requires { place < length (T.values values.now) }
    ensures { Says W.contents out.old out.new (comma_at place ++ get_or (T.values values.now) place []) }
{
    write_comma(out, place);
    values.write_value(out, place)
}

fn write_values<T: Values, W: Write>(out: &mut Sink<'_, W>, values: &T)
    ensures { Says W.contents out.old out.new (values_from 0 (T.values values.now)) }
{
    for place in 0..values.count() {
        write_after_comma(out, values, place);
    }
}

/// Writes an array.
#[tactic(auto, using(rv_text::proofs::Saying::says_both), unfolding(crate::specs::Json::array))]
pub(crate) fn write_array<T: Values, W: Write>(out: &mut Sink<'_, W>, values: &T)
    ensures { Says W.contents out.old out.new (array (T.values values.now)) }
{
    out.put(b"[");
    write_values(out, values);
    out.put(b"]")
}

/// Writes a member that is an array.
#[tactic(auto, using(rv_text::proofs::Saying::says_both), unfolding(crate::specs::Json::also))]
pub fn write_array_member<T: Values, W: Write>(out: &mut Sink<'_, W>, name: &str, values: &T)
    ensures { Says W.contents out.old out.new (also name.now (array (T.values values.now))) }
{
    write_key(out, name);
    write_array(out, values)
}
