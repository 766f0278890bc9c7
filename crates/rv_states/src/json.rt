ghost use Rattle.std.specs.Prelude.{◌≡◌, ◌++◌, codes};
ghost use Rattle.std.specs.List.{flat_map};
ghost use Rattle.rv_states.specs.Json.{also, begins, json_byte, key, numeral, quoted, string, truth};
ghost use Rattle.rv_states.specs.Member.{member_text};
ghost use Rattle.rv_states.specs.declared.json.Value.TheVariants.{Maybe, Number};
ghost use Rattle.rv_text.specs.Said.{Says};

use itoa::Buffer;
use rv_text::Sink;
use std::io::Write;

/// What a member of an object has.
#[derive(Clone, Copy)]
pub enum Value {
    /// A whole number.
    Number(u64),
    /// A truth value.
    Truth(bool),
    /// A name of the format, which needs no escape.
    Name(&'static str),
    /// A number where there is one; else the member is left out.
    Maybe(Option<u64>),
}

/// A member of an object, but for its first one.
#[derive(Clone, Copy)]
pub struct Member {
    /// Its name, which needs no escape.
    pub name: &'static str,
    /// What it has.
    pub value: Value,
}

impl Member {
    /// A member that is a number.
    pub fn number(name: &'static str, number: u64) -> Member
        ensures name { result.name.now ≡ name.now }
        ensures value { result.value ≡ Number number }
    {
        Member {
            name,
            value: Value::Number(number),
        }
    }

    // A member that is a word.
    pub(crate) fn word(name: &'static str, word: u32) -> Member
        ensures name { result.name.now ≡ name.now }
        ensures value { result.value ≡ Number word }
    {
        Member::number(name, u64::from(word))
    }

    // A number where there is one.
    pub(crate) fn maybe(name: &'static str, number: Option<u64>) -> Member
        ensures name { result.name.now ≡ name.now }
        ensures value { result.value ≡ Maybe number }
    {
        Member {
            name,
            value: Value::Maybe(number),
        }
    }

    // A word where there is one.
    pub(crate) fn maybe_word(name: &'static str, word: Option<u32>) -> Member
        ensures name { result.name.now ≡ name.now }
        ensures value { result.value ≡ Maybe word }
    {
        Member::maybe(name, word.map(u64::from))
    }
}

/// Writes the name of a further member.
#[tactic(auto, unfolding(crate::specs::Json::key))]
pub(crate) fn write_key<W: Write>(out: &mut Sink<'_, W>, name: &str)
    ensures { Says W.contents out.old out.new (key name.now) }
{
    out.put_all(&[b",\"", name.as_bytes(), b"\":"])
}

// The digits of a number.
#[tactic(auto, using(crate::proofs::Numerals::decimal_is))]
fn digits(buffer: &mut Buffer, number: u64) -> &[u8]
    ensures { result.now ≡ numeral number }
{
    buffer.format(number).as_bytes()
}

/// Writes the digits of a number.
pub(crate) fn write_digits<W: Write>(out: &mut Sink<'_, W>, number: u64)
    ensures { Says W.contents out.old out.new (numeral number) }
{
    out.put(digits(&mut Buffer::new(), number))
}

/// Writes a further member that is a number.
pub(crate) fn write_number<W: Write>(out: &mut Sink<'_, W>, name: &str, number: u64)
    ensures { Says W.contents out.old out.new (also name.now (numeral number)) }
{
    write_text(out, name, digits(&mut Buffer::new(), number))
}

// Writes a further member that has this text.
#[tactic(auto, unfolding(crate::specs::Json::also, crate::specs::Json::key))]
fn write_text<W: Write>(out: &mut Sink<'_, W>, name: &str, text: &[u8])
    ensures { Says W.contents out.old out.new (also name.now text.now) }
{
    out.put_all(&[b",\"", name.as_bytes(), b"\":", text])
}

/// Writes a further member that is a string of characters that need no escape.
#[tactic(auto, unfolding(crate::specs::Json::also, crate::specs::Json::key, crate::specs::Json::quoted))]
pub(crate) fn write_name<W: Write>(out: &mut Sink<'_, W>, name: &str, text: &str)
    ensures { Says W.contents out.old out.new (also name.now (quoted text.now)) }
{
    out.put_all(&[
        b",\"",
        name.as_bytes(),
        b"\":",
        b"\"",
        text.as_bytes(),
        b"\"",
    ])
}

#[tactic(auto, unfolding(crate::specs::Json::truth))]
fn truth(value: bool) -> &'static [u8]
    ensures { result.now ≡ truth value }
{
    if value { b"true" } else { b"false" }
}

fn write_member<W: Write>(out: &mut Sink<'_, W>, member: Member)
    ensures { Says W.contents out.old out.new (member_text member) }
{
    let name = member.name;
    match member.value {
        Value::Number(number) | Value::Maybe(Some(number)) => write_number(out, name, number),
        Value::Maybe(None) => {}
        Value::Truth(value) => write_text(out, name, truth(value)),
        Value::Name(text) => write_name(out, name, text),
    }
}

/// Writes members of an object one after the other, each after a comma.
#[tactic(auto, using(rv_text::proofs::Saying::saying))]
pub(crate) fn write_members<W: Write>(out: &mut Sink<'_, W>, members: &[Member])
    ensures { Says W.contents out.old out.new (flat_map member_text members.now) }
{
    for member in members {
        write_member(out, *member);
    }
}

/// Writes the brace and the first member of an object.
#[tactic(auto, unfolding(crate::specs::Json::begins, crate::specs::Json::opens))]
pub(crate) fn write_begin<W: Write>(out: &mut Sink<'_, W>, name: &str, number: u64)
    ensures { Says W.contents out.old out.new (begins name.now (numeral number)) }
{
    let mut buffer = Buffer::new();
    let digits = digits(&mut buffer, number);
    out.put_all(&[b"{\"", name.as_bytes(), b"\":", digits])
}

/// Writes the brace and these members of an object.
#[tactic(auto, using(rv_text::proofs::Saying::says_both))]
pub(crate) fn write_front<W: Write>(
    out: &mut Sink<'_, W>,
    name: &str,
    number: u64,
    members: &[Member],
)
    ensures { Says W.contents out.old out.new (begins name.now (numeral number) ++ flat_map member_text members.now) }
{
    write_begin(out, name, number);
    write_members(out, members)
}

/// Writes an object whose members are these.
#[tactic(auto, using(rv_text::proofs::Saying::says_both))]
pub(crate) fn write_object<W: Write>(
    out: &mut Sink<'_, W>,
    name: &str,
    number: u64,
    members: &[Member],
)
    ensures { Says W.contents out.old out.new
        (begins name.now (numeral number) ++ (flat_map member_text members.now ++ codes "}")) }
{
    write_begin(out, name, number);
    write_members(out, members);
    out.put(b"}")
}

/// Writes a further member that is an object whose members are these.
#[tactic(auto, using(rv_text::proofs::Saying::says_both), unfolding(crate::specs::Json::also))]
pub(crate) fn write_object_member<W: Write>(
    out: &mut Sink<'_, W>,
    object: &str,
    name: &str,
    number: u64,
    members: &[Member],
)
    ensures { Says W.contents out.old out.new
        (also object.now (begins name.now (numeral number) ++ (flat_map member_text members.now ++ codes "}"))) }
{
    write_key(out, object);
    write_object(out, name, number, members)
}

// Writes a byte of a text of a user's.
#[tactic(auto, unfolding(crate::specs::Json::json_byte))]
fn write_json_byte<W: Write>(out: &mut Sink<'_, W>, byte: u8)
    ensures { Says W.contents out.old out.new (json_byte byte) }
{
    if byte == b'"' {
        out.put(b"\\u0022")
    } else if byte == b'&' {
        out.put(b"\\u0026")
    } else if byte == b'<' {
        out.put(b"\\u003c")
    } else if byte == b'>' {
        out.put(b"\\u003e")
    } else if byte == b'\\' {
        out.put(b"\\u005c")
    } else {
        out.put_plain_byte(byte)
    }
}

// Writes the bytes of a text of a user's.
#[tactic(auto, using(rv_text::proofs::Saying::saying))]
fn write_json_bytes<W: Write>(out: &mut Sink<'_, W>, text: &[u8])
    ensures { Says W.contents out.old out.new (flat_map json_byte text.now) }
{
    for byte in text {
        write_json_byte(out, *byte);
    }
}

/// Writes the string of a text of a user's.
#[tactic(auto, using(rv_text::proofs::Saying::says_both), unfolding(crate::specs::Json::string))]
pub(crate) fn write_string<W: Write>(out: &mut Sink<'_, W>, text: &[u8])
    ensures { Says W.contents out.old out.new (string text.now) }
{
    out.put(b"\"");
    write_json_bytes(out, text);
    out.put(b"\"")
}
