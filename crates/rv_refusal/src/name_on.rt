ghost use Rattle.std.specs.Prelude.{◌≡◌, ◌≤◌, ◌^◌, length, option_map};
ghost use Rattle.std.specs.List.{prefix_len};
ghost use Rattle.rv_refusal.specs.HeldName.{name_in};
ghost use Rattle.rv_refusal.specs.NameOn.{begins_with, blanks, element_on, front_name, goes_on_with, heading_on};
ghost use Rattle.rv_refusal.specs.NameOn.{is_blank, is_name_byte, key_on, name_after, name_at, quoted_at, table_on};
ghost use Rattle.rv_refusal.specs.NameOn.{value_on};

/// A name on a line, and how many bytes stand before it.
#[derive(Clone, Copy)]
pub(crate) struct NameOn<'a> {
    pub(crate) before: usize,
    pub(crate) name: &'a [u8],
}

fn is_blank(byte: u8) -> bool
    ensures { result ≡ is_blank byte }
{
    byte == b' ' || byte == b'\t'
}

fn is_name_byte(byte: u8) -> bool
    ensures { result ≡ is_name_byte byte }
{
    byte.is_ascii_alphanumeric() || byte == b'_' || byte == b'-' || byte == b'.'
}

/// How many blanks a text begins with.
pub(crate) fn blanks(text: &[u8]) -> usize
    ensures count { result ≡ blanks text.now }
    ensures in_range { result ≤ length text.now }
{
    for (count, byte) in text.iter().enumerate() {
        if !is_blank(*byte) {
            return count;
        }
    }
    text.len()
}

// How many bytes of a name a text begins with.
fn name_size(text: &[u8]) -> usize
    ensures count { result ≡ prefix_len is_name_byte text.now }
    ensures in_range { result ≤ length text.now }
{
    for (count, byte) in text.iter().enumerate() {
        if !is_name_byte(*byte) {
            return count;
        }
    }
    text.len()
}

/// Whether a text begins with a byte.
pub(crate) fn begins_with(mark: u8, text: &[u8]) -> bool
    ensures { result ≡ begins_with mark text.now }
{
    match text {
        [byte, ..] => *byte == mark,
        [] => false,
    }
}

/// Whether a text begins with a byte, after blanks.
pub(crate) fn goes_on_with(mark: u8, text: &[u8]) -> bool
    ensures { result ≡ goes_on_with mark text.now }
{
    let (_, rest) = text.split_at(blanks(text));
    begins_with(mark, rest)
}

// The name that stands at the front of what follows so many bytes of a line, if a mark stands after it.
#[tactic(auto, unfolding(crate::specs::NameOn::name_at))]
fn name_at(before: usize, mark: u8, rest: &[u8]) -> Option<NameOn<'_>>
    ensures { option_map name_in result ≡ name_at before mark rest.entry.now }
{
    let (name, others) = rest.split_at(name_size(rest));
    if goes_on_with(mark, others) {
        Some(NameOn { before, name })
    } else {
        None
    }
}

// The name at the front of what follows a quote, which so many bytes of a line stand before, if a quote and a mark
// stand after it.
#[tactic(auto, unfolding(crate::specs::NameOn::quoted_at))]
fn quoted_at(before: usize, quote: u8, mark: u8, rest: &[u8]) -> Option<NameOn<'_>>
    ensures { option_map name_in result ≡ quoted_at before quote mark rest.entry.now }
{
    let size = name_size(rest);
    let (name, others) = rest.split_at(size);
    if !begins_with(quote, others) {
        return None;
    }
    let (_, behind) = rest.split_at(size + 1);
    if goes_on_with(mark, behind) {
        Some(NameOn { before, name })
    } else {
        None
    }
}

// The name that stands at the front of what follows so many bytes of a line, in quotes or in none, if a mark stands
// after it.
#[tactic(auto, unfolding(crate::specs::NameOn::front_name))]
fn front_name(before: usize, mark: u8, rest: &[u8]) -> Option<NameOn<'_>>
    ensures { option_map name_in result ≡ front_name before mark rest.entry.now }
{
    if begins_with(b'"', rest) {
        let (_, quoted) = rest.split_at(1);
        return quoted_at(before, b'"', mark, quoted);
    }
    if begins_with(b'\'', rest) {
        let (_, quoted) = rest.split_at(1);
        return quoted_at(before, b'\'', mark, quoted);
    }
    name_at(before, mark, rest)
}

/// The name that stands at the front of a text after blanks, which follows so many bytes of a line, if a mark stands after it.
#[tactic(auto, unfolding(crate::specs::NameOn::name_after))]
pub(crate) fn name_after(before: usize, mark: u8, text: &[u8]) -> Option<NameOn<'_>>
    requires { before ≤ 2 ^ 63 }
    ensures { option_map name_in result ≡ name_after before mark text.entry.now }
{
    let blank = blanks(text);
    let (_, rest) = text.split_at(blank);
    front_name(before + blank, mark, rest)
}

/// The table that a line names: its name stands in brackets.
#[tactic(auto, unfolding(crate::specs::NameOn::table_on))]
pub(crate) fn table_on(line: &[u8]) -> Option<NameOn<'_>>
    ensures { option_map name_in result ≡ table_on line.entry.now }
{
    let before = blanks(line);
    let (_, rest) = line.split_at(before);
    if !begins_with(b'[', rest) {
        return None;
    }
    let (_, inner) = line.split_at(before + 1);
    name_after(before + 1, b']', inner)
}

/// The element of an array of tables that a line begins: the array's name stands in two brackets.
#[tactic(auto, unfolding(crate::specs::NameOn::element_on))]
pub(crate) fn element_on(line: &[u8]) -> Option<NameOn<'_>>
    ensures { option_map name_in result ≡ element_on line.entry.now }
{
    let before = blanks(line);
    let (_, rest) = line.split_at(before);
    if !begins_with(b'[', rest) {
        return None;
    }
    let (_, others) = line.split_at(before + 1);
    if !begins_with(b'[', others) {
        return None;
    }
    let (_, inner) = line.split_at(before + 2);
    name_after(before + 2, b']', inner)
}

/// The name in the brackets of a heading, one before and after it or two.
#[tactic(auto, unfolding(crate::specs::NameOn::heading_on))]
pub(crate) fn heading_on(line: &[u8]) -> Option<NameOn<'_>>
    ensures { option_map name_in result ≡ heading_on line.entry.now }
{
    match element_on(line) {
        Some(on) => Some(on),
        None => table_on(line),
    }
}

/// The key that a line gives a value: its name stands before `=`.
pub(crate) fn key_on(line: &[u8]) -> Option<NameOn<'_>>
    ensures { option_map name_in result ≡ key_on line.entry.now }
{
    name_after(0, b'=', line)
}

/// What stands after the first `=` of a line; nothing on a line without one.
pub(crate) fn value_on(line: &[u8]) -> &[u8]
    ensures { result.now ≡ value_on line.entry.now }
{
    let mut rest = line;
    while let [byte, others @ ..] = rest {
        if *byte == b'=' {
            return others;
        }
        rest = others;
    }
    b""
}
