ghost use Rattle.std.specs.Prelude.{◌≡◌, ◌≤◌, length, option_map, option_copied};
ghost use Rattle.std.specs.List.{position_or_len};
ghost use Rattle.rv_job.specs.Parts.{after_separator, halves_of, later_halves, parts_of};
ghost use Rattle.rv_job.specs.Parts.{is_line_feed, is_separator, without_mark, without_return};
ghost use Rattle.rv_job.specs.ReadParts.{halves_in, parts_in};

// The line between two parts, without and with a carriage return.
const SEPARATOR: &[u8] = b"%%";

const SEPARATOR_RETURNED: &[u8] = b"%%\r";

/// What stands before a separator, and after it.
#[derive(Clone, Copy)]
pub(crate) struct Halves<'a> {
    pub(crate) before: &'a [u8],
    pub(crate) after: &'a [u8],
}

/// The parts of a job's text. One that is missing is empty.
#[derive(Clone, Copy)]
pub struct Parts<'a> {
    pub description: &'a [u8],
    pub arrivals: &'a [u8],
    pub assembly: &'a [u8],
}

// How many bytes stand before the first line feed.
fn count_before_line_feed(text: &[u8]) -> usize
    ensures count { result ≡ position_or_len is_line_feed text.now }
    ensures in_range { result ≤ length text.now }
{
    for (count, byte) in text.iter().enumerate() {
        if *byte == b'\n' {
            return count;
        }
    }
    text.len()
}

/// Whether a line stands between two parts.
pub(crate) fn is_separator(line: &[u8]) -> bool
    ensures { result ≡ is_separator line.now }
{
    line == SEPARATOR || line == SEPARATOR_RETURNED
}

/// A line without the carriage return that may end it.
#[tactic(auto, unfolding(crate::specs::Parts::without_return))]
pub fn without_return(line: &[u8]) -> &[u8]
    ensures { result.now ≡ without_return line.entry.now }
{
    match line.strip_suffix(b"\r".as_slice()) {
        Some(front) => front,
        None => line,
    }
}

/// A text without the byte order mark that may stand before it.
#[tactic(auto, unfolding(crate::specs::Parts::without_mark))]
pub fn without_mark(text: &[u8]) -> &[u8]
    ensures { result.now ≡ without_mark text.entry.now }
{
    match text.strip_prefix(b"\xef\xbb\xbf".as_slice()) {
        Some(rest) => rest,
        None => text,
    }
}

// What stands after the first line of a text, where that line is a separator.
#[tactic(auto, unfolding(crate::specs::Parts::after_separator))]
fn after_separator(text: &[u8]) -> Option<&[u8]>
    ensures { option_copied result ≡ after_separator text.entry.now }
{
    let count = count_before_line_feed(text);
    let (line, rest) = text.split_at(count);
    if !is_separator(line) {
        return None;
    }
    match rest.split_first() {
        Some((_, after)) => Some(after),
        None => Some(rest),
    }
}

// The halves of a text at the first separator after one of its line feeds.
#[tactic(auto, unfolding(crate::specs::Parts::later_halves))]
fn later_halves(text: &[u8]) -> Option<Halves<'_>>
    ensures { option_map halves_in result ≡ later_halves text.entry.now }
{
    for place in 0..text.len() {
        if text[place] == b'\n' {
            let (before, later) = text.split_at(place + 1);
            if let Some(after) = after_separator(later) {
                return Some(Halves { before, after });
            }
        }
    }
    None
}

// The halves of a text at its first separator.
#[tactic(auto, unfolding(crate::specs::Parts::halves_of))]
pub(crate) fn cut_at_separator(text: &[u8]) -> Option<Halves<'_>>
    ensures { option_map halves_in result ≡ halves_of text.entry.now }
{
    match after_separator(text) {
        Some(after) => Some(Halves { before: b"", after }),
        None => later_halves(text),
    }
}

/// The parts of a job's text: what stands before, between and after its first two lines `%%`. With
/// one such line there are no arrivals, and with none there is assembly alone.
#[tactic(auto, unfolding(crate::specs::Parts::parts_of))]
pub fn cut_into_parts(text: &[u8]) -> Parts<'_>
    ensures { parts_in result ≡ parts_of text.entry.now }
{
    let Some(first) = cut_at_separator(text) else {
        return Parts {
            description: b"",
            arrivals: b"",
            assembly: text,
        };
    };
    match cut_at_separator(first.after) {
        Some(second) => Parts {
            description: first.before,
            arrivals: second.before,
            assembly: second.after,
        },
        None => Parts {
            description: first.before,
            arrivals: b"",
            assembly: first.after,
        },
    }
}
