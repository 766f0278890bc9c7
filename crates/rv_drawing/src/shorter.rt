ghost use Rattle.std.specs.Prelude.{◌≡◌, ◌+◌, ◌≤◌, ◌++◌, codes, length};
ghost use Rattle.std.specs.List.{position};
ghost use Rattle.rv_drawing.specs.Shorter.{ends_name, is_between, label_left, label_length, shortened, with_label_cut};

use arrayvec::ArrayVec;
use rv_text::front;

fn is_between(byte: u8, first: u8, last: u8) -> bool
    ensures { result ≡ is_between byte first last }
{
    first <= byte && byte <= last
}

// Whether a byte is none of a name.
fn ends_name(byte: u8) -> bool
    ensures { result ≡ ends_name byte }
{
    !(is_between(byte, b'0', b'9')
        || is_between(byte, b'A', b'Z')
        || is_between(byte, b'a', b'z')
        || byte == b'_'
        || byte == b'.'
        || byte == b'$')
}

fn name_end(text: &[u8]) -> Option<usize>
    ensures { result ≡ position ends_name text.now }
{
    text.iter().position(|byte| ends_name(*byte))
}

// How long the label is that a text begins with.
fn label_length(text: &[u8]) -> usize
    ensures length { result ≡ label_length text.now }
    ensures within { result ≤ length text.now }
{
    match name_end(text) {
        Some(end) if end < text.len() && text[end] == b':' => end,
        _ => 0,
    }
}

// How much is left of a label in a text of so many bytes.
fn label_left(label: usize, size: usize) -> usize
    ensures left { result ≡ label_left label size }
    ensures few { result ≤ 30 }
{
    30_usize.saturating_sub(size.saturating_sub(label)).max(4)
}

fn fill(room: &mut ArrayVec<u8, 32>, label: &[u8], rest: &[u8])
    requires { length label.now + length rest.now ≤ 30 }
    ensures { room.new.items ≡ label.now ++ (codes ".." ++ rest.now) }
{
    room.clear();
    room.try_extend_from_slice(label).unwrap();
    room.try_extend_from_slice(b"..").unwrap();
    room.try_extend_from_slice(rest).unwrap();
}

#[tactic(auto, unfolding(crate::specs::Shorter::with_label_cut))]
fn with_label_cut<'a>(room: &'a mut ArrayVec<u8, 32>, text: &[u8], label: usize) -> &'a [u8]
    requires { label ≤ length text.now }
    ensures { result.now ≡ with_label_cut label text.now }
{
    let left = label_left(label, text.len());
    let (_, rest) = text.split_at(label);
    fill(room, front(text, left), front(rest, 30 - left));
    room.as_slice()
}

/// At most 32 bytes of a statement. Where a label would hide what stands after it, the label is cut.
#[tactic(auto, unfolding(crate::specs::Shorter::shortened))]
pub(crate) fn shortened<'a>(room: &'a mut ArrayVec<u8, 32>, text: &'a [u8]) -> &'a [u8]
    ensures { result.now ≡ shortened text.now }
{
    let label = label_length(text);
    if text.len() <= 32 || label <= 6 {
        front(text, 32)
    } else {
        with_label_cut(room, text, label)
    }
}
