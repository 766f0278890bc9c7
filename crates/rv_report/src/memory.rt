ghost use Rattle.std.specs.Prelude.{◌≡◌};
ghost use Rattle.rv_hardware.specs.Seen.{layout_of, seen};
ghost use Rattle.rv_report.specs.Memory.{memory_line, memory_text, word_of, word_seen, seen_memory_lines};
ghost use Rattle.rv_text.specs.Said.{Says};

use rv_text::{Sink, hexadecimal};
use rv_watch::ShownHardware;
use std::io::Write;

/// The text of a word of memory, or of `None` outside RAM.
#[tactic(auto, unfolding(crate::specs::Memory::memory_text))]
pub(crate) fn memory_text(word: Option<u32>) -> [u8; 8]
    ensures { result ≡ memory_text word }
{
    match word {
        Some(word) => hexadecimal(word),
        None => *b"--------",
    }
}

/// Writes the line of a word of memory, or of `None` outside RAM.
#[tactic(auto, unfolding(crate::specs::Memory::memory_line, rv_text::specs::Line::line_of))]
pub(crate) fn write_word<W: Write>(out: &mut Sink<'_, W>, address: u32, word: Option<u32>)
    ensures { Says W.contents out.old out.new (memory_line address word) }
{
    let place = hexadecimal(address);
    let text = memory_text(word);
    out.put_all(&[b"m ", place.as_slice(), b" ", text.as_slice(), b"\n"]);
}

/// The word of four bytes, the lowest first, if there is each of them.
pub(crate) fn word_of(
    first: Option<u8>,
    second: Option<u8>,
    third: Option<u8>,
    fourth: Option<u8>,
) -> Option<u32>
    ensures { result ≡ word_of first second third fourth }
{
    match (first, second, third, fourth) {
        (Some(first), Some(second), Some(third), Some(fourth)) => {
            Some(u32::from_le_bytes([first, second, third, fourth]))
        }
        _ => None,
    }
}

/// The word of memory that programs see at an address, or `None` outside RAM.
#[tactic(auto, unfolding(crate::specs::Memory::word_seen))]
pub(crate) fn word_at(hardware: &ShownHardware<'_>, address: u32) -> Option<u32>
    ensures { result ≡ word_seen (layout_of hardware.now.values) (seen hardware.now).ram address }
{
    word_of(
        hardware.byte(address),
        hardware.byte(address.wrapping_add(1)),
        hardware.byte(address.wrapping_add(2)),
        hardware.byte(address.wrapping_add(3)),
    )
}

/// Writes so many words of the core's memory from an address on.
pub(crate) fn write_memory<W: Write>(
    out: &mut Sink<'_, W>,
    hardware: &ShownHardware<'_>,
    address: u32,
    words: u32,
)
    ensures { Says W.contents out.old out.new
        (seen_memory_lines (layout_of hardware.now.values) (seen hardware.now).ram address words) }
{
    for number in 0..words {
        let place = address.wrapping_add(number.wrapping_mul(4));
        write_word(out, place, word_at(hardware, place));
    }
}
