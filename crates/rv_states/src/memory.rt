ghost use Rattle.std.specs.Prelude.{◌≡◌};
ghost use Rattle.rv_hardware.specs.Seen.{layout_of, seen};
ghost use Rattle.rv_states.specs.Memory.{memory_line, memory_lines, word_seen};
ghost use Rattle.rv_text.specs.Said.{Says};

use crate::place::word_address;
use crate::word::write_word;
use rv_text::Sink;
use rv_watch::ShownHardware;
use std::io::Write;

// The word that programs see at an address, or `None` outside RAM.
#[tactic(auto, unfolding(crate::specs::Memory::word_seen))]
fn word_at(hardware: &ShownHardware<'_>, address: u32) -> Option<u32>
    ensures { result ≡ word_seen (layout_of hardware.now.values) (seen hardware.now).ram address }
{
    let bytes = [
        hardware.byte(address)?,
        hardware.byte(address.wrapping_add(1))?,
        hardware.byte(address.wrapping_add(2))?,
        hardware.byte(address.wrapping_add(3))?,
    ];
    Some(u32::from_le_bytes(bytes))
}

// Writes the line of the word that programs see at an address; nothing where it is 0 and not stale, or outside RAM.
fn write_memory_line<W: Write>(out: &mut Sink<'_, W>, hardware: &ShownHardware<'_>, address: u32)
    ensures { Says W.contents out.old out.new (memory_line hardware.now address) }
{
    let stale = hardware.is_stale(address);
    match word_at(hardware, address) {
        Some(word) if word != 0 || stale => write_word(out, address, word, stale),
        _ => {}
    }
}

/// Writes a line for each word of RAM, as programs see it, that is not 0 or was stored to since the last FENCE.I.
pub fn write_memory<W: Write>(out: &mut Sink<'_, W>, hardware: &ShownHardware<'_>)
    ensures { Says W.contents out.old out.new (memory_lines hardware.now hardware.now.values) }
{
    let values = hardware.values();
    for number in 0..values.ram_size / 4 {
        write_memory_line(out, hardware, word_address(values.ram_base, number));
    }
}
