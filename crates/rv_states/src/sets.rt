ghost use Rattle.rv_states.specs.Sets.{set_line, set_lines};
ghost use Rattle.rv_text.specs.Said.{Says};

use crate::set::write_set;
use rv_text::Sink;
use rv_watch::ShownHardware;
use std::io::Write;

// Writes the line of a set of the cache by its number; nothing where it holds no line.
fn write_set_line<W: Write>(out: &mut Sink<'_, W>, hardware: &ShownHardware<'_>, set: usize)
    ensures { Says W.contents out.old out.new (set_line hardware.now set) }
{
    let lines = hardware.cache().lines(set);
    if !lines.is_empty() {
        write_set(out, set, lines)
    }
}

/// Writes a line for each set of the cache that holds a line: its number, and the lines, most recently used first.
pub fn write_sets<W: Write>(out: &mut Sink<'_, W>, hardware: &ShownHardware<'_>)
    ensures { Says W.contents out.old out.new (set_lines hardware.now hardware.now.values.cache.sets) }
{
    for set in 0..hardware.values().cache.sets {
        write_set_line(out, hardware, set as usize);
    }
}
