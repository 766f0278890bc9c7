ghost use Rattle.std.specs.Prelude.{◌≡◌, ◌*◌, ◌≤◌, if◌then◌else◌, length, map, IfSome};
ghost use Rattle.rv_cache.specs.Line.{cleaned, dirty_count, dirty_total};
ghost use Rattle.rv_cache.specs.WriteBack.{IsInside, AreInside, Each, line_written};
ghost use Rattle.rv_cache.specs.WriteBack.{lines_written, sets_written, victim_written};

use crate::CacheLine;
use crate::set::Set;
use rv_memory::Backing;

/// Writes a line to the backing where it is dirty, and answers whether it was, as 1 or 0; the line
/// is clean then. The bytes are those of memory from address `base` on, as a program sees them.
pub fn write_back_line<M: Backing>(
    backing: &mut M,
    bytes: &[u8],
    base: u32,
    line_bytes: u32,
    line: &mut CacheLine,
) -> u32
    requires inside { IsInside base line_bytes (length bytes.now) line.old.number }
    requires size { length (M.bytes backing.old) ≡ length bytes.now }
    ensures written { M.bytes backing.new ≡ line_written base line_bytes bytes.now line.old (M.bytes backing.old) }
    ensures size { length (M.bytes backing.new) ≡ length bytes.now }
    ensures kept { M.keeps backing.old backing.new }
    ensures cleaned { line.new ≡ cleaned line.old }
    ensures count { result ≡ (if line.old.dirty then 1 else 0) }
{
    if !line.dirty {
        return 0;
    }
    let offset = line.number as usize * line_bytes as usize - base as usize;
    let end = offset + line_bytes as usize;
    backing.write_block(offset, &bytes[offset..end]);
    line.dirty = false;
    1
}

/// The same for each of these lines; answers how many were dirty.
pub fn write_back_lines<M: Backing>(
    backing: &mut M,
    bytes: &[u8],
    base: u32,
    line_bytes: u32,
    lines: &mut [CacheLine],
) -> u32
    requires inside { AreInside base line_bytes (length bytes.now) lines.old }
    requires size { length (M.bytes backing.old) ≡ length bytes.now }
    requires few { length lines.old ≤ 16 }
    ensures written { M.bytes backing.new ≡ lines_written base line_bytes bytes.now lines.old (M.bytes backing.old) }
    ensures size { length (M.bytes backing.new) ≡ length bytes.now }
    ensures kept { M.keeps backing.old backing.new }
    ensures cleaned { lines.new ≡ map cleaned lines.old }
    ensures count { result ≡ dirty_count lines.old }
    ensures bound { result ≤ length lines.old }
{
    let Some((line, others)) = lines.split_first_mut() else {
        return 0;
    };
    let own = write_back_line(backing, bytes, base, line_bytes, line);
    own + write_back_lines(backing, bytes, base, line_bytes, others)
}

/// The same for the lines of each of these sets.
pub fn write_back_sets<M: Backing>(
    backing: &mut M,
    bytes: &[u8],
    base: u32,
    line_bytes: u32,
    sets: &mut [Set],
) -> u32
    requires inside { Each (AreInside base line_bytes (length bytes.now)) sets.old }
    requires size { length (M.bytes backing.old) ≡ length bytes.now }
    requires few { length sets.old ≤ 256 }
    ensures written { M.bytes backing.new ≡ sets_written base line_bytes bytes.now sets.old (M.bytes backing.old) }
    ensures kept { M.keeps backing.old backing.new }
    ensures cleaned { sets.new ≡ map (map cleaned) sets.old }
    ensures count { result ≡ dirty_total sets.old }
    ensures bound { result ≤ 16 * length sets.old }
{
    let Some((set, others)) = sets.split_first_mut() else {
        return 0;
    };
    let own = set.write_back(backing, bytes, base, line_bytes);
    own + write_back_sets(backing, bytes, base, line_bytes, others)
}

/// The same for a line that a set dropped, if it did.
pub fn write_back_victim<M: Backing>(
    backing: &mut M,
    bytes: &[u8],
    base: u32,
    line_bytes: u32,
    victim: Option<CacheLine>,
)
    requires inside { IfSome victim (λ line. IsInside base line_bytes (length bytes.now) line.number) }
    requires size { length (M.bytes backing.old) ≡ length bytes.now }
    ensures written { M.bytes backing.new ≡ victim_written base line_bytes bytes.now victim (M.bytes backing.old) }
    ensures size { length (M.bytes backing.new) ≡ length bytes.now }
    ensures kept { M.keeps backing.old backing.new }
{
    if let Some(mut line) = victim {
        write_back_line(backing, bytes, base, line_bytes, &mut line);
    }
}
