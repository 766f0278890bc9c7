ghost use Rattle.std.specs.Prelude.{◌≡◌, ◌-◌, ◌≤◌, nat_eq, [], length, map, take, slice_get};
ghost use Rattle.rv_cache.specs.Line.{cleaned, dirty_count, is_dirty, is_held};
ghost use Rattle.rv_cache.specs.Replacement.{accessed, victim};
ghost use Rattle.rv_cache.specs.WriteBack.{AreInside, lines_written};

use crate::CacheLine;
use crate::write_back::write_back_lines;
use arrayvec::ArrayVec;
use rv_memory::Backing;
use std::marker::Model;

/// What an access found in its set.
#[derive(Clone, Copy)]
pub struct Access {
    pub is_hit: bool,
    /// The line that the set dropped to make room.
    pub victim: Option<CacheLine>,
}

/// The lines of a set, most recently used first.
#[derive(Drop)]
pub struct Set {
    lines: ArrayVec<CacheLine, 16>,
}

impl Model for Set {
    ghost use Rattle.std.specs.Prelude.{List, length, ◌≤◌};
    ghost use Rattle.rv_cache.specs.declared.line.CacheLine.{CacheLine};

    ghost Value = { List CacheLine };

    ghost view = { λ s. s.lines.items };

    ghost invariant = { λ s. length s.lines.items ≤ 16 };
}

impl Set {
    /// A set that holds no line.
    pub fn new() -> Set
        ensures { result ≡ [] }
    {
        Set {
            lines: ArrayVec::new(),
        }
    }

    /// The lines, most recently used first.
    pub fn lines(&self) -> &[CacheLine]
        ensures { result.now ≡ self.now }
    {
        self.lines.as_slice()
    }

    /// Uses a line of a set that holds at most `ways`.
    pub fn access(&mut self, ways: usize, number: u32, writes: bool) -> Access
        requires ways { 1 ≤ ways × ways ≤ 16 }
        requires room { length self.old ≤ ways }
        ensures lines { self.new ≡ accessed ways number writes self.old }
        ensures hit { result.is_hit ≡ is_held number self.old }
        ensures victim { result.victim ≡ victim ways number self.old }
    {
        let is_hit = is_held(self.lines.as_slice(), number);
        let was_dirty = is_dirty(self.lines.as_slice(), number);
        let dirty = writes || was_dirty;
        self.lines.retain(|line| line.number != number);
        let victim = take_last_if_full(&mut self.lines, ways);
        self.lines.insert(0, CacheLine { number, dirty });
        Access { is_hit, victim }
    }

    /// Writes the dirty lines to the backing and answers their number; all are clean then.
    pub fn write_back<M: Backing>(
        &mut self,
        backing: &mut M,
        bytes: &[u8],
        base: u32,
        line_bytes: u32,
    ) -> u32
        requires inside { AreInside base line_bytes (length bytes.now) self.old }
        requires size { length (M.bytes backing.old) ≡ length bytes.now }
        ensures written { M.bytes backing.new ≡ lines_written base line_bytes bytes.now self.old (M.bytes backing.old) }
        ensures size { length (M.bytes backing.new) ≡ length bytes.now }
        ensures kept { M.keeps backing.old backing.new }
        ensures cleaned { self.new ≡ map cleaned self.old }
        ensures count { result ≡ dirty_count self.old }
        ensures bound { result ≤ 16 }
    {
        write_back_lines(backing, bytes, base, line_bytes, self.lines.as_mut_slice())
    }
}

// Whether a line is among these.
fn is_held(lines: &[CacheLine], number: u32) -> bool
    ensures { result ≡ is_held number lines.now }
{
    lines.iter().any(|line| line.number == number)
}

// Whether a line is among these, and dirty.
fn is_dirty(lines: &[CacheLine], number: u32) -> bool
    ensures { result ≡ is_dirty number lines.now }
{
    lines.iter().any(|line| line.number == number && line.dirty)
}

// Makes room for a line where there are as many as there may be.
fn take_last_if_full(lines: &mut ArrayVec<CacheLine, 16>, ways: usize) -> Option<CacheLine>
    requires ways { 1 ≤ ways }
    requires room { length lines.old.items ≤ ways }
    ensures rest { lines.new.items ≡ take (ways - 1) lines.old.items }
    ensures last { result ≡ slice_get lines.old.items (ways - 1) }
{
    if lines.len() < ways {
        return None;
    }
    lines.pop()
}
