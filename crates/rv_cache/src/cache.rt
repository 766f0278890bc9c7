ghost use Rattle.std.specs.Prelude.{◌≡◌, ◌+◌, ◌-◌, ◌%◌, ◌^◌, ◌≤◌, ◌++◌, ◌↔◌, IsTrue, true, false};
ghost use Rattle.std.specs.Prelude.{[], get_or, length, map, replicate, slice_index, IfOk};
ghost use Rattle.rv_isa.specs.Description.{IsLegalCost, IsRamBase};
ghost use Rattle.rv_memory.specs.Bytes.{overwritten};
ghost use Rattle.rv_cache.specs.Line.{cleaned, dirty_total};
ghost use Rattle.rv_cache.specs.Cache.{IsAccess, IsAligned, IsCached, IsInMemory, IsUpdated};
ghost use Rattle.rv_cache.specs.Cache.{IsUpdatedElsewhere, access_cost, accessed_sets, cost_of_access};
ghost use Rattle.rv_cache.specs.Cache.{memory_after, memory_written_back, seen, seen_after};

use crate::CacheLine;
use crate::set::{Access, Set};
use crate::write_back::{write_back_sets, write_back_victim};
use rv_isa::{CacheValues, Description};
use rv_memory::Backing;
use std::alloc::{AllocError, Global};
use std::marker::Model;

/// A write-back, write-allocate cache over a backing. The bytes that a program sees lie in one
/// array at their places, so that a line that is held needs no buffer of its own; the backing has
/// the same bytes but for dirty lines.
#[derive(Drop)]
pub struct Cache<M: Backing> {
    base: u32,
    values: CacheValues,
    bytes: Vec<u8>,
    sets: Vec<Set>,
    backing: M,
}

impl<M: Backing> Model for Cache<M> {
    ghost use Rattle.rv_cache.specs.Cache.{Contents};
    ghost use Rattle.rv_cache.specs.Consistent.{IsConsistent};

    ghost Value = { Contents M };

    ghost view = { λ c. record {
      base = c.base;
      values = c.values;
      bytes = c.bytes.items;
      sets = c.sets.items;
      backing = c.backing;
    } };

    ghost invariant = { λ c. IsConsistent c.base c.values c.bytes.items c.sets.items (M.bytes c.backing) };
}

impl<M: Backing> Cache<M> {
    /// A cache that holds no line, over the memory from address `base` on.
    pub fn new(
        alloc: Global,
        backing: M,
        base: u32,
        description: &Description,
    ) -> Result<Cache<M>, AllocError>
        requires base { IsRamBase base }
        requires lines { length (M.bytes backing) % description.now.cache.line ≡ 0 }
        requires reach { base + length (M.bytes backing) ≤ 2 ^ 32 }
        ensures { IfOk result (λ cache. cache
            ≡ record {
              base = base;
              values = description.now.cache;
              bytes = M.bytes backing;
              sets = replicate description.now.cache.sets [];
              backing = backing;
            }) }
    {
        let values = description.values().cache;
        let mut bytes = vec![in alloc; 0; backing.size()]?;
        backing.read_block(0, &mut bytes);
        let sets = empty_sets(alloc, values.sets as usize)?;
        Ok(Cache {
            base,
            values,
            bytes,
            sets,
            backing,
        })
    }

    /// Reads 1, 2 or 4 bytes at a multiple of their number, and answers them, with zeros after
    /// them, and what the access costs in cycles.
    pub fn read(&mut self, address: u32, count: usize) -> ([u8; 4], u32)
        requires access { IsAccess self.old address count }
        ensures bytes { result.0 ≡ seen self.old address count ++ replicate (4 - count) 0 }
        ensures cost { result.1 ≡ access_cost self.old address }
        ensures accessed { self.new ≡ record self.old {
          sets = accessed_sets self.old address false;
          backing = self.new.backing;
        } }
        ensures evicted { M.bytes self.new.backing ≡ memory_after self.old address (M.bytes self.old.backing) }
        ensures updated { IsUpdated self.new.bytes (M.bytes self.old.backing) (M.bytes self.new.backing) }
        ensures kept { M.keeps self.old.backing self.new.backing }
    {
        let cost = self.access(address, false);
        let offset = (address - self.base) as usize;
        let mut bytes = [0; 4];
        bytes[..count].copy_from_slice(&self.bytes[offset..offset + count]);
        (bytes, cost)
    }

    /// Writes 1, 2 or 4 bytes at a multiple of their number, and answers what the access costs in
    /// cycles.
    pub fn write(&mut self, address: u32, bytes: &[u8]) -> u32
        requires access { IsAccess self.old address (length bytes.now) }
        ensures cost { result ≡ access_cost self.old address }
        ensures accessed { self.new ≡ record self.old {
          bytes = seen_after self.old address bytes.now;
          sets = accessed_sets self.old address true;
          backing = self.new.backing;
        } }
        ensures evicted { M.bytes self.new.backing ≡ memory_after self.old address (M.bytes self.old.backing) }
        ensures updated { IsUpdated self.new.bytes (M.bytes self.old.backing) (M.bytes self.new.backing) }
        ensures size { length self.new.bytes ≡ length self.old.bytes }
        ensures kept { M.keeps self.old.backing self.new.backing }
    {
        let cost = self.access(address, true);
        let offset = (address - self.base) as usize;
        overwrite(&mut self.bytes, offset, bytes);
        cost
    }

    // Brings the line of an address to the front of its set, and answers what that costs.
    fn access(&mut self, address: u32, writes: bool) -> u32
        requires cached { IsCached self.old address }
        ensures cost { result ≡ access_cost self.old address }
        ensures accessed { self.new ≡ record self.old {
          sets = accessed_sets self.old address writes;
          backing = self.new.backing;
        } }
        ensures evicted { M.bytes self.new.backing ≡ memory_after self.old address (M.bytes self.old.backing) }
        ensures elsewhere { IsUpdatedElsewhere self.old address (M.bytes self.old.backing) (M.bytes self.new.backing) }
        ensures kept { M.keeps self.old.backing self.new.backing }
    {
        let number = address / self.values.line;
        let place = (number % self.values.sets) as usize;
        let access = self.sets[place].access(self.values.ways as usize, number, writes);
        write_back_victim(
            &mut self.backing,
            &self.bytes,
            self.base,
            self.values.line,
            access.victim,
        );
        cost_of(&self.values, access)
    }

    /// Writes all dirty lines to the backing, and answers their number. They stay, clean.
    pub fn write_back_all(&mut self) -> u32
        ensures count { result ≡ dirty_total self.old.sets }
        ensures cleaned { self.new ≡ record self.old {
          sets = map (map cleaned) self.old.sets;
          backing = self.new.backing;
        } }
        ensures by_lines { M.bytes self.new.backing ≡ memory_written_back self.old (M.bytes self.old.backing) }
        ensures written { M.bytes self.new.backing ≡ self.old.bytes }
        ensures kept { M.keeps self.old.backing self.new.backing }
    {
        write_back_sets(
            &mut self.backing,
            &self.bytes,
            self.base,
            self.values.line,
            &mut self.sets,
        )
    }

    /// Whether 1, 2 or 4 bytes from an address on, a multiple of their number, lie in the cached memory: what `read` and
    /// `write` ask for.
    pub fn can_access(&self, address: u32, count: usize) -> bool
        ensures { IsTrue result ↔ IsAccess self.now address count }
    {
        is_aligned(address, count) && self.is_inside(address, count)
    }

    // Whether so many bytes from an address on lie in the cached memory.
    fn is_inside(&self, address: u32, count: usize) -> bool
        ensures { IsTrue result ↔ IsInMemory self.now address count }
    {
        let size = self.bytes.len();
        self.base <= address && count <= size && (address - self.base) as usize <= size - count
    }

    /// Whether an address lies in the cached memory: what `peek` asks for.
    pub fn is_cached(&self, address: u32) -> bool
        ensures { IsTrue result ↔ IsCached self.now address }
    {
        self.base <= address && ((address - self.base) as usize) < self.bytes.len()
    }

    /// The byte at an address as a program sees it; no access.
    pub fn peek(&self, address: u32) -> u8
        requires { IsCached self.now address }
        ensures { result ≡ slice_index self.now.bytes (address - self.now.base) }
    {
        self.bytes[(address - self.base) as usize]
    }

    /// The lines of a set by its number, most recently used first; none where there is no such set.
    pub fn lines(&self, set: usize) -> &[CacheLine]
        ensures { result.now ≡ get_or self.now.sets set [] }
    {
        match self.sets.get(set) {
            Some(set) => set.lines(),
            None => &[],
        }
    }

    /// The backing, which lacks what dirty lines hold.
    pub fn backing(&self) -> &M
        ensures lent { result.now ≡ self.now.backing }
        ensures size { length (M.bytes result.now) ≡ length self.now.bytes }
    {
        &self.backing
    }
}

// Writes a part over the bytes from an offset on.
fn overwrite(bytes: &mut [u8], offset: usize, part: &[u8])
    requires { offset + length part.now ≤ length bytes.old }
    ensures { bytes.new ≡ overwritten bytes.old offset part.now }
{
    bytes[offset..offset + part.len()].copy_from_slice(part);
}

// Whether bytes are 1, 2 or 4, and an address is a multiple of their number.
fn is_aligned(address: u32, count: usize) -> bool
    ensures { IsTrue result ↔ IsAligned address count }
{
    match count {
        1 => true,
        2 => address % 2 == 0,
        4 => address % 4 == 0,
        _ => false,
    }
}

// Sets that hold no line.
fn empty_sets(alloc: Global, count: usize) -> Result<Vec<Set>, AllocError>
    ensures { IfOk result (λ sets. sets.items ≡ replicate count []) }
{
    let mut sets = Vec::with_capacity(alloc, count)?;
    for _ in 0..count {
        sets.push(Set::new())?;
    }
    Ok(sets)
}

// What an access costs, by what it found.
fn cost_of(values: &CacheValues, access: Access) -> u32
    requires { IsLegalCost values.now }
    ensures { result ≡ cost_of_access values.now access.is_hit access.victim }
{
    if access.is_hit {
        return values.hit;
    }
    let miss = values.hit + values.miss;
    match access.victim {
        Some(line) if line.dirty => miss + values.write_back,
        _ => miss,
    }
}
