ghost use Rattle.std.specs.Prelude.{◌≡◌, ◌+◌, ◌%◌, ◌≤◌, ◌++◌, length, IfSome};

use crate::checks::{check_equal, check_equal_at};
use crate::halves::Halves;
use rv_cache::Cache;
use rv_isa::{Description, Values};
use rv_memory::{Backing, Ram};
use std::alloc::Global;
use std::process::Abort;

// Three lines of four bytes.
const A: u32 = 0x8000_0000;

const B: u32 = 0x8000_0004;

const C: u32 = 0x8000_0008;

// One set of lines of four bytes, with the standard costs.
fn one_set(ways: u32) -> Option<Description>
    ensures { IfSome result (λ description. description.cache.line ≡ 4) }
{
    let mut values = Values::standard();
    values.cache.sets = 1;
    values.cache.ways = ways;
    values.cache.line = 4;
    Description::new(values)
}

// Reads a word of a cache over 4096 bytes.
fn read_word<M: Backing>(cache: &mut Cache<M>, address: u32) -> ([u8; 4], u32)
    requires base { cache.old.base ≡ A }
    requires size { length cache.old.bytes ≡ 4096 }
    requires aligned { address % 4 ≡ 0 }
    requires inside { A ≤ address × address + 4 ≤ A + 4096 }
    ensures base { cache.new.base ≡ A }
    ensures size { length cache.new.bytes ≡ 4096 }
{
    cache.read(address, 4)
}

// Writes a word of a cache over 4096 bytes.
fn write_word<M: Backing>(cache: &mut Cache<M>, address: u32, word: [u8; 4]) -> u32
    requires base { cache.old.base ≡ A }
    requires size { length cache.old.bytes ≡ 4096 }
    requires aligned { address % 4 ≡ 0 }
    requires inside { A ≤ address × address + 4 ≤ A + 4096 }
    ensures base { cache.new.base ≡ A }
    ensures size { length cache.new.bytes ≡ 4096 }
{
    cache.write(address, &word)
}

// The first eight bytes of the backing.
fn first_bytes<M: Backing>(cache: &Cache<M>) -> [u8; 8]
    requires { length cache.now.bytes ≡ 4096 }
{
    let mut bytes = [0; 8];
    cache.backing().read_block(0, &mut bytes);
    bytes
}

fn small_cache<M: Backing>(rt: &impl Abort, alloc: Global, backing: M, ways: u32) -> Cache<M>
    requires { length (M.bytes backing) ≡ 4096 }
    ensures base { result.base ≡ A }
    ensures size { length result.bytes ≡ 4096 }
{
    let description = one_set(ways).expect(rt, "legal");
    Cache::new(alloc, backing, A, &description).expect(rt, "a cache")
}

// Checks a cache of one way over 4096 bytes, which are zeros.
fn check_one_way<M: Backing>(rt: &impl Abort, cache: &mut Cache<M>)
    requires base { cache.old.base ≡ A }
    requires size { length cache.old.bytes ≡ 4096 }
{
    check_equal(rt, read_word(cache, A), ([0, 0, 0, 0], 11));
    check_equal(rt, read_word(cache, A).1, 1);
    check_equal(rt, write_word(cache, A, [1, 2, 3, 4]), 1);
    check_equal(rt, cache.peek(A + 2), 3);
    check_equal(rt, read_word(cache, B).1, 21);
    check_equal(rt, first_bytes(cache), [1, 2, 3, 4, 0, 0, 0, 0]);
    check_equal(rt, read_word(cache, A), ([1, 2, 3, 4], 11));
    check_equal(rt, cache.write_back_all(), 0);
}

// Checks a cache of two ways over 4096 bytes, which are zeros.
fn check_two_ways<M: Backing>(rt: &impl Abort, cache: &mut Cache<M>)
    requires base { cache.old.base ≡ A }
    requires size { length cache.old.bytes ≡ 4096 }
{
    check_equal(rt, read_word(cache, A).1, 11);
    check_equal(rt, read_word(cache, B).1, 11);
    check_equal(rt, read_word(cache, A).1, 1);
    check_equal(rt, read_word(cache, C).1, 11);
    check_equal(rt, read_word(cache, A).1, 1);
    check_equal(rt, read_word(cache, B).1, 11);
    check_equal(rt, write_word(cache, A, [5, 6, 7, 8]), 1);
    check_equal(rt, cache.write_back_all(), 1);
    check_equal(rt, first_bytes(cache), [5, 6, 7, 8, 0, 0, 0, 0]);
}

fn small_ram(rt: &impl Abort, alloc: Global) -> Ram
    ensures { length result.bytes ≡ 4096 }
{
    Ram::new(alloc, A, 4096, 0).expect(rt, "RAM")
}

fn small_halves(rt: &impl Abort, alloc: Global) -> Halves
    ensures { length (result.low.items ++ result.high.items) ≡ 4096 }
{
    Halves::new(alloc, 2).expect(rt, "halves")
}

#[test]
fn one_way_costs_over_ram(rt: HostRuntime) {
    let ram = small_ram(&rt, rt.alloc());
    check_one_way(&rt, &mut small_cache(&rt, rt.alloc(), ram, 1));
}

#[test]
fn two_ways_replace_the_least_recent_over_ram(rt: HostRuntime) {
    let ram = small_ram(&rt, rt.alloc());
    check_two_ways(&rt, &mut small_cache(&rt, rt.alloc(), ram, 2));
}

#[test]
fn one_way_costs_over_halves(rt: HostRuntime) {
    let halves = small_halves(&rt, rt.alloc());
    check_one_way(&rt, &mut small_cache(&rt, rt.alloc(), halves, 1));
}

#[test]
fn two_ways_replace_the_least_recent_over_halves(rt: HostRuntime) {
    let halves = small_halves(&rt, rt.alloc());
    check_two_ways(&rt, &mut small_cache(&rt, rt.alloc(), halves, 2));
}

#[test]
fn an_access_is_aligned_and_lies_in_the_cached_memory(rt: HostRuntime) {
    let alloc = rt.alloc();
    let cache = small_cache(&rt, alloc, small_ram(&rt, alloc), 1);
    let end = A + 4096;
    for (address, count) in [(A, 4), (A + 2, 2), (end - 1, 1), (end - 4, 4)] {
        check_equal_at(&rt, address, cache.can_access(address, count), true);
    }
    for (address, count) in [(A + 2, 4), (A + 1, 2), (A - 4, 4), (end, 1), (A, 3)] {
        check_equal_at(&rt, address, cache.can_access(address, count), false);
    }
}

// Checks that a store brings its line in, and that a later one makes it the latest: the line that is dropped then is clean.
fn check_stores<M: Backing>(rt: &impl Abort, cache: &mut Cache<M>)
    requires base { cache.old.base ≡ A }
    requires size { length cache.old.bytes ≡ 4096 }
{
    check_equal(rt, write_word(cache, A, [1, 2, 3, 4]), 11);
    check_equal(rt, read_word(cache, B).1, 11);
    check_equal(rt, write_word(cache, A, [5, 6, 7, 8]), 1);
    check_equal(rt, read_word(cache, C).1, 11);
    check_equal(rt, read_word(cache, A), ([5, 6, 7, 8], 1));
}

#[test]
fn a_store_makes_its_line_the_latest(rt: HostRuntime) {
    let ram = small_ram(&rt, rt.alloc());
    check_stores(&rt, &mut small_cache(&rt, rt.alloc(), ram, 2));
}
