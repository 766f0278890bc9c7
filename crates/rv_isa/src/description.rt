ghost use Rattle.std.specs.Prelude.{◌≡◌, ◌+◌, ◌*◌, ◌↔◌, ◌<◌, ◌≤◌, IsSome, IsTrue, IfSome};
ghost use Rattle.std.specs.List.{list_all};
ghost use Rattle.rv_isa.specs.Description.{IsLegal, IsLegalCache, gap_bound_of, greatest_access, greatest_latency};
ghost use Rattle.rv_isa.specs.Key.{ObeysEachKey, obeys};

use crate::keys::{Key, all_keys};
use crate::values::{CacheValues, Values};
use std::marker::Model;

/// A machine description whose values all are in their ranges.
#[derive(Clone, Copy)]
pub struct Description {
    legal: Values,
}

impl Model for Description {
    ghost use Rattle.rv_isa.specs.declared.values.Values.{Values as ValuesRecord};
    ghost use Rattle.rv_isa.specs.Description.{IsLegal};

    ghost Value = { ValuesRecord };

    ghost view = { λ d. d.legal };

    ghost invariant = { λ d. IsLegal d.legal };

    ghost inverse = { λ v. record { legal = v } };
}

impl Description {
    /// The description with these values, or `None` where one is out of its range.
    pub fn new(values: Values) -> Option<Self>
        ensures legal { IsSome result ↔ IsLegal values }
        ensures keys { IsSome result ↔ ObeysEachKey values }
        ensures description { IfSome result (λ d. d ≡ values) }
    {
        if is_legal(&values) {
            Some(Description { legal: values })
        } else {
            None
        }
    }

    /// The values, all in their ranges.
    pub fn values(&self) -> Values
        ensures values { result ≡ self.now }
        ensures legal { IsLegal result }
    {
        self.legal
    }

    /// The most consecutive cycles of a run that can pass without a step, with slack.
    pub fn gap_bound(&self) -> u64
        ensures { result ≡ gap_bound_of self.now }
    {
        let values = &self.legal;
        16 + drain_cost(values)
            + 4 * u64::from(longest_latency(values))
            + write_back_cost(&values.cache)
    }
}

// What the accesses before a drain and those of a full store queue cost at most.
fn drain_cost(values: &Values) -> u64
    requires legal { IsLegal values.now }
    ensures cost { result ≡ (values.now.store_queue + 8) * greatest_access values.now.cache }
    ensures bounded { result ≤ 72 * 2016 }
{
    let cache = &values.cache;
    u64::from(values.store_queue + 8) * u64::from(cache.hit + cache.miss + cache.write_back)
}

// What it costs at most to write each line of the cache back twice.
fn write_back_cost(cache: &CacheValues) -> u64
    requires legal { IsLegalCache cache.now }
    ensures cost { result ≡ 2 * cache.now.sets * cache.now.ways * cache.now.write_back }
    ensures bounded { result ≤ 2 * 4096 * 1000 }
{
    u64::from(2 * cache.sets * cache.ways) * u64::from(cache.write_back)
}

fn longest_latency(values: &Values) -> u32
    ensures { result ≡ greatest_latency values.now }
{
    let kinds = values.kinds;
    let registers = kinds.alu.latency.max(kinds.mul.latency);
    let others = kinds.div.latency.max(kinds.mem.latency);
    values.forward.max(registers.max(others))
}

// Whether the value at a key is one that the key takes.
fn obeys(values: &Values, key: Key) -> bool
    ensures { result ≡ obeys values.now key }
{
    match key {
        Key::Number(key) => key.bounds().takes(values.ram_size, values.number(key)),
        _ => true,
    }
}

fn obeys_each(values: &Values, keys: &[Key]) -> bool
    ensures { result ≡ list_all (obeys values.now) keys.now }
{
    keys.iter().all(|key| obeys(values, *key))
}

fn is_legal(values: &Values) -> bool
    ensures legal { IsTrue result ↔ IsLegal values.now }
    ensures keys { IsTrue result ↔ ObeysEachKey values.now }
{
    obeys_each(values, all_keys())
}
