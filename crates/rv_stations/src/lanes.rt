ghost use Rattle.std.specs.Prelude.{◌≡◌, ◌==◌, ◌+◌, ◌<◌, ◌≤◌, ◌%◌, ◌^◌, drop, get_or, length, map, slice_set, take};
ghost use Rattle.std.specs.Simd.Lanes.{zip2, mask_l};
ghost use Rattle.rv_stations.specs.Column.{in_eight, is_producer, woken_tag, woken_value};

use crate::marks::{marked, without};
use std::simd::prelude::*;

/// The tag of an operand that has its value: no instruction has this sequence number.
pub const NO_PRODUCER: u64 = u64::MAX;

/// Whether a tag is the sequence number of a producer.
pub fn is_producer(tag: u64) -> bool
    ensures { result ≡ is_producer tag }
{
    tag != NO_PRODUCER
}

/// Which of eight tags from a place on are like a sequence number in their lower halves, a bit each.
#[inline(always)]
pub fn like_from(start: usize, tags: &[u64], seq: u64) -> u64
    requires { start + 8 ≤ length tags.now }
    ensures { result ≡ mask_l (map (λ tag. tag % 2 ^ 32 == seq % 2 ^ 32) (take 8 (drop start tags.now))) }
{
    like_lanes(&tags[start..start + 8], seq)
}

/// Gives those of eight operands from a place on whose producer has a sequence number its value, and returns which
/// these are, a bit each. The tags that are like the number are marked.
#[inline(always)]
pub fn wake_from(
    start: usize,
    tags: &mut [u64],
    values: &mut [u64],
    like: u64,
    seq: u64,
    value: u64,
) -> u64
    requires within { start + 8 ≤ length tags.old }
    requires as_many { length values.old ≡ length tags.old }
    requires like { like ≡ mask_l (map (λ tag. tag % 2 ^ 32 == seq % 2 ^ 32) (take 8 (drop start tags.old))) }
    ensures woken { result ≡ mask_l (map (λ tag. tag == seq) (take 8 (drop start tags.old))) }
    ensures tags { tags.new ≡ in_eight start (map (woken_tag seq)) tags.old }
    ensures values { values.new ≡ in_eight start
        (zip2 (woken_value seq value) (take 8 (drop start tags.old))) values.old }
{
    wake_eight(
        &mut tags[start..start + 8],
        &mut values[start..start + 8],
        like,
        seq,
        value,
    )
}

// A lane of 32 bits costs half of one of 64. Where lanes are alike, `wake_one` compares the whole tags.
#[inline(always)]
fn like_lanes(tags: &[u64], seq: u64) -> u64
    requires { length tags.now ≡ 8 }
    ensures { result ≡ mask_l (map (λ tag. tag % 2 ^ 32 == seq % 2 ^ 32) tags.now) }
{
    let lower_half = u64x8::splat(0xffff_ffff);
    (u64x8::from_slice(tags) & lower_half)
        .cast::<u32>()
        .simd_eq((u64x8::splat(seq) & lower_half).cast::<u32>())
        .to_bitmask()
}

// `wake_from` of eight operands and no others.
fn wake_eight(tags: &mut [u64], values: &mut [u64], like: u64, seq: u64, value: u64) -> u64
    requires tags { length tags.old ≡ 8 }
    requires values { length values.old ≡ 8 }
    requires like { like ≡ mask_l (map (λ tag. tag % 2 ^ 32 == seq % 2 ^ 32) tags.old) }
    ensures woken { result ≡ mask_l (map (λ tag. tag == seq) tags.old) }
    ensures tags { tags.new ≡ map (woken_tag seq) tags.old }
    ensures values { values.new ≡ zip2 (woken_value seq value) tags.old values.old }
{
    let mut woken = 0;
    let mut left = like;
    while left != 0 {
        let lane = left.trailing_zeros() as usize;
        let is_woken = wake_one(tags, values, lane, seq, value);
        woken = marked(woken, lane, is_woken);
        left = without(left, lane);
    }
    woken
}

// Gives an operand the value if its tag is the sequence number.
#[inline(always)]
fn wake_one(tags: &mut [u64], values: &mut [u64], lane: usize, seq: u64, value: u64) -> bool
    requires tags { lane < length tags.old }
    requires values { lane < length values.old }
    ensures is_woken { result ≡ (get_or tags.old lane 0 == seq) }
    ensures tags { tags.new ≡ slice_set tags.old lane (woken_tag seq (get_or tags.old lane 0)) }
    ensures values { values.new ≡ slice_set values.old lane
        (woken_value seq value (get_or tags.old lane 0) (get_or values.old lane 0)) }
{
    let is_woken = tags[lane] == seq;
    if is_woken {
        tags[lane] = NO_PRODUCER;
        values[lane] = value;
    }
    is_woken
}
