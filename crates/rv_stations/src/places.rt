ghost use Rattle.std.specs.Prelude.{ℕ, false, ◌≡◌, ◌<◌, ◌≤◌, ◌-◌, ◌==◌, IfOk};
ghost use Rattle.std.specs.Prelude.{get_or, length, remove, slice_index, vec_len};
ghost use Rattle.std.specs.Int.{bit_at};
ghost use Rattle.std.specs.List.{All, insert, range_with_len};

use std::alloc::{AllocError, Global};

/// The first places in order.
pub fn first_places(alloc: Global, count: u32) -> Result<Vec<u8>, AllocError>
    requires { count ≤ 64 }
    ensures { IfOk result (λ places. places.items ≡ range_with_len 0 count) }
{
    let mut places = Vec::with_capacity(alloc, count as usize)?;
    for place in 0..count {
        places.push_reserved(place as u8);
    }
    Ok(places)
}

/// Makes a place the last of the first so many; those after it move up by one.
#[inline(always)]
pub fn move_back(places: &mut Vec<u8>, at: usize, count: usize)
    requires within { at < count }
    requires count { count ≤ vec_len places.old }
    ensures items { places.new.items
        ≡ insert (remove places.old.items at) (count - 1) (slice_index places.old.items at) }
    ensures len { vec_len places.new ≡ vec_len places.old }
{
    let place = places[at];
    let last = count - 1;
    places.copy_within(at + 1..count, at);
    places[last] = place;
}

/// Where the first of the places from one up to an end stands that a mask marks; the end, where it marks none.
#[inline(always)]
pub fn first_marked(places: &[u8], from: usize, end: usize, mask: u64) -> usize
    requires within { end ≤ length places.now }
    requires few { All (λ place. place < 64) places.now }
    ensures within { result ≤ end }
    ensures later { from ≤ end → from ≤ result }
    ensures marked { result < end → bit_at mask (get_or places.now result 0) ≡ 1 }
    ensures others { (at : ℕ) → from ≤ at → at < result → bit_at mask (get_or places.now at 0) ≡ 0 }
{
    // Mostly none is marked.
    if mask == 0 {
        return end;
    }
    for at in from..end {
        if is_marked(mask, place_at(places, at)) {
            return at;
        }
    }
    end
}

/// Whether a mask marks a place.
#[inline(always)]
pub fn marks_any(mask: u64) -> bool
    ensures { result ≡ false → (place : ℕ) → bit_at mask place ≡ 0 }
{
    mask != 0
}

#[inline(always)]
fn place_at(places: &[u8], at: usize) -> usize
    requires { at < length places.now }
    ensures { result ≡ get_or places.now at 0 }
{
    usize::from(places[at])
}

#[inline(always)]
fn is_marked(mask: u64, place: usize) -> bool
    requires { place < 64 }
    ensures { result ≡ (bit_at mask place == 1) }
{
    (mask >> place) & 1 == 1
}
