ghost use Rattle.std.specs.Prelude.{ℕ, ◌≡◌, ◌<◌, ◌≤◌, ◌+◌, ◌*◌, ◌/◌, if◌then◌else◌};
ghost use Rattle.std.specs.Int.{bit_at, trailing_zeros, w64};
ghost use Rattle.rv_stations.specs.Column.{OtherBitsStay};

/// A mask with the bit of a place set or cleared.
#[inline(always)]
pub fn marked(mask: u64, place: usize, is_set: bool) -> u64
    requires { place < 64 }
    ensures bit { bit_at result place ≡ if is_set then 1 else 0 }
    ensures others { OtherBitsStay place mask result }
{
    if is_set {
        mask | (1 << place)
    } else {
        mask & !(1 << place)
    }
}

/// Where the first eight places start of which one is marked.
#[inline(always)]
pub fn first_eight(mask: u64) -> usize
    requires { 0 < mask }
    ensures { result ≡ trailing_zeros w64 mask / 8 * 8 }
{
    mask.trailing_zeros() as usize / 8 * 8
}

/// A mask without the bits of eight places.
#[inline(always)]
pub fn without_eight(mask: u64, start: usize) -> u64
    requires { start + 8 ≤ 64 }
    ensures eight { (place : ℕ) → start ≤ place → place < start + 8 → bit_at result place ≡ 0 }
    ensures before { (place : ℕ) → place < start → bit_at result place ≡ bit_at mask place }
    ensures after { (place : ℕ) → start + 8 ≤ place → place < 64 → bit_at result place ≡ bit_at mask place }
    ensures fewer { result ≤ mask }
{
    mask & !(0xff << start)
}

/// A mask without the bit of a place that is marked.
#[inline(always)]
pub fn without(mask: u64, place: usize) -> u64
    requires within { place < 64 }
    requires marked { bit_at mask place ≡ 1 }
    ensures cleared { bit_at result place ≡ 0 }
    ensures others { OtherBitsStay place mask result }
    ensures fewer { result < mask }
{
    mask & !(1 << place)
}

/// One of two masks.
#[inline(always)]
pub fn one_of(is_first: bool, first: u64, second: u64) -> u64
    ensures { result ≡ if is_first then first else second }
{
    if is_first { first } else { second }
}

/// A mask without the bits that are set in another one.
#[inline(always)]
pub fn unmarked(mask: u64, other: u64) -> u64
    ensures kept { (place : ℕ) → place < 64 → bit_at other place ≡ 0 → bit_at result place ≡ bit_at mask place }
    ensures cleared { (place : ℕ) → place < 64 → bit_at result place ≡ 1 → bit_at other place ≡ 0 }
{
    mask & !other
}
