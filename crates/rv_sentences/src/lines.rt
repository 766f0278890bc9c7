ghost use Rattle.std.specs.Prelude.{◌≡◌, ◌+◌, ◌≤◌, ◌<◌, ◌^◌, drop, get_or, length, sum};
ghost use Rattle.rv_sentences.specs.GreatestLines.{by_line, goes_on, line_count};

use rv_source::Listing;

/// Whether a word and the next one come from one line.
pub fn goes_on(listing: &Listing, word: u32) -> bool
    requires { word + 1 < 2 ^ 30 }
    ensures { result ≡ goes_on listing.now word }
{
    match (
        listing.number_at(4 * word),
        listing.number_at(4 * (word + 1)),
    ) {
        (Some(number), Some(other)) => number == other,
        _ => false,
    }
}

// How much is counted from a place on at the words of its line.
fn count_from(counts: &[u64], first: u32, listing: &Listing, place: usize) -> u64
    requires within { place < length counts.now }
    requires reach { first + length counts.now ≤ 2 ^ 30 }
    requires room { sum counts.now < 2 ^ 64 }
    ensures { result ≡ line_count listing.now (first + place) (drop place counts.now) }
{
    let mut last = place;
    let mut count = counts[last];
    while last + 1 < counts.len() {
        if !goes_on(listing, first + last as u32) {
            return count;
        }
        last += 1;
        count += counts[last];
    }
    count
}

/// How much is counted at the line whose first word is at a place, nothing at the other places of a line. The number of
/// the first of all words is given.
pub fn count_of_line(counts: &[u64], first: u32, listing: &Listing, place: usize) -> u64
    requires within { place < length counts.now }
    requires reach { first + length counts.now ≤ 2 ^ 30 }
    requires room { sum counts.now < 2 ^ 64 }
    ensures { result ≡ get_or (by_line listing.now first counts.now) place 0 }
{
    if place > 0 && goes_on(listing, first + (place - 1) as u32) {
        return 0;
    }
    count_from(counts, first, listing, place)
}
