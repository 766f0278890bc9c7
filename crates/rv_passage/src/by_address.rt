ghost use Rattle.std.specs.Prelude.{◌≡◌, ℕ, ◌≤◌, ◌<◌, insert, length, vec_capacity, vec_len, IfErr, IfOk};
ghost use Rattle.rv_passage.specs.ByAddress.{IsInOrder, IsPlaceFor, IsPlaceOf, StandsFor, with_change};

/// What is kept for an address, of which a list has one for each address, in order of address.
pub trait Addressed: Drop {
    ghost address_of: { Self → ℕ };

    ghost nothing_at: { ℕ → Self };

    /// Its address.
    fn address(&self) -> u32
        ensures { result ≡ address_of self.now };

    /// What is kept for an address at first.
    fn begin(address: u32) -> Self
        ensures { result ≡ nothing_at address };
}

/// The place of what is kept for an address, or where it would have to stand.
pub fn search_address<T: Addressed>(kept: &[T], address: u32) -> Result<usize, usize>
    requires order { IsInOrder T.address_of kept.now }
    ensures found { IfOk result (λ place. IsPlaceOf T.address_of address place kept.now) }
    ensures absent { IfErr result (λ place. IsPlaceFor T.address_of address place kept.now) }
{
    kept.binary_search_by_key(&address, |one| one.address())
}

// Puts in what is kept for an address at first.
fn begin_at<T: Addressed>(kept: &mut Vec<T>, place: usize, address: u32)
    requires within { place ≤ vec_len kept.old }
    requires room { vec_len kept.old < vec_capacity kept.old }
    ensures items { kept.new.items ≡ insert kept.old.items place (T.nothing_at address) }
    ensures capacity { vec_capacity kept.old ≤ vec_capacity kept.new }
{
    kept.insert(place, T::begin(address)).unwrap();
}

/// The place of what is kept for an address, which begins there where nothing is kept for it yet. Asks for no memory.
pub fn place_of<T: Addressed>(kept: &mut Vec<T>, address: u32) -> usize
    requires order { IsInOrder T.address_of kept.old.items }
    requires room { length kept.old.items < vec_capacity kept.old }
    ensures within { result < length kept.new.items }
    ensures kept { kept.new.items ≡ with_change T.address_of T.nothing_at address (λ x. x) kept.old.items }
    ensures changes { StandsFor T.address_of T.nothing_at address result kept.old.items kept.new.items }
    ensures capacity { vec_capacity kept.old ≤ vec_capacity kept.new }
{
    match search_address(kept.as_slice(), address) {
        Ok(place) => place,
        Err(place) => {
            begin_at(kept, place, address);
            place
        }
    }
}
