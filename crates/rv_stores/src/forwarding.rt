ghost use Rattle.std.specs.Prelude.{◌≡◌, fold, filter};
ghost use Rattle.std.specs.Option.{option_or};
ghost use Rattle.rv_isa.specs.Numbered.{IsInOrder};
ghost use Rattle.rv_stores.specs.Queue.{older_than};
ghost use Rattle.rv_stores.specs.Store.{byte_at, is_committed, laid_over};

use crate::store::Store;

/// The bytes found for an access of `count` bytes at an address, with those of the stores below a number laid over them,
/// the oldest first. The first store that is not below it ends the search: all after it are younger.
pub(crate) fn older_bytes(
    stores: &[Store],
    seq: u64,
    found: [Option<u8>; 4],
    address: u32,
    count: usize,
) -> [Option<u8>; 4]
    requires { IsInOrder (λ store. store.seq) stores.now }
    ensures { result ≡ fold (λ found store. laid_over address count store found) found (older_than seq stores.now) }
{
    let Some((store, younger)) = stores.split_first() else {
        return found;
    };
    if store.seq >= seq {
        return found;
    }
    let laid = store.laid_over(found, address, count);
    older_bytes(younger, seq, laid, address, count)
}

/// The byte found for an address, with those of the committed stores laid over it, the oldest first.
pub(crate) fn committed_bytes(stores: &[Store], found: Option<u8>, address: u32) -> Option<u8>
    ensures { result ≡ fold (λ found store. option_or (byte_at address store) found) found
        (filter is_committed stores.now) }
{
    let Some((store, younger)) = stores.split_first() else {
        return found;
    };
    if store.is_committed() {
        let laid = store.byte_at(u64::from(address)).or(found);
        committed_bytes(younger, laid, address)
    } else {
        committed_bytes(younger, found, address)
    }
}
