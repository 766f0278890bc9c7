ghost use Rattle.std.specs.Prelude.{◌≡◌, ◌+◌, ◌*◌, ◌^◌, ◌<◌, ◌≤◌, length, slice_range};
ghost use Rattle.rv_isa.specs.Bytes.{number_of, bytes_of_number};
ghost use Rattle.rv_isa.specs.Operation.{bytes_of};
ghost use Rattle.rv_memory.specs.Bytes.{overwritten};

use rv_isa::Width;

/// The number that the bytes from a place on make, lowest byte first.
pub(crate) fn number_in(bytes: &[u8], place: usize, width: Width) -> u32
    requires { place + bytes_of width ≤ length bytes.now }
    ensures number { result ≡ number_of (slice_range bytes.now place (place + bytes_of width)) }
    ensures fits { result < 2 ^ (8 * bytes_of width) }
{
    match width {
        Width::Byte => u32::from(bytes[place]),
        Width::Half => u32::from(u16::from_le_bytes([bytes[place], bytes[place + 1]])),
        Width::Word => u32::from_le_bytes([
            bytes[place],
            bytes[place + 1],
            bytes[place + 2],
            bytes[place + 3],
        ]),
    }
}

/// Stores the low bytes of a word from a place on, lowest byte first.
pub(crate) fn store_in(bytes: &mut [u8], place: usize, width: Width, word: u32)
    requires { place + bytes_of width ≤ length bytes.old }
    ensures { bytes.new ≡ overwritten bytes.old place (bytes_of_number (bytes_of width) word) }
{
    let low = word.to_le_bytes();
    match width {
        Width::Byte => bytes[place..place + 1].copy_from_slice(&low[..1]),
        Width::Half => bytes[place..place + 2].copy_from_slice(&low[..2]),
        Width::Word => bytes[place..place + 4].copy_from_slice(&low),
    }
}
