ghost use Rattle.std.specs.Prelude.{◌≡◌, ◌++◌, OnOk, decimal};
ghost use Rattle.std.specs.List.{flat_map};
ghost use Rattle.rv_text.specs.Plain.{plain_text};

use itoa::Buffer;
use rv_text::write_plain;
use std::alloc::AllocError;

/// Appends a text.
pub(crate) fn add_text(out: &mut Vec<u8>, text: &[u8]) -> Result<(), AllocError>
    ensures { OnOk result (out.new.items ≡ out.old.items ++ text.now) }
{
    out.extend_from_slice(text)
}

/// Appends texts one after the other.
pub(crate) fn add_all(out: &mut Vec<u8>, texts: &[&[u8]]) -> Result<(), AllocError>
    ensures { OnOk result (out.new.items ≡ out.old.items ++ flat_map (λ t. t.now) texts.now) }
{
    for text in texts {
        add_text(out, text)?;
    }
    Ok(())
}

/// Appends a number.
pub(crate) fn add_number(out: &mut Vec<u8>, number: usize) -> Result<(), AllocError>
    ensures { OnOk result (out.new.items ≡ out.old.items ++ decimal number) }
{
    let mut buffer = Buffer::new();
    add_text(out, buffer.format(number).as_bytes())
}

/// Appends a text of a user's in printing characters.
pub(crate) fn add_plain(out: &mut Vec<u8>, text: &[u8]) -> Result<(), AllocError>
    ensures { OnOk result (out.new.items ≡ out.old.items ++ plain_text text.now) }
{
    match write_plain(out, text) {
        Ok(()) => Ok(()),
        Err(_) => Err(AllocError),
    }
}
