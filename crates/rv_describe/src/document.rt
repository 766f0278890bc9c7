ghost use Rattle.std.specs.Prelude.{◌≡◌, IfErr, IfOk, option_map};
ghost use Rattle.toml.specs.Errors.{IsBlank};
ghost use Rattle.toml.specs.View.{table_view};
ghost use Rattle.rv_describe.specs.Document.{document, is_toml};

use std::alloc::{AllocError, Global};
use toml::Table;

/// The table that a text is, and `None` where the text is no TOML document.
///
/// # Errors
/// Memory is refused, which no text does that has nothing but blanks and comments.
pub fn document(alloc: Global, bytes: &[u8]) -> Result<Option<Table>, AllocError>
    ensures read { IfOk result (λ found. option_map table_view found ≡ document bytes.now) }
    ensures memory { IfErr result (λ _. ¬ IsBlank bytes.now) }
{
    match toml::table_from_slice(alloc, bytes) {
        Ok(table) => Ok(Some(table)),
        Err(error) if error.is_memory() => Err(AllocError),
        Err(_) => Ok(None),
    }
}

/// Whether a text is a TOML document. The only error is out of memory.
pub fn is_toml(alloc: Global, bytes: &[u8]) -> Result<bool, AllocError>
    ensures { IfOk result (λ is. is ≡ is_toml bytes.now) }
{
    match document(alloc, bytes) {
        Ok(found) => Ok(found.is_some()),
        Err(refused) => Err(refused),
    }
}
