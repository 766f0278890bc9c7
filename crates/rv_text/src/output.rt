ghost use Rattle.rv_text.specs.Written.{IsWritten};

use std::io::Write;
use thiserror::Error;

/// Why a report was not written whole.
#[derive(Clone, Copy, Debug, PartialEq, Eq, Error)]
pub enum ReportError {
    /// A write answered an error, or took nothing.
    #[error("output")]
    WriteFailed,
}

/// Why a text was not written whole, where memory is asked for before it.
#[derive(Clone, Copy, Debug, PartialEq, Eq, Error)]
pub enum TextError {
    /// Memory was refused, and nothing was written.
    #[error("memory")]
    Memory,
    /// A write answered an error, or took nothing: what was written is a beginning of the text.
    #[error("output")]
    WriteFailed,
}

/// Writes all the bytes of a text, and asks for no memory.
pub fn put<W: Write>(writer: &mut W, text: &[u8]) -> Result<(), ReportError>
    ensures { IsWritten result (W.contents writer.old) (W.contents writer.new) text.now }
{
    let mut written = 0;
    while written < text.len() {
        let (_, rest) = text.split_at(written);
        match writer.write(rest) {
            Ok(0) | Err(_) => return Err(ReportError::WriteFailed),
            Ok(count) => written += count,
        }
    }
    Ok(())
}
