ghost use Rattle.std.specs.Prelude.{◌≡◌, ◌∷◌, ◌<◌, ◌^◌, [], map, replicate, length};
ghost use Rattle.rv_asm.specs.Directive.{amount_in, text_in, padding, laid_by};
ghost use Rattle.rv_asm.specs.Emitted.{AppendsIfRoom};
ghost use Rattle.rv_asm.specs.Meaning.{Byte'};
ghost use Rattle.rv_asm.specs.Read.{operand_of};
ghost use Rattle.rv_asm.specs.Token.{unescaped};

use crate::fault::AsmFault;
use crate::operand::{Expression, Operand};
use crate::token::{push_text, text_len};

/// A directive that lays down the bytes of its operand.
#[derive(Clone, Copy)]
pub enum Directive {
    /// `.zero`
    Zeros,
    /// `.balign`
    Align,
    /// `.ascii`, and `.asciz` with a zero byte after the string.
    Characters(usize),
}

/// The size of the number that an operand is, or 0.
fn amount_in(operand: Operand<'_>) -> usize
    ensures { result ≡ amount_in (operand_of operand.entry) }
{
    match operand {
        Operand::Value(Expression::Number(number)) => number.unsigned_abs() as usize,
        _ => 0,
    }
}

/// The string that an operand is, or none.
#[tactic(auto, unfolding(crate::specs::Token::unescaped))]
fn text_in(operand: Operand<'_>) -> &[u8]
    ensures { unescaped result.now ≡ text_in (operand_of operand.entry) }
{
    match operand {
        Operand::Text(raw) => raw,
        _ => b"",
    }
}

/// The least number of bytes that leads from an offset to a multiple.
fn padding(multiple: usize, offset: usize) -> usize
    ensures { result ≡ padding multiple offset }
{
    if multiple > 0 {
        (multiple - offset % multiple) % multiple
    } else {
        0
    }
}

/// Appends zero bytes.
pub fn push_zeros(out: &mut Vec<u8>, count: usize) -> Result<(), AsmFault>
    ensures { AppendsIfRoom (map Byte' (replicate count 0)) out.old.items out.new.items result }
{
    let Some(size) = out.len().checked_add(count) else {
        return Err(AsmFault::Memory);
    };
    out.resize(size, 0)?;
    Ok(())
}

/// Appends the bytes of a string.
fn push_string(out: &mut Vec<u8>, raw: &[u8]) -> Result<(), AsmFault>
    ensures { AppendsIfRoom (map Byte' (unescaped raw.now)) out.old.items out.new.items result }
{
    push_text(out, raw)?;
    Ok(())
}

impl Directive {
    /// How many bytes it lays down at an offset.
    pub(crate) fn size(self, offset: usize, operand: Operand<'_>) -> u128
        ensures size { result ≡ length (laid_by self offset (operand_of operand.entry)) }
        ensures small { result < 2 ^ 100 }
    {
        match self {
            Directive::Zeros => amount_in(operand) as u128,
            Directive::Align => padding(amount_in(operand), offset) as u128,
            Directive::Characters(zeros) => text_len(text_in(operand)) as u128 + zeros as u128,
        }
    }

    /// Appends the bytes that it lays down at an offset.
    pub(crate) fn push(
        self,
        offset: usize,
        operand: Operand<'_>,
        out: &mut Vec<u8>,
    ) -> Result<(), AsmFault>
        ensures { AppendsIfRoom (map Byte' (laid_by self offset (operand_of operand.entry))) out.old.items
            out.new.items result }
    {
        match self {
            Directive::Zeros => push_zeros(out, amount_in(operand)),
            Directive::Align => push_zeros(out, padding(amount_in(operand), offset)),
            Directive::Characters(zeros) => {
                push_string(out, text_in(operand))?;
                push_zeros(out, zeros)?;
                Ok(())
            }
        }
    }
}
