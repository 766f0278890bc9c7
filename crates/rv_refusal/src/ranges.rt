ghost use Rattle.std.specs.Prelude.{◌≡◌, ◌++◌, OnOk, Some, not, ℤ};
ghost use Rattle.rv_asm.specs.Meaning.{fits_width};
ghost use Rattle.rv_refusal.specs.Range.{HasRanges, csr_line, csr_range, data_line, is_outside};
ghost use Rattle.rv_refusal.specs.Range.{operation_line, range_line, range_words, value_line};
ghost use Rattle.rv_refusal.specs.Range.{value_part, value_range, value_words, width_range};

use crate::text::{add_all, add_text};
use itoa::Buffer;
use rv_asm::{Form, Operation};
use rv_isa::Width;
use std::alloc::AllocError;

/// The numbers from the first to the second.
#[derive(Clone, Copy)]
pub(crate) struct Range {
    pub(crate) least: i64,
    pub(crate) greatest: i64,
}

fn range_of(least: i64, greatest: i64) -> Range
    ensures least { result.least ≡ least }
    ensures greatest { result.greatest ≡ greatest }
{
    Range { least, greatest }
}

// The range of the value of an operation, which of a jump and of a branch is a distance.
#[tactic(auto, unfolding(crate::specs::Range::value_range))]
fn value_range(operation: Operation) -> Option<Range>
    ensures { result ≡ value_range operation }
{
    match operation {
        Operation::Lui | Operation::Auipc => Some(range_of(0, 1_048_575)),
        Operation::Jal => Some(range_of(-1_048_576, 1_048_574)),
        Operation::Branch(_) => Some(range_of(-4096, 4094)),
        Operation::Jalr | Operation::Load(_) | Operation::Store(_) | Operation::OpImmediate(_) => {
            Some(range_of(-2048, 2047))
        }
        Operation::Shift(_) | Operation::CsrImmediate(_) => Some(range_of(0, 31)),
        Operation::Csr(_)
        | Operation::Op(_)
        | Operation::Bare(_)
        | Operation::LoadNumber
        | Operation::LoadAddress => None,
    }
}

// The range of the CSR of an operation.
#[tactic(auto, unfolding(crate::specs::Range::csr_range))]
fn csr_range(operation: Operation) -> Option<Range>
    ensures { result ≡ csr_range operation }
{
    match operation {
        Operation::Csr(_) | Operation::CsrImmediate(_) => Some(range_of(0, 4095)),
        _ => None,
    }
}

// The range of the values of data of a width: those that the assembler takes.
#[tactic(auto, unfolding(crate::specs::Range::width_range))]
fn width_range(width: Width) -> Range
    ensures range { result ≡ width_range width }
    ensures exact { (number : ℤ) → is_outside (Some result) number ≡ not (fits_width width number) }
{
    match width {
        Width::Byte => range_of(-128, 255),
        Width::Half => range_of(-32768, 65535),
        Width::Word => range_of(-2_147_483_648, 4_294_967_295),
    }
}

// Appends a range between words.
#[tactic(auto, unfolding(crate::specs::Range::range_words))]
fn add_range(out: &mut Vec<u8>, word: &[u8], range: Range, after: &[u8]) -> Result<(), AllocError>
    ensures { OnOk result (out.new.items ≡ out.old.items ++ (range_words word.now range ++ after.now)) }
{
    let mut of_least = Buffer::new();
    let least = of_least.format(range.least).as_bytes();
    let mut of_greatest = Buffer::new();
    let greatest = of_greatest.format(range.greatest).as_bytes();
    add_all(out, &[word, b" from ", least, b" to ", greatest, after])
}

// Appends the range of an operation's value.
#[tactic(auto, unfolding(crate::specs::Range::value_words))]
fn add_value(out: &mut Vec<u8>, operation: Operation, range: Range) -> Result<(), AllocError>
    ensures { OnOk result (out.new.items ≡ out.old.items ++ value_words operation range) }
{
    match operation {
        Operation::Jal | Operation::Branch(_) => add_range(out, b"a target", range, b" bytes away"),
        _ => add_range(out, b"a value", range, b""),
    }
}

// Appends the range of an operation's value, if it has one, after a mark.
fn add_value_part(out: &mut Vec<u8>, mark: &[u8], operation: Operation) -> Result<(), AllocError>
    ensures { OnOk result (out.new.items ≡ out.old.items ++ value_part mark.now operation) }
{
    match value_range(operation) {
        Some(range) => {
            add_text(out, mark)?;
            add_value(out, operation, range)
        }
        None => Ok(()),
    }
}

// Appends the line on the ranges of an operation that has a CSR.
fn add_csr_line(out: &mut Vec<u8>, operation: Operation, range: Range) -> Result<(), AllocError>
    ensures { OnOk result (out.new.items ≡ out.old.items ++ csr_line operation range) }
{
    add_text(out, b"expected: ")?;
    add_range(out, b"a CSR", range, b"")?;
    add_value_part(out, b", and ", operation)?;
    add_text(out, b"\n")
}

// Appends the line on the range of an operation that has no CSR.
fn add_value_line(out: &mut Vec<u8>, operation: Operation) -> Result<(), AllocError>
    ensures { OnOk result (out.new.items ≡ out.old.items ++ value_line operation) }
{
    match value_range(operation) {
        Some(range) => {
            add_text(out, b"expected: ")?;
            add_value(out, operation, range)?;
            add_text(out, b"\n")
        }
        None => Ok(()),
    }
}

// Appends the line on the ranges of an operation, outside of which the assembler reports a value out of range.
#[tactic(auto, unfolding(crate::specs::Range::operation_line), using(crate::proofs::OutOfRange::has_ranges))]
fn add_operation_line(out: &mut Vec<u8>, operation: Operation) -> Result<(), AllocError>
    ensures line { OnOk result (out.new.items ≡ out.old.items ++ operation_line operation) }
    ensures exact { HasRanges operation }
{
    match csr_range(operation) {
        Some(range) => add_csr_line(out, operation, range),
        None => add_value_line(out, operation),
    }
}

// Appends the line on the values of data.
fn add_data_line(out: &mut Vec<u8>, range: Range) -> Result<(), AllocError>
    ensures { OnOk result (out.new.items ≡ out.old.items ++ data_line range) }
{
    add_range(out, b"expected: values", range, b"\n")
}

/// Appends the line on the values that a statement of a form takes.
#[tactic(auto, unfolding(crate::specs::Range::range_line))]
pub(crate) fn add_range_line(out: &mut Vec<u8>, form: Form) -> Result<(), AllocError>
    ensures { OnOk result (out.new.items ≡ out.old.items ++ range_line form) }
{
    match form {
        Form::Instruction(operation, _, _, _) => add_operation_line(out, operation),
        Form::Jal => add_operation_line(out, Operation::Jal),
        Form::Jalr => add_operation_line(out, Operation::Jalr),
        Form::Values(width) => add_data_line(out, width_range(width)),
        Form::Nothing | Form::Choice(_) | Form::Global | Form::Constant | Form::Bytes(_, _) => {
            Ok(())
        }
    }
}
