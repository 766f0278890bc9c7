ghost use Rattle.std.specs.Prelude.{◌≡◌, ◌++◌, OnOk, codes};
ghost use Rattle.rv_refusal.specs.Operands.{as_written, operand_example, operand_list, operand_word};
ghost use Rattle.rv_refusal.specs.Operands.{place_limit, place_word, shape_line, shape_lines};

use crate::text::{add_all, add_number, add_text};
use rv_asm::{Form, Place};
use rv_isa::Width;
use std::alloc::AllocError;

// What may stand at a place, without its limit.
#[tactic(auto, unfolding(crate::specs::Operands::place_word))]
fn word(place: Place) -> &'static [u8]
    ensures { result.now ≡ place_word place }
{
    match place {
        Place::Rd => b"rd",
        Place::Rs1 => b"rs1",
        Place::Rs2 => b"rs2",
        Place::Value => b"value",
        Place::Number => b"number",
        Place::Known => b"number or .equ symbol above",
        Place::Target => b"symbol",
        Place::Address | Place::Base => b"offset(rs1)",
        Place::Csr => b"csr",
        Place::UpTo(_) => b"number from 0 to ",
        Place::Multiple => b"1 or 2 or 4 or 8 or 16",
        Place::Text => b"\"text\"",
        Place::Link | Place::Return | Place::One | Place::MinusOne | Place::Empty => b"",
    }
}

// Appends the greatest number that may stand at a place, where only those up to a limit may.
#[tactic(auto, unfolding(crate::specs::Operands::place_limit))]
fn add_limit(out: &mut Vec<u8>, place: Place) -> Result<(), AllocError>
    ensures { OnOk result (out.new.items ≡ out.old.items ++ place_limit place) }
{
    match place {
        Place::UpTo(greatest) => add_number(out, greatest as usize),
        _ => Ok(()),
    }
}

// Appends what may stand at a place.
fn add_word(out: &mut Vec<u8>, place: Place) -> Result<(), AllocError>
    ensures { OnOk result (out.new.items ≡ out.old.items ++ operand_word place) }
{
    add_text(out, word(place))?;
    add_limit(out, place)
}

// An operand that stands at a place in an example.
#[tactic(auto, unfolding(crate::specs::Operands::operand_example))]
fn example(place: Place) -> &'static [u8]
    ensures { result.now ≡ operand_example place }
{
    match place {
        Place::Rd => b"x5",
        Place::Rs1 => b"x6",
        Place::Rs2 => b"x7",
        Place::Value | Place::Number | Place::Known | Place::UpTo(_) | Place::Multiple => b"8",
        Place::Target => b"loop",
        Place::Address | Place::Base => b"8(x6)",
        Place::Csr => b"mscratch",
        Place::Text => b"\"text\"",
        Place::Link | Place::Return | Place::One | Place::MinusOne | Place::Empty => b"",
    }
}

// Appends what may stand at each of some places.
fn add_words(out: &mut Vec<u8>, mark: &[u8], places: &[Place]) -> Result<(), AllocError>
    ensures { OnOk result (out.new.items ≡ out.old.items ++ operand_list operand_word mark.now places.now) }
{
    let [place, others @ ..] = places else {
        return Ok(());
    };
    if place.is_implied() {
        return add_words(out, mark, others);
    }
    add_text(out, mark)?;
    add_word(out, *place)?;
    add_words(out, b", ", others)
}

// Appends the operand of an example at each of some places.
fn add_examples(out: &mut Vec<u8>, mark: &[u8], places: &[Place]) -> Result<(), AllocError>
    ensures { OnOk result (out.new.items ≡ out.old.items ++ operand_list operand_example mark.now places.now) }
{
    let [place, others @ ..] = places else {
        return Ok(());
    };
    if place.is_implied() {
        return add_examples(out, mark, others);
    }
    add_text(out, mark)?;
    add_text(out, example(*place))?;
    add_examples(out, b", ", others)
}

// Appends the line on a shape of a statement with a name.
#[tactic(auto, unfolding(crate::specs::Operands::shape_line))]
fn add_shape(out: &mut Vec<u8>, name: &[u8], places: &[Place]) -> Result<(), AllocError>
    ensures { OnOk result (out.new.items ≡ out.old.items ++ shape_line name.now places.now) }
{
    add_all(out, &[b"expected: ", name])?;
    add_words(out, b" ", places)?;
    add_all(out, &[b", as in '", name])?;
    add_examples(out, b" ", places)?;
    add_text(out, b"'\n")
}

// The places of an instruction; those of a pseudo-instruction that reads its registers in the other order, or rs2 alone,
// are counted as they are written.
#[tactic(auto, unfolding(crate::specs::Operands::as_written))]
fn as_written(first: Place, second: Place, third: Place) -> [Place; 3]
    ensures { result ≡ as_written first second third }
{
    match (first, second) {
        (Place::Rs2, Place::Rs1) => [Place::Rs1, Place::Rs2, third],
        (Place::Rs2, Place::Target) => [Place::Rs1, Place::Target, third],
        (Place::Rd, Place::Rs2) => [Place::Rd, Place::Rs1, third],
        _ => [first, second, third],
    }
}

// Appends the lines on the shapes of a jump with a target.
#[tactic(auto, unfolding(crate::specs::Operands::shape_lines))]
fn add_jal_shapes(out: &mut Vec<u8>, name: &[u8]) -> Result<(), AllocError>
    ensures { OnOk result (out.new.items ≡ out.old.items ++ shape_lines name.now Form.Jal) }
{
    add_shape(out, name, &[Place::Target])?;
    add_shape(out, name, &[Place::Rd, Place::Target])
}

// Appends the lines on the shapes of a jump to a register.
#[tactic(auto, unfolding(crate::specs::Operands::shape_lines))]
fn add_jalr_shapes(out: &mut Vec<u8>, name: &[u8]) -> Result<(), AllocError>
    ensures { OnOk result (out.new.items ≡ out.old.items ++ shape_lines name.now Form.Jalr) }
{
    add_shape(out, name, &[Place::Rs1])?;
    add_shape(out, name, &[Place::Rd, Place::Base])?;
    add_shape(out, name, &[Place::Rd, Place::Rs1, Place::Value])
}

// Appends the lines on the shapes of data.
#[tactic(auto, unfolding(crate::specs::Operands::shape_lines))]
fn add_data_shapes(out: &mut Vec<u8>, name: &[u8], width: Width) -> Result<(), AllocError>
    ensures { OnOk result (out.new.items ≡ out.old.items ++ shape_lines name.now (Form.Values width)) }
{
    add_shape(out, name, &[Place::Value])?;
    add_shape(out, name, &[Place::Value, Place::Value])
}

/// Appends the lines on the shapes of a statement with a name: what may stand at each place, and an example.
#[tactic(auto, unfolding(crate::specs::Operands::shape_lines))]
pub(crate) fn add_shapes(out: &mut Vec<u8>, name: &[u8], form: Form) -> Result<(), AllocError>
    ensures { OnOk result (out.new.items ≡ out.old.items ++ shape_lines name.now form) }
{
    match form {
        Form::Nothing => Ok(()),
        Form::Instruction(_, first, second, third) => {
            add_shape(out, name, &as_written(first, second, third))
        }
        Form::Jal => add_jal_shapes(out, name),
        Form::Jalr => add_jalr_shapes(out, name),
        Form::Choice(_) => add_shape(out, name, &[]),
        Form::Global => add_shape(out, name, &[Place::Target]),
        Form::Constant => add_shape(out, name, &[Place::Target, Place::Number]),
        Form::Values(width) => add_data_shapes(out, name, width),
        Form::Bytes(_, place) => add_shape(out, name, &[place]),
    }
}
