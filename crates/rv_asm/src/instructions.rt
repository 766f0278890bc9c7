ghost use Rattle.std.specs.Prelude.{◌≡◌, ◌<◌, ◌∷◌, ◌≤ℤ◌, ◌-ℤ◌, ◌^◌, pos, negsuc, option_to_list};
ghost use Rattle.std.specs.Result.{result_map_both};
ghost use Rattle.rv_asm.specs.Meaning.{distance, immediate, instructions, natural};

use crate::fault::AsmFault;
use crate::operation::{Fields, Operation};
use crate::reach::{load_address, load_number, signed_word};
use rv_isa::{BranchOffset, CsrSource, Immediate, Instr, JumpOffset, Unsigned};

/// One instruction, or two.
type Made = (Instr, Option<Instr>);

fn immediate(number: i128) -> Result<Immediate, AsmFault>
    ensures { result ≡ immediate number }
{
    if -2048 <= number && number <= 2047 {
        Ok(Immediate::from_field(number as i32))
    } else {
        Err(AsmFault::OutOfRange)
    }
}

/// The field that holds a number from 0 on.
fn natural<const LIMIT: u32>(number: i128) -> Result<Unsigned<LIMIT>, AsmFault>
    ensures { result ≡ natural LIMIT number }
{
    if 0 <= number && number < i128::from(LIMIT) {
        Ok(Unsigned::from_field(number.unsigned_abs() as u32))
    } else {
        Err(AsmFault::OutOfRange)
    }
}

fn branch_offset(away: i128) -> Result<BranchOffset, AsmFault>
    ensures { result ≡ distance (negsuc 4095) (pos 4094) away }
{
    if away < -4096 || away > 4094 {
        return Err(AsmFault::OutOfRange);
    }
    BranchOffset::new(away as i32).ok_or(AsmFault::Misaligned)
}

fn jump_offset(away: i128) -> Result<JumpOffset, AsmFault>
    ensures { result ≡ distance (negsuc 1048575) (pos 1048574) away }
{
    if away < -1048576 || away > 1048574 {
        return Err(AsmFault::OutOfRange);
    }
    JumpOffset::new(away as i32).ok_or(AsmFault::Misaligned)
}

/// How far a number is from an address.
fn distance(number: i128, address: u128) -> i128
    requires address { address < 2 ^ 68 }
    requires least { negsuc (2 ^ 71) ≤ℤ number }
    requires greatest { number ≤ℤ pos (2 ^ 71) }
    ensures { result ≡ number -ℤ pos address }
{
    number - address as i128
}

/// The instructions of an operation, its fields and the value of its expression, at an address.
pub fn instructions(
    operation: Operation,
    fields: Fields,
    address: u128,
    number: i128,
) -> Result<Made, AsmFault>
    requires address { address < 2 ^ 68 }
    requires least { negsuc (2 ^ 71) ≤ℤ number }
    requires greatest { number ≤ℤ pos (2 ^ 71) }
    ensures { result_map_both (λ made. made.0 ∷ option_to_list made.1) (λ fault. fault) result
        ≡ instructions operation fields address number }
{
    let Fields { rd, rs1, rs2, csr } = fields;
    let away = distance(number, address);
    let instruction = match operation {
        Operation::Lui => Instr::Lui {
            rd,
            immediate: natural(number)?,
        },
        Operation::Auipc => Instr::Auipc {
            rd,
            immediate: natural(number)?,
        },
        Operation::Jal => Instr::Jal {
            rd,
            offset: jump_offset(away)?,
        },
        Operation::Jalr => Instr::Jalr {
            rd,
            rs1,
            offset: immediate(number)?,
        },
        Operation::Branch(condition) => Instr::Branch {
            condition,
            rs1,
            rs2,
            offset: branch_offset(away)?,
        },
        Operation::Load(form) => Instr::Load {
            form,
            rd,
            rs1,
            offset: immediate(number)?,
        },
        Operation::Store(width) => Instr::Store {
            width,
            rs1,
            rs2,
            offset: immediate(number)?,
        },
        Operation::OpImmediate(op) => Instr::OpImmediate {
            op,
            rd,
            rs1,
            immediate: immediate(number)?,
        },
        Operation::Shift(op) => Instr::Shift {
            op,
            rd,
            rs1,
            amount: natural(number)?,
        },
        Operation::Op(op) => Instr::Op { op, rd, rs1, rs2 },
        Operation::Bare(bare) => bare.instruction(),
        Operation::Csr(op) => Instr::Csr {
            op,
            rd,
            csr: natural(i128::from(csr))?,
            source: CsrSource::Register(rs1),
        },
        Operation::CsrImmediate(op) => Instr::Csr {
            op,
            rd,
            csr: natural(i128::from(csr))?,
            source: CsrSource::Immediate(natural(number)?),
        },
        Operation::LoadNumber => return Ok(load_number(rd, signed_word(number))),
        Operation::LoadAddress => return Ok(load_address(rd, signed_word(away))),
    };
    Ok((instruction, None))
}
