//! The fields of an instruction word.

ghost use Rattle.std.specs.Prelude.{◌≡◌, ℕ, ◌<◌, ◌≤◌};
ghost use Rattle.rv_decode.specs.Operand.{bits, opcode, rd, funct3, rs1, rs2, funct7};
ghost use Rattle.rv_decode.specs.Operand.{i_immediate, s_immediate, b_immediate, u_immediate};
ghost use Rattle.rv_decode.specs.Operand.{j_immediate, shift_amount, csr_address, csr_immediate};

use rv_isa::{
    BranchOffset, CsrAddress, CsrImmediate, Immediate, JumpOffset, Reg, ShiftAmount, UpperImmediate,
};

/// Bits `high` to `low` of a word, as a number.
pub fn bits(word: u32, high: u32, low: u32) -> u32
    requires order { low ≤ high }
    requires in_word { high < 32 }
    ensures { result ≡ bits word high low }
{
    word << (31 - high) >> (31 - high + low)
}

/// The major opcode, bits 6 to 0.
pub fn opcode(word: u32) -> u32
    ensures { result ≡ opcode word }
{
    bits(word, 6, 0)
}

/// The field funct3, bits 14 to 12.
pub fn funct3(word: u32) -> u32
    ensures { result ≡ funct3 word }
{
    bits(word, 14, 12)
}

/// The field funct7, bits 31 to 25.
pub fn funct7(word: u32) -> u32
    ensures { result ≡ funct7 word }
{
    bits(word, 31, 25)
}

/// The target register, bits 11 to 7.
pub fn rd(word: u32) -> Reg
    ensures { result ≡ rd word }
{
    Reg::new(bits(word, 11, 7) as u8).unwrap()
}

/// The first source register, bits 19 to 15.
pub fn rs1(word: u32) -> Reg
    ensures { result ≡ rs1 word }
{
    Reg::new(bits(word, 19, 15) as u8).unwrap()
}

/// The second source register, bits 24 to 20.
pub fn rs2(word: u32) -> Reg
    ensures { result ≡ rs2 word }
{
    Reg::new(bits(word, 24, 20) as u8).unwrap()
}

/// The immediate of the I format, whose bit 11 is the sign and counts below zero.
pub fn i_immediate(word: u32) -> Immediate
    ensures { result ≡ i_immediate word }
{
    let low = bits(word, 30, 20);
    let sign = bits(word, 31, 31);
    Immediate::from_field(low as i32 - sign as i32 * 2048)
}

/// The immediate of the S format.
pub fn s_immediate(word: u32) -> Immediate
    ensures { result ≡ s_immediate word }
{
    let low = bits(word, 30, 25) * 32 + bits(word, 11, 7);
    let sign = bits(word, 31, 31);
    Immediate::from_field(low as i32 - sign as i32 * 2048)
}

/// The offset of a branch.
pub fn b_immediate(word: u32) -> BranchOffset
    ensures { result ≡ b_immediate word }
{
    let low = bits(word, 7, 7) * 2048 + bits(word, 30, 25) * 32 + bits(word, 11, 8) * 2;
    let sign = bits(word, 31, 31);
    BranchOffset::from_field(low as i32 - sign as i32 * 4096)
}

/// The upper immediate, bits 31 to 12.
pub fn u_immediate(word: u32) -> UpperImmediate
    ensures { result ≡ u_immediate word }
{
    UpperImmediate::from_field(bits(word, 31, 12))
}

/// The offset of `jal`.
pub fn j_immediate(word: u32) -> JumpOffset
    ensures { result ≡ j_immediate word }
{
    let low = bits(word, 19, 12) * 4096 + bits(word, 20, 20) * 2048 + bits(word, 30, 21) * 2;
    let sign = bits(word, 31, 31);
    JumpOffset::from_field(low as i32 - sign as i32 * 1048576)
}

/// The amount of a shift by a constant, bits 24 to 20.
pub fn shift_amount(word: u32) -> ShiftAmount
    ensures { result ≡ shift_amount word }
{
    ShiftAmount::from_field(bits(word, 24, 20))
}

/// The address of a CSR, bits 31 to 20.
pub fn csr_address(word: u32) -> CsrAddress
    ensures { result ≡ csr_address word }
{
    CsrAddress::from_field(bits(word, 31, 20))
}

/// The immediate of a CSR instruction, bits 19 to 15.
pub fn csr_immediate(word: u32) -> CsrImmediate
    ensures { result ≡ csr_immediate word }
{
    CsrImmediate::from_field(bits(word, 19, 15))
}
