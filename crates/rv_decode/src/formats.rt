//! The formats of instruction words (Unprivileged ISA 20191213, 2.2 and 2.3, figures 2.2 and 2.3).

ghost use Rattle.std.specs.Prelude.{◌≡◌, ℕ, ◌+◌, ◌*◌, ◌^◌, ◌<◌};
ghost use Rattle.rv_decode.specs.Operand.{bits, i_immediate, s_immediate, b_immediate, j_immediate};

use crate::fields::bits;
use rv_isa::{BranchOffset, CsrAddress, Immediate, JumpOffset, Reg, UpperImmediate};

/// The word of six fields, given from bit 0 up.
fn joined(opcode: u32, rd: u32, funct3: u32, rs1: u32, rs2: u32, funct7: u32) -> u32
    requires opcode { opcode < 2 ^ 7 }
    requires rd { rd < 2 ^ 5 }
    requires funct3 { funct3 < 2 ^ 3 }
    requires rs1 { rs1 < 2 ^ 5 }
    requires rs2 { rs2 < 2 ^ 5 }
    requires funct7 { funct7 < 2 ^ 7 }
    ensures { result ≡ opcode + rd * 2 ^ 7 + funct3 * 2 ^ 12 + rs1 * 2 ^ 15 + rs2 * 2 ^ 20 + funct7 * 2 ^ 25 }
{
    opcode | rd << 7 | funct3 << 12 | rs1 << 15 | rs2 << 20 | funct7 << 25
}

/// Register to register; `rs2` is the number in bits 24 to 20, a register's or a shift amount.
pub fn r_type(opcode: u32, funct7: u32, funct3: u32, rd: Reg, rs1: Reg, rs2: u32) -> u32
    requires opcode { opcode < 2 ^ 7 }
    requires funct7 { funct7 < 2 ^ 7 }
    requires funct3 { funct3 < 2 ^ 3 }
    requires rs2 { rs2 < 2 ^ 5 }
    ensures opcode { bits result 6 0 ≡ opcode }
    ensures funct7 { bits result 31 25 ≡ funct7 }
    ensures funct3 { bits result 14 12 ≡ funct3 }
    ensures rd { bits result 11 7 ≡ rd }
    ensures rs1 { bits result 19 15 ≡ rs1 }
    ensures rs2 { bits result 24 20 ≡ rs2 }
{
    joined(
        opcode,
        u32::from(rd.number()),
        funct3,
        u32::from(rs1.number()),
        rs2,
        funct7,
    )
}

/// Register and immediate.
pub fn i_type(opcode: u32, funct3: u32, rd: Reg, rs1: Reg, immediate: Immediate) -> u32
    requires opcode { opcode < 2 ^ 7 }
    requires funct3 { funct3 < 2 ^ 3 }
    ensures opcode { bits result 6 0 ≡ opcode }
    ensures funct3 { bits result 14 12 ≡ funct3 }
    ensures rd { bits result 11 7 ≡ rd }
    ensures rs1 { bits result 19 15 ≡ rs1 }
    ensures immediate { i_immediate result ≡ immediate }
{
    let word = immediate.word();
    joined(
        opcode,
        u32::from(rd.number()),
        funct3,
        u32::from(rs1.number()),
        bits(word, 4, 0),
        bits(word, 11, 5),
    )
}

/// Stores.
pub fn s_type(opcode: u32, funct3: u32, rs1: Reg, rs2: Reg, immediate: Immediate) -> u32
    requires opcode { opcode < 2 ^ 7 }
    requires funct3 { funct3 < 2 ^ 3 }
    ensures opcode { bits result 6 0 ≡ opcode }
    ensures funct3 { bits result 14 12 ≡ funct3 }
    ensures rs1 { bits result 19 15 ≡ rs1 }
    ensures rs2 { bits result 24 20 ≡ rs2 }
    ensures immediate { s_immediate result ≡ immediate }
{
    let word = immediate.word();
    joined(
        opcode,
        bits(word, 4, 0),
        funct3,
        u32::from(rs1.number()),
        u32::from(rs2.number()),
        bits(word, 11, 5),
    )
}

/// Branches.
pub fn b_type(opcode: u32, funct3: u32, rs1: Reg, rs2: Reg, offset: BranchOffset) -> u32
    requires opcode { opcode < 2 ^ 7 }
    requires funct3 { funct3 < 2 ^ 3 }
    ensures opcode { bits result 6 0 ≡ opcode }
    ensures funct3 { bits result 14 12 ≡ funct3 }
    ensures rs1 { bits result 19 15 ≡ rs1 }
    ensures rs2 { bits result 24 20 ≡ rs2 }
    ensures offset { b_immediate result ≡ offset }
{
    let word = offset.word();
    joined(
        opcode,
        bits(word, 11, 11) | bits(word, 4, 1) << 1,
        funct3,
        u32::from(rs1.number()),
        u32::from(rs2.number()),
        bits(word, 10, 5) | bits(word, 12, 12) << 6,
    )
}

/// Upper immediates.
pub fn u_type(opcode: u32, rd: Reg, immediate: UpperImmediate) -> u32
    requires opcode { opcode < 2 ^ 7 }
    ensures opcode { bits result 6 0 ≡ opcode }
    ensures rd { bits result 11 7 ≡ rd }
    ensures immediate { bits result 31 12 ≡ immediate }
{
    opcode | u32::from(rd.number()) << 7 | immediate.value() << 12
}

/// Jumps: the format of upper immediates, with the bits of the offset in another order.
pub fn j_type(opcode: u32, rd: Reg, offset: JumpOffset) -> u32
    requires opcode { opcode < 2 ^ 7 }
    ensures opcode { bits result 6 0 ≡ opcode }
    ensures rd { bits result 11 7 ≡ rd }
    ensures offset { j_immediate result ≡ offset }
{
    let word = offset.word();
    let rotated = bits(word, 19, 12)
        | bits(word, 11, 11) << 8
        | bits(word, 10, 1) << 9
        | bits(word, 20, 20) << 19;
    u_type(opcode, rd, UpperImmediate::from_field(rotated))
}

/// CSR instructions; `source` is the number in bits 19 to 15, a register's or an immediate.
pub fn csr_type(opcode: u32, funct3: u32, rd: Reg, source: u32, csr: CsrAddress) -> u32
    requires opcode { opcode < 2 ^ 7 }
    requires funct3 { funct3 < 2 ^ 3 }
    requires source { source < 2 ^ 5 }
    ensures opcode { bits result 6 0 ≡ opcode }
    ensures funct3 { bits result 14 12 ≡ funct3 }
    ensures rd { bits result 11 7 ≡ rd }
    ensures source { bits result 19 15 ≡ source }
    ensures csr { bits result 31 20 ≡ csr }
{
    let address = csr.value();
    joined(
        opcode,
        u32::from(rd.number()),
        funct3,
        source,
        bits(address, 4, 0),
        bits(address, 11, 5),
    )
}
