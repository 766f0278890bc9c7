ghost use Rattle.std.specs.Prelude.{◌≡◌, ℤ, pos, ◌≢◌, ◌*ℤ◌, int_div, int_rem, cond};
ghost use Rattle.rv_isa.specs.Arithmetic.{value_of, operation_kind_of, all_ones};
ghost use Rattle.rv_isa.specs.Word.{modulo_word, upper_word};
ghost use Rattle.std.specs.Int.{cast_unsigned, w32};

use crate::operations::Kind;

/// A register operation: RV32I (Unprivileged ISA 20191213, 2.4), M (7.1, 7.2) and Zba's shifted
/// additions.
#[derive(Clone, Copy)]
pub enum AluOp {
    Add,
    Sub,
    Sll,
    Slt,
    Sltu,
    Xor,
    Srl,
    Sra,
    Or,
    And,
    Mul,
    Mulh,
    Mulhsu,
    Mulhu,
    Div,
    Divu,
    Rem,
    Remu,
    Sh1add,
    Sh2add,
    Sh3add,
}

/// The value of a register operation on two words (Unprivileged ISA 20191213, 2.4, 7.1 and 7.2).
/// Every operation has a value for every two words; no division traps.
pub fn alu(op: AluOp, a: u32, b: u32) -> u32
    ensures { result ≡ value_of op a b }
{
    match op {
        AluOp::Add => a.wrapping_add(b),
        AluOp::Sub => a.wrapping_sub(b),
        AluOp::Sll => a << (b % 32),
        AluOp::Slt => u32::from(a.cast_signed() < b.cast_signed()),
        AluOp::Sltu => u32::from(a < b),
        AluOp::Xor => a ^ b,
        AluOp::Srl => a >> (b % 32),
        AluOp::Sra => (a.cast_signed() >> (b % 32)).cast_unsigned(),
        AluOp::Or => a | b,
        AluOp::And => a & b,
        AluOp::Mul => a.wrapping_mul(b),
        AluOp::Mulh => multiply_high(a.cast_signed(), b.cast_signed()),
        AluOp::Mulhsu => multiply_high_mixed(a.cast_signed(), b),
        AluOp::Mulhu => multiply_high_unsigned(a, b),
        AluOp::Div => divide(a.cast_signed(), b.cast_signed()),
        AluOp::Divu => a.checked_div(b).unwrap_or(u32::MAX),
        AluOp::Rem => remainder(a.cast_signed(), b.cast_signed()),
        AluOp::Remu => a.checked_rem(b).unwrap_or(a),
        AluOp::Sh1add => (a << 1).wrapping_add(b),
        AluOp::Sh2add => (a << 2).wrapping_add(b),
        AluOp::Sh3add => (a << 3).wrapping_add(b),
    }
}

/// The kind of unit that computes a register operation.
pub(crate) fn operation_kind(op: AluOp) -> Kind
    ensures { result ≡ operation_kind_of op }
{
    match op {
        AluOp::Mul | AluOp::Mulh | AluOp::Mulhsu | AluOp::Mulhu => Kind::Mul,
        AluOp::Div | AluOp::Divu | AluOp::Rem | AluOp::Remu => Kind::Div,
        AluOp::Add
        | AluOp::Sub
        | AluOp::Sll
        | AluOp::Slt
        | AluOp::Sltu
        | AluOp::Xor
        | AluOp::Srl
        | AluOp::Sra
        | AluOp::Or
        | AluOp::And
        | AluOp::Sh1add
        | AluOp::Sh2add
        | AluOp::Sh3add => Kind::Alu,
    }
}

fn multiply_high(a: i32, b: i32) -> u32
    ensures { result ≡ upper_word (a *ℤ b) }
{
    let product = i64::from(a) * i64::from(b);
    upper_half(product)
}

// The bits of a number from bit 32 on.
fn upper_half(product: i64) -> u32
    ensures { result ≡ upper_word product }
{
    ((product >> 32) as i32).cast_unsigned()
}

fn multiply_high_mixed(a: i32, b: u32) -> u32
    ensures { result ≡ upper_word (a *ℤ pos b) }
{
    let product = i64::from(a) * i64::from(b);
    upper_half(product)
}

fn multiply_high_unsigned(a: u32, b: u32) -> u32
    ensures { result ≡ upper_word (pos a *ℤ pos b) }
{
    ((u64::from(a) * u64::from(b)) >> 32) as u32
}

// The quotient of the least number by -1 is 2 ^ 31, whose word is that of the least number.
fn divide(a: i32, b: i32) -> u32
    ensures zero { b ≡ pos 0 → result ≡ all_ones }
    ensures quotient { b ≢ pos 0 → result ≡ modulo_word (int_div a b) }
{
    if b == 0 {
        u32::MAX
    } else {
        a.wrapping_div(b).cast_unsigned()
    }
}

fn remainder(a: i32, b: i32) -> u32
    ensures zero { b ≡ pos 0 → result ≡ modulo_word a }
    ensures remainder { b ≢ pos 0 → result ≡ modulo_word (int_rem a b) }
{
    if b == 0 {
        a.cast_unsigned()
    } else {
        a.wrapping_rem(b).cast_unsigned()
    }
}
