//! The operations by the fields that select them, both ways: the rows of the table that share a form.

#![tactic(auto, unfolding(crate::specs::InstructionTable::table))]

ghost use Rattle.std.specs.Prelude.{◌≡◌, ℕ, ◌+◌, ◌<◌, ◌⊎◌, IfSome, IsNone, Some, option_map};
ghost use Rattle.rv_decode.specs.Decodes.{by_rows};
ghost use Rattle.rv_decode.specs.Operand.{funct7};
ghost use Rattle.rv_decode.specs.InstructionTable.{table, branch, load, store, op_immediate};
ghost use Rattle.rv_decode.specs.InstructionTable.{shift, op, csr, csr_with_immediate};

use crate::opcodes::{BRANCH, LOAD, OP, OP_IMM, STORE, SYSTEM};
use rv_isa::{AluOp, Condition, CsrOp, ImmediateOp, LoadForm, ShiftOp, Width};

pub fn condition(funct3: u32) -> Option<Condition>
    ensures { (word : ℕ) →
        by_rows table word BRANCH funct3 (funct7 word) ≡ option_map (λ condition. branch condition word) result }
{
    match funct3 {
        0b000 => Some(Condition::Equal),
        0b001 => Some(Condition::NotEqual),
        0b100 => Some(Condition::LessThan),
        0b101 => Some(Condition::GreaterOrEqual),
        0b110 => Some(Condition::LessThanUnsigned),
        0b111 => Some(Condition::GreaterOrEqualUnsigned),
        _ => None,
    }
}

pub fn branch_funct3(condition: Condition) -> u32
    ensures fits { result < 8 }
    ensures listed { (word : ℕ) → by_rows table word BRANCH result (funct7 word) ≡ Some (branch condition word) }
{
    match condition {
        Condition::Equal => 0b000,
        Condition::NotEqual => 0b001,
        Condition::LessThan => 0b100,
        Condition::GreaterOrEqual => 0b101,
        Condition::LessThanUnsigned => 0b110,
        Condition::GreaterOrEqualUnsigned => 0b111,
    }
}

pub fn load_form(funct3: u32) -> Option<LoadForm>
    ensures { (word : ℕ) → by_rows table word LOAD funct3 (funct7 word) ≡ option_map (λ form. load form word) result }
{
    match funct3 {
        0b000 => Some(LoadForm::Byte),
        0b001 => Some(LoadForm::Half),
        0b010 => Some(LoadForm::Word),
        0b100 => Some(LoadForm::ByteUnsigned),
        0b101 => Some(LoadForm::HalfUnsigned),
        _ => None,
    }
}

pub fn load_funct3(form: LoadForm) -> u32
    ensures fits { result < 8 }
    ensures listed { (word : ℕ) → by_rows table word LOAD result (funct7 word) ≡ Some (load form word) }
{
    match form {
        LoadForm::Byte => 0b000,
        LoadForm::Half => 0b001,
        LoadForm::Word => 0b010,
        LoadForm::ByteUnsigned => 0b100,
        LoadForm::HalfUnsigned => 0b101,
    }
}

pub fn width(funct3: u32) -> Option<Width>
    ensures { (word : ℕ) →
        by_rows table word STORE funct3 (funct7 word) ≡ option_map (λ width. store width word) result }
{
    match funct3 {
        0b000 => Some(Width::Byte),
        0b001 => Some(Width::Half),
        0b010 => Some(Width::Word),
        _ => None,
    }
}

pub fn store_funct3(width: Width) -> u32
    ensures fits { result < 8 }
    ensures listed { (word : ℕ) → by_rows table word STORE result (funct7 word) ≡ Some (store width word) }
{
    match width {
        Width::Byte => 0b000,
        Width::Half => 0b001,
        Width::Word => 0b010,
    }
}

pub fn immediate_op(funct3: u32) -> Option<ImmediateOp>
    requires { funct3 < 8 }
    ensures found { IfSome result
        (λ op. (word : ℕ) → by_rows table word OP_IMM funct3 (funct7 word) ≡ Some (op_immediate op word)) }
    ensures shift { IsNone result → (funct3 ≡ 1) ⊎ (funct3 ≡ 5) }
{
    match funct3 {
        0b000 => Some(ImmediateOp::Addi),
        0b010 => Some(ImmediateOp::Slti),
        0b011 => Some(ImmediateOp::Sltiu),
        0b100 => Some(ImmediateOp::Xori),
        0b110 => Some(ImmediateOp::Ori),
        0b111 => Some(ImmediateOp::Andi),
        _ => None,
    }
}

pub fn op_immediate_funct3(operation: ImmediateOp) -> u32
    ensures fits { result < 8 }
    ensures listed { (word : ℕ) → by_rows table word OP_IMM result (funct7 word) ≡ Some (op_immediate operation word) }
{
    match operation {
        ImmediateOp::Addi => 0b000,
        ImmediateOp::Slti => 0b010,
        ImmediateOp::Sltiu => 0b011,
        ImmediateOp::Xori => 0b100,
        ImmediateOp::Ori => 0b110,
        ImmediateOp::Andi => 0b111,
    }
}

pub fn shift_op(funct7: u32, funct3: u32) -> Option<ShiftOp>
    requires { (funct3 ≡ 1) ⊎ (funct3 ≡ 5) }
    ensures { (word : ℕ) → by_rows table word OP_IMM funct3 funct7 ≡ option_map (λ op. shift op word) result }
{
    match (funct7, funct3) {
        (0b000_0000, 0b001) => Some(ShiftOp::Slli),
        (0b000_0000, 0b101) => Some(ShiftOp::Srli),
        (0b010_0000, 0b101) => Some(ShiftOp::Srai),
        _ => None,
    }
}

pub fn shift_funct(operation: ShiftOp) -> (u32, u32)
    ensures funct7_fits { result.0 < 128 }
    ensures funct3_fits { result.1 < 8 }
    ensures listed { (word : ℕ) → by_rows table word OP_IMM result.1 result.0 ≡ Some (shift operation word) }
{
    match operation {
        ShiftOp::Slli => (0b000_0000, 0b001),
        ShiftOp::Srli => (0b000_0000, 0b101),
        ShiftOp::Srai => (0b010_0000, 0b101),
    }
}

pub fn alu_op(funct7: u32, funct3: u32) -> Option<AluOp>
    ensures { (word : ℕ) → by_rows table word OP funct3 funct7 ≡ option_map (λ operation. op operation word) result }
{
    match (funct7, funct3) {
        (0b000_0000, 0b000) => Some(AluOp::Add),
        (0b010_0000, 0b000) => Some(AluOp::Sub),
        (0b000_0000, 0b001) => Some(AluOp::Sll),
        (0b000_0000, 0b010) => Some(AluOp::Slt),
        (0b000_0000, 0b011) => Some(AluOp::Sltu),
        (0b000_0000, 0b100) => Some(AluOp::Xor),
        (0b000_0000, 0b101) => Some(AluOp::Srl),
        (0b010_0000, 0b101) => Some(AluOp::Sra),
        (0b000_0000, 0b110) => Some(AluOp::Or),
        (0b000_0000, 0b111) => Some(AluOp::And),
        (0b000_0001, 0b000) => Some(AluOp::Mul),
        (0b000_0001, 0b001) => Some(AluOp::Mulh),
        (0b000_0001, 0b010) => Some(AluOp::Mulhsu),
        (0b000_0001, 0b011) => Some(AluOp::Mulhu),
        (0b000_0001, 0b100) => Some(AluOp::Div),
        (0b000_0001, 0b101) => Some(AluOp::Divu),
        (0b000_0001, 0b110) => Some(AluOp::Rem),
        (0b000_0001, 0b111) => Some(AluOp::Remu),
        (0b001_0000, 0b010) => Some(AluOp::Sh1add),
        (0b001_0000, 0b100) => Some(AluOp::Sh2add),
        (0b001_0000, 0b110) => Some(AluOp::Sh3add),
        _ => None,
    }
}

// The fields funct7 and funct3 of each operation, in the order of the variants.
static OP_FUNCTS: [(u32, u32); 21] = [
    (0b000_0000, 0b000), // Add
    (0b010_0000, 0b000), // Sub
    (0b000_0000, 0b001), // Sll
    (0b000_0000, 0b010), // Slt
    (0b000_0000, 0b011), // Sltu
    (0b000_0000, 0b100), // Xor
    (0b000_0000, 0b101), // Srl
    (0b010_0000, 0b101), // Sra
    (0b000_0000, 0b110), // Or
    (0b000_0000, 0b111), // And
    (0b000_0001, 0b000), // Mul
    (0b000_0001, 0b001), // Mulh
    (0b000_0001, 0b010), // Mulhsu
    (0b000_0001, 0b011), // Mulhu
    (0b000_0001, 0b100), // Div
    (0b000_0001, 0b101), // Divu
    (0b000_0001, 0b110), // Rem
    (0b000_0001, 0b111), // Remu
    (0b001_0000, 0b010), // Sh1add
    (0b001_0000, 0b100), // Sh2add
    (0b001_0000, 0b110), // Sh3add
];

pub fn op_funct(operation: AluOp) -> (u32, u32)
    ensures funct7_fits { result.0 < 128 }
    ensures funct3_fits { result.1 < 8 }
    ensures listed { (word : ℕ) → by_rows table word OP result.1 result.0 ≡ Some (op operation word) }
{
    OP_FUNCTS[operation as usize]
}

/// The operation on a CSR; 4 more is the same with an immediate.
pub fn csr_op(funct3: u32) -> Option<CsrOp>
    requires { funct3 < 4 }
    ensures register { (word : ℕ) → 0 < funct3 →
        by_rows table word SYSTEM funct3 (funct7 word) ≡ option_map (λ op. csr op word) result }
    ensures immediate { (word : ℕ) →
        by_rows table word SYSTEM (funct3 + 4) (funct7 word) ≡ option_map (λ op. csr_with_immediate op word) result }
{
    match funct3 {
        0b001 => Some(CsrOp::Write),
        0b010 => Some(CsrOp::Set),
        0b011 => Some(CsrOp::Clear),
        _ => None,
    }
}

/// The selector of an operation with a register; 4 more is that of the same with an immediate.
pub fn csr_funct3(operation: CsrOp) -> u32
    ensures fits { result < 4 }
    ensures register { (word : ℕ) → by_rows table word SYSTEM result (funct7 word) ≡ Some (csr operation word) }
    ensures immediate { (word : ℕ) →
        by_rows table word SYSTEM (result + 4) (funct7 word) ≡ Some (csr_with_immediate operation word) }
{
    match operation {
        CsrOp::Write => 0b001,
        CsrOp::Set => 0b010,
        CsrOp::Clear => 0b011,
    }
}
