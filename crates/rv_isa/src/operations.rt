ghost use Rattle.std.specs.Prelude.{◌≡◌, ◌↔◌, IsTrue};

use crate::arithmetic::AluOp;

/// A register and immediate operation other than a shift (Unprivileged ISA 20191213, 2.4).
#[derive(Clone, Copy)]
pub enum ImmediateOp {
    Addi,
    Slti,
    Sltiu,
    Xori,
    Ori,
    Andi,
}

/// A shift by a constant (Unprivileged ISA 20191213, 2.4).
#[derive(Clone, Copy)]
pub enum ShiftOp {
    Slli,
    Srli,
    Srai,
}

/// The condition of a branch (Unprivileged ISA 20191213, 2.5).
#[derive(Clone, Copy)]
pub enum Condition {
    Equal,
    NotEqual,
    LessThan,
    GreaterOrEqual,
    LessThanUnsigned,
    GreaterOrEqualUnsigned,
}

/// How many bytes a load or a store moves.
#[derive(Clone, Copy)]
pub enum Width {
    Byte,
    Half,
    Word,
}

/// A load's width, and whether its value is extended by its sign or by zeros (Unprivileged ISA
/// 20191213, 2.6).
#[derive(Clone, Copy)]
pub enum LoadForm {
    Byte,
    Half,
    Word,
    ByteUnsigned,
    HalfUnsigned,
}

/// What a CSR instruction does with the CSR (Unprivileged ISA 20191213, 9.1).
#[derive(Clone, Copy)]
pub enum CsrOp {
    /// The source replaces the CSR's value.
    Write,
    /// The bits that are 1 in the source are set.
    Set,
    /// The bits that are 1 in the source are cleared.
    Clear,
}

/// The kind of execution unit and of reservation station that an instruction uses.
#[derive(Clone, Copy, PartialEq, Eq)]
pub enum Kind {
    Alu,
    Mul,
    Div,
    Mem,
}

impl Kind {
    /// The four kinds, in the order in which they issue.
    pub const ALL: [Kind; 4] = [Kind::Alu, Kind::Mul, Kind::Div, Kind::Mem];

    ghost use Rattle.rv_isa.specs.Key.{kind_name};

    /// The name of the table that a description has for this kind.
    pub fn name(self) -> &'static str
        ensures { result.now ≡ kind_name self }
    {
        match self {
            Kind::Alu => "alu",
            Kind::Mul => "mul",
            Kind::Div => "div",
            Kind::Mem => "mem",
        }
    }
}

impl Width {
    ghost use Rattle.rv_isa.specs.Operation.{bytes_of};

    /// The number of bytes: 1, 2 or 4.
    pub fn bytes(self) -> u32
        ensures { result ≡ bytes_of self }
    {
        match self {
            Width::Byte => 1,
            Width::Half => 2,
            Width::Word => 4,
        }
    }
}

impl LoadForm {
    ghost use Rattle.rv_isa.specs.Operation.{width_of};

    /// How many bytes are read.
    pub fn width(self) -> Width
        ensures { result ≡ width_of self }
    {
        match self {
            LoadForm::Byte | LoadForm::ByteUnsigned => Width::Byte,
            LoadForm::Half | LoadForm::HalfUnsigned => Width::Half,
            LoadForm::Word => Width::Word,
        }
    }
}

impl ImmediateOp {
    ghost use Rattle.rv_isa.specs.Operation.{immediate_operation};

    /// The register operation that computes the same of a register and the sign-extended immediate.
    pub fn operation(self) -> AluOp
        ensures { result ≡ immediate_operation self }
    {
        match self {
            ImmediateOp::Addi => AluOp::Add,
            ImmediateOp::Slti => AluOp::Slt,
            ImmediateOp::Sltiu => AluOp::Sltu,
            ImmediateOp::Xori => AluOp::Xor,
            ImmediateOp::Ori => AluOp::Or,
            ImmediateOp::Andi => AluOp::And,
        }
    }
}

impl ShiftOp {
    ghost use Rattle.rv_isa.specs.Operation.{shift_operation};

    /// The register operation that computes the same of a register and the shift amount.
    pub fn operation(self) -> AluOp
        ensures { result ≡ shift_operation self }
    {
        match self {
            ShiftOp::Slli => AluOp::Sll,
            ShiftOp::Srli => AluOp::Srl,
            ShiftOp::Srai => AluOp::Sra,
        }
    }
}
