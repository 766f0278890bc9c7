ghost use Rattle.std.specs.Prelude.{◌≡◌, ◌++◌, ◌∷◌, [], OnOk, map};
ghost use Rattle.rv_asm.specs.Mnemonic.{instructions, others, pseudo_instructions};
ghost use Rattle.rv_refusal.specs.Names.{csrs, directives, mnemonics, registers};

use std::alloc::AllocError;

// The mnemonics of instructions, in the order of the assembler's table.
static INSTRUCTIONS: [&[u8]; 58] = [
    b"lui", b"auipc", b"beq", b"bne", b"blt", b"bge", b"bltu", b"bgeu", b"lb", b"lh", b"lw",
    b"lbu", b"lhu", b"sb", b"sh", b"sw", b"addi", b"slti", b"sltiu", b"xori", b"ori", b"andi",
    b"slli", b"srli", b"srai", b"add", b"sub", b"sll", b"slt", b"sltu", b"xor", b"srl", b"sra",
    b"or", b"and", b"ecall", b"ebreak", b"fence", b"fence.i", b"csrrw", b"csrrs", b"csrrc",
    b"csrrwi", b"csrrsi", b"csrrci", b"mul", b"mulh", b"mulhsu", b"mulhu", b"div", b"divu", b"rem",
    b"remu", b"sh1add", b"sh2add", b"sh3add", b"mret", b"wfi",
];

// Those of pseudo-instructions.
static PSEUDO_INSTRUCTIONS: [&[u8]; 31] = [
    b"nop", b"mv", b"not", b"neg", b"seqz", b"snez", b"sltz", b"sgtz", b"beqz", b"bnez", b"bltz",
    b"bgez", b"bgtz", b"blez", b"bgt", b"ble", b"bgtu", b"bleu", b"j", b"call", b"jr", b"ret",
    b"csrr", b"csrw", b"csrs", b"csrc", b"csrwi", b"csrsi", b"csrci", b"li", b"la",
];

// The other mnemonics, and the directives.
static OTHERS: [&[u8]; 17] = [
    b"jal", b"jalr", b".text", b".data", b".globl", b".global", b".equ", b".word", b".half",
    b".byte", b".zero", b".space", b".skip", b".balign", b".asciz", b".string", b".ascii",
];

// The registers' names.
static REGISTERS: [&[u8]; 65] = [
    b"x0", b"x1", b"x2", b"x3", b"x4", b"x5", b"x6", b"x7", b"x8", b"x9", b"x10", b"x11", b"x12",
    b"x13", b"x14", b"x15", b"x16", b"x17", b"x18", b"x19", b"x20", b"x21", b"x22", b"x23", b"x24",
    b"x25", b"x26", b"x27", b"x28", b"x29", b"x30", b"x31", b"zero", b"ra", b"sp", b"gp", b"tp",
    b"t0", b"t1", b"t2", b"s0", b"fp", b"s1", b"a0", b"a1", b"a2", b"a3", b"a4", b"a5", b"a6",
    b"a7", b"s2", b"s3", b"s4", b"s5", b"s6", b"s7", b"s8", b"s9", b"s10", b"s11", b"t3", b"t4",
    b"t5", b"t6",
];

// The CSRs' names.
static CSRS: [&[u8]; 15] = [
    b"mstatus",
    b"misa",
    b"mie",
    b"mtvec",
    b"mstatush",
    b"mscratch",
    b"mepc",
    b"mcause",
    b"mtval",
    b"mip",
    b"mvendorid",
    b"marchid",
    b"mimpid",
    b"mhartid",
    b"mconfigptr",
];

#[tactic(auto, unfolding(rv_asm::specs::Mnemonic::instructions))]
fn instructions() -> &'static [&'static [u8]]
    ensures { map (λ name. name.now) result.now ≡ map (λ row. row.0) instructions }
{
    &INSTRUCTIONS
}

#[tactic(auto, unfolding(rv_asm::specs::Mnemonic::pseudo_instructions))]
fn pseudo_instructions() -> &'static [&'static [u8]]
    ensures { map (λ name. name.now) result.now ≡ map (λ row. row.0) pseudo_instructions }
{
    &PSEUDO_INSTRUCTIONS
}

#[tactic(auto, unfolding(rv_asm::specs::Mnemonic::others))]
fn others() -> &'static [&'static [u8]]
    ensures { map (λ name. name.now) result.now ≡ map (λ row. row.0) others }
{
    &OTHERS
}

/// The directives.
#[tactic(auto, unfolding(rv_asm::specs::Mnemonic::others))]
pub(crate) fn directives() -> &'static [&'static [u8]]
    ensures { map (λ name. name.now) result.now ≡ directives }
{
    &OTHERS[2..]
}

/// Adds a name.
pub(crate) fn add_name<'a>(names: &mut Vec<&'a [u8]>, name: &'a [u8]) -> Result<(), AllocError>
    ensures { OnOk result (map (λ name. name.now) names.new.items
        ≡ map (λ name. name.now) names.old.items ++ name.now ∷ []) }
{
    names.push(name)?;
    Ok(())
}

/// Adds the mnemonics and directives that the assembler knows.
pub(crate) fn add_mnemonics(names: &mut Vec<&[u8]>) -> Result<(), AllocError>
    ensures { OnOk result (map (λ name. name.now) names.new.items
        ≡ map (λ name. name.now) names.old.items ++ mnemonics) }
{
    names.extend_from_slice(instructions())?;
    names.extend_from_slice(pseudo_instructions())?;
    names.extend_from_slice(others())
}

/// The names of registers.
#[tactic(auto, unfolding(rv_asm::specs::Names::register_names))]
pub(crate) fn registers() -> &'static [&'static [u8]]
    ensures { map (λ name. name.now) result.now ≡ registers }
{
    &REGISTERS
}

/// The names of CSRs.
#[tactic(auto, unfolding(rv_isa::specs::Csr::order))]
pub(crate) fn csrs() -> &'static [&'static [u8]]
    ensures { map (λ name. name.now) result.now ≡ csrs }
{
    &CSRS
}
