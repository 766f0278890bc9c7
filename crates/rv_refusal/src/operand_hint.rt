ghost use Rattle.std.specs.Prelude.{◌≡◌, ◌++◌, OnOk, map};
ghost use Rattle.rv_asm.specs.Read.{tokens_in};
ghost use Rattle.rv_refusal.specs.NameSet.{holds};
ghost use Rattle.rv_refusal.specs.OperandHint.{accesses_memory, address_hint, bare_statements, begins_with_registers};
ghost use Rattle.rv_refusal.specs.OperandHint.{is_reversed, jump_hint, jumps_to_name, lacks_parenthesis, load_hint};
ghost use Rattle.rv_refusal.specs.OperandHint.{loaded_hint, named_hint, nothing_hint, number_hint, offset_hint};
ghost use Rattle.rv_refusal.specs.OperandHint.{operand_hint, operands_hint, products, range_hint, register_hint};
ghost use Rattle.rv_refusal.specs.OperandHint.{reversed_hint, takes_offset, target_hint, with_number, written_hint};

use crate::culprit::operand_of_fault;
use crate::foreign_name::csr_hint;
use crate::key_line::is_among;
use crate::name_on::begins_with;
use crate::name_set::NameSet;
use crate::names::registers;
use crate::operand_shape::{
    begins_with_address, begins_with_number, lacks_closing, lacks_comma, lacks_opening,
    stands_before_another,
};
use crate::statement::first_name;
use crate::text::{add_all, add_text};
use crate::unknown::takes_csr;
use rv_asm::{AsmFault, Token};
use std::alloc::AllocError;

// Statements without operands.
static BARE_STATEMENTS: [&[u8]; 10] = [
    b".text", b".data", b"nop", b"ret", b"ecall", b"ebreak", b"mret", b"wfi", b"fence", b"fence.i",
];

// The multiplications and divisions.
static PRODUCTS: [&[u8]; 8] = [
    b"mul", b"mulh", b"mulhsu", b"mulhu", b"div", b"divu", b"rem", b"remu",
];

#[tactic(auto, unfolding(crate::specs::OperandHint::bare_statements))]
fn bare_statements() -> &'static [&'static [u8]]
    ensures { map (λ name. name.now) result.now ≡ bare_statements }
{
    &BARE_STATEMENTS
}

#[tactic(auto, unfolding(crate::specs::OperandHint::products))]
fn products() -> &'static [&'static [u8]]
    ensures { map (λ name. name.now) result.now ≡ products }
{
    &PRODUCTS
}

/// Appends what to write in place of a register where a value is to stand.
#[tactic(auto, unfolding(crate::specs::OperandHint::register_hint))]
pub(crate) fn add_register_hint(out: &mut Vec<u8>, name: &[u8]) -> Result<(), AllocError>
    ensures { OnOk result (out.new.items ≡ out.old.items ++ register_hint name.now) }
{
    if !is_among(name, registers()) {
        return Ok(());
    }
    add_all(
        out,
        &[
            b"hint: ",
            name,
            b" is a register, and a symbol or a number stands here\n",
        ],
    )
}

// Whether an instruction takes registers before its symbol or its address: a branch on two of them, and a store.
fn begins_with_registers(name: &[u8]) -> bool
    ensures { result ≡ begins_with_registers name.now }
{
    is_among(
        name,
        &[
            b"beq", b"bne", b"blt", b"bge", b"bltu", b"bgeu", b"bgt", b"ble", b"bgtu", b"bleu",
            b"sb", b"sh", b"sw",
        ],
    )
}

// What to write in place of a number before other operands.
#[tactic(auto, unfolding(crate::specs::OperandHint::loaded_hint))]
fn loaded_hint(name: &[u8]) -> &'static [u8]
    ensures { result.now ≡ loaded_hint name.now }
{
    if begins_with_registers(name) {
        b"hint: a register stands here: li t0, 5 loads 5 into t0, and zero is a register that holds 0\n"
    } else {
        b""
    }
}

// Appends what an instruction on registers is with a number as its last operand.
#[tactic(auto, unfolding(crate::specs::OperandHint::with_number))]
fn add_with_number(out: &mut Vec<u8>, name: &[u8]) -> Result<(), AllocError>
    ensures { OnOk result (out.new.items ≡ out.old.items ++ with_number name.now) }
{
    if is_among(
        name,
        &[
            b"add", b"and", b"or", b"xor", b"slt", b"sll", b"srl", b"sra", b"csrw", b"csrs",
            b"csrc", b"csrrw", b"csrrs", b"csrrc",
        ],
    ) {
        return add_all(out, &[b"hint: with a number it is ", name, b"i\n"]);
    }
    if name == b"sub".as_slice() {
        return add_text(
            out,
            b"hint: with a number it is addi, and the number has the other sign\n",
        );
    }
    if is_among(name, &[b"mv", b"la"]) {
        return add_text(out, b"hint: with a number it is li\n");
    }
    Ok(())
}

// Appends what to write in place of a number.
#[tactic(auto, unfolding(crate::specs::OperandHint::number_hint))]
fn add_number_hint(out: &mut Vec<u8>, name: &[u8], operand: &[Token<'_>]) -> Result<(), AllocError>
    ensures { OnOk result (out.new.items ≡ out.old.items ++ number_hint name.now (tokens_in operand.now)) }
{
    if is_among(name, products()) {
        return add_text(
            out,
            b"hint: it takes registers alone: li loads a number into one\n",
        );
    }
    if stands_before_another(operand) {
        return add_text(out, loaded_hint(name));
    }
    add_with_number(out, name)
}

// Whether an instruction loads or stores.
fn accesses_memory(name: &[u8]) -> bool
    ensures { result ≡ accesses_memory name.now }
{
    is_among(
        name,
        &[b"lb", b"lh", b"lw", b"lbu", b"lhu", b"sb", b"sh", b"sw"],
    )
}

// Whether an instruction has an offset with a register in parentheses.
fn takes_offset(name: &[u8]) -> bool
    ensures { result ≡ takes_offset name.now }
{
    accesses_memory(name) || name == b"jalr".as_slice()
}

// That a load or a store has its register first.
#[tactic(auto, unfolding(crate::specs::OperandHint::reversed_hint))]
fn reversed_hint() -> &'static [u8]
    ensures { result.now ≡ reversed_hint }
{
    b"hint: the register stands before offset(register), as in sw a0, 8(sp)\n"
}

// Whether an offset with a register lacks a parenthesis.
fn lacks_parenthesis(name: &[u8], operand: &[Token<'_>]) -> bool
    ensures { result ≡ lacks_parenthesis name.now (tokens_in operand.now) }
{
    takes_offset(name) && (lacks_opening(operand) || lacks_closing(operand))
}

// How an offset with a register is written.
#[tactic(auto, unfolding(crate::specs::OperandHint::offset_hint))]
fn offset_hint() -> &'static [u8]
    ensures { result.now ≡ offset_hint }
{
    b"hint: an address is written as offset(register), as in 8(sp)\n"
}

// What to write in place of a name where an address is to stand.
#[tactic(auto, unfolding(crate::specs::OperandHint::address_hint))]
fn address_hint(name: &[u8]) -> &'static [u8]
    ensures { result.now ≡ address_hint name.now }
{
    if is_among(name, registers()) {
        offset_hint()
    } else {
        b"hint: an address is in a register: la t0, symbol loads it, and 0(t0) is the word there\n"
    }
}

// What to write in place of a name where jalr has an offset with a register.
#[tactic(auto, unfolding(crate::specs::OperandHint::jump_hint))]
fn jump_hint(name: &[u8]) -> &'static [u8]
    ensures { result.now ≡ jump_hint name.now }
{
    if is_among(name, registers()) {
        b"hint: it jumps to offset(register), as in jalr ra, 0(t0)\n"
    } else {
        b"hint: jal and call take a symbol, and jalr a register\n"
    }
}

// What to write in place of a name where li has a number; one that begins with $ may be meant as a number.
#[tactic(auto, unfolding(crate::specs::OperandHint::load_hint))]
fn load_hint(name: &[u8]) -> &'static [u8]
    ensures { result.now ≡ load_hint name.now }
{
    if is_among(name, registers()) {
        return b"hint: with a register it is mv\n";
    }
    if begins_with(b'$', name) {
        b""
    } else {
        b"hint: la loads the address of a label; a line .equ stands above each use of its name\n"
    }
}

// What to write in place of a name at the front of an operand.
#[tactic(auto, unfolding(crate::specs::OperandHint::named_hint))]
fn named_hint(name: &[u8], other: &[u8]) -> &'static [u8]
    ensures { result.now ≡ named_hint name.now other.now }
{
    if accesses_memory(name) {
        return address_hint(other);
    }
    if name == b"jalr".as_slice() {
        return jump_hint(other);
    }
    if name == b"li".as_slice() {
        return load_hint(other);
    }
    if takes_csr(name) {
        return csr_hint(other);
    }
    b""
}

// Whether an offset with a register stands before the register of a load or a store.
fn is_reversed(name: &[u8], operand: &[Token<'_>]) -> bool
    ensures { result ≡ is_reversed name.now (tokens_in operand.now) }
{
    accesses_memory(name) && begins_with_address(operand)
}

// Appends what to write in place of an operand with tokens, from its first one on.
#[tactic(auto, unfolding(crate::specs::OperandHint::written_hint))]
fn add_written_hint(out: &mut Vec<u8>, name: &[u8], operand: &[Token<'_>]) -> Result<(), AllocError>
    ensures { OnOk result (out.new.items ≡ out.old.items ++ written_hint name.now (tokens_in operand.now)) }
{
    if is_among(name, bare_statements()) {
        return add_text(
            out,
            b"hint: it takes no operand, and a line has one statement\n",
        );
    }
    if lacks_parenthesis(name, operand) {
        return add_text(out, offset_hint());
    }
    if lacks_comma(operand) {
        return add_text(out, b"hint: a comma stands between two operands\n");
    }
    if is_reversed(name, operand) {
        return add_text(out, reversed_hint());
    }
    if begins_with_number(operand) {
        return add_number_hint(out, name, operand);
    }
    match first_name(operand) {
        Some(other) => add_text(out, named_hint(name, other)),
        None => Ok(()),
    }
}

// That no operand stands after a comma.
#[tactic(auto, unfolding(crate::specs::OperandHint::nothing_hint))]
fn nothing_hint() -> &'static [u8]
    ensures { result.now ≡ nothing_hint }
{
    b"hint: no operand stands after the last comma; what stands after # is a comment\n"
}

// Appends what to write in place of an operand, from its first token on.
#[tactic(auto, unfolding(crate::specs::OperandHint::operand_hint))]
fn add_operand_hint(out: &mut Vec<u8>, name: &[u8], operand: &[Token<'_>]) -> Result<(), AllocError>
    ensures { OnOk result (out.new.items ≡ out.old.items ++ operand_hint name.now (tokens_in operand.now)) }
{
    match operand {
        [] => add_text(out, nothing_hint()),
        _ => add_written_hint(out, name, operand),
    }
}

/// Appends what to write in place of the operand at fault.
pub(crate) fn add_operands_hint(
    out: &mut Vec<u8>,
    defined: &NameSet<'_>,
    body: &[Token<'_>],
) -> Result<(), AllocError>
    ensures { OnOk result (out.new.items
        ≡ out.old.items ++ operands_hint (holds defined.now) (tokens_in body.now)) }
{
    let Some(name) = first_name(body) else {
        return Ok(());
    };
    match operand_of_fault(AsmFault::BadOperands, defined, body) {
        Some(operand) => add_operand_hint(out, name, operand),
        None => Ok(()),
    }
}

// Whether a statement is a jump to what its only operand names, which has to be a register.
fn jumps_to_name(body: &[Token<'_>]) -> bool
    ensures { result ≡ jumps_to_name (tokens_in body.now) }
{
    match body {
        [Token::Name(name), Token::Name(_)] => is_among(name, &[b"jr", b"jalr"]),
        _ => false,
    }
}

/// What to write in place of a statement with a name where a register is to stand.
#[tactic(auto, unfolding(crate::specs::OperandHint::target_hint))]
pub(crate) fn target_hint(body: &[Token<'_>]) -> &'static [u8]
    ensures { result.now ≡ target_hint (tokens_in body.now) }
{
    if jumps_to_name(body) {
        b"hint: jr and jalr take a register, and j, jal and call a symbol\n"
    } else {
        b""
    }
}

/// What to write in place of an immediate that is out of range.
#[tactic(auto, unfolding(crate::specs::OperandHint::range_hint))]
pub(crate) fn range_hint(name: &[u8]) -> &'static [u8]
    ensures { result.now ≡ range_hint name.now }
{
    if is_among(name, &[b"addi", b"lui"]) {
        b"hint: li loads each number of 32 bits, and la the address of a label\n"
    } else {
        b""
    }
}
