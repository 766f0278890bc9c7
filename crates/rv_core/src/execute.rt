ghost use Rattle.std.specs.Prelude.{◌≡◌, ℕ, true, false, Some, None, is_some};
ghost use Rattle.rv_isa.specs.Bytes.{bytes_of_number};
ghost use Rattle.rv_isa.specs.Instruction.{is_serialising, is_load, kind_of_word};
ghost use Rattle.rv_isa.specs.Operands.{kind_of};
ghost use Rattle.rv_isa.specs.Operation.{bytes_of};
ghost use Rattle.rv_isa.specs.Word.{modulo_word, sum, pc_plus_4};
ghost use Rattle.rv_isa.specs.declared.lines.Lines.{Lines};
ghost use Rattle.rv_arch.specs.Effect.{branches, goes_to, jumps, writes};
ghost use Rattle.rv_arch.specs.State.{State, write_of};
ghost use Rattle.rv_memory.specs.Memory.{Layout};
ghost use Rattle.rv_hardware.specs.Result.{effect_message, fault_message, result_of_word, value_written};
ghost use Rattle.rv_core.specs.Execution.{IsResult, is_operation};
ghost use Rattle.rv_core.specs.Load.{store_fault};

use rv_isa::{
    Cause, Fault, Immediate, Instr, Message, StoreAccess, StoreBytes, Width, alu, branch_taken,
};
use rv_memory::Ram;
use rv_stations::Ready;

/// A result without a value: the instruction goes on at `next_pc`.
pub(crate) fn passed(next_pc: u32) -> Message
    ensures { (s : State) → result ≡ effect_message None (goes_to s next_pc) }
{
    Message {
        value: 0,
        fault: None,
        next_pc,
        store: None,
    }
}

/// A fault, which carries no value and no next pc.
pub(crate) fn faulted(cause: Cause, value: u32) -> Message
    ensures { result ≡ fault_message cause value }
{
    Message {
        value: 0,
        fault: Some(Fault { cause, value }),
        next_pc: 0,
        store: None,
    }
}

/// A value for the target register `rd`; where that is x0 the value is dropped.
pub(crate) fn computed(rd: rv_isa::Reg, value: u32, pc: u32) -> Message
    ensures { (s : State) → s.pc ≡ pc → result ≡ effect_message None (writes s rd value (pc_plus_4 s.pc)) }
{
    Message {
        value: kept(rd, value),
        fault: None,
        next_pc: pc.wrapping_add(4),
        store: None,
    }
}

fn kept(rd: rv_isa::Reg, value: u32) -> u32
    ensures { result ≡ value_written (write_of rd value) }
{
    if rd == rv_isa::Reg::ZERO { 0 } else { value }
}

// A jump that writes its link.
fn jumped(rd: rv_isa::Reg, pc: u32, target: u32) -> Message
    ensures { (s : State) → s.pc ≡ pc → result ≡ effect_message None (jumps s rd target) }
{
    if target % 4 != 0 {
        return faulted(Cause::InstructionAddressMisaligned, target);
    }
    Message {
        value: kept(rd, pc.wrapping_add(4)),
        fault: None,
        next_pc: target,
        store: None,
    }
}

fn branched(is_taken: bool, pc: u32, target: u32) -> Message
    ensures { (s : State) → s.pc ≡ pc → result ≡ effect_message None (branches s is_taken target) }
{
    if !is_taken {
        passed(pc.wrapping_add(4))
    } else if target % 4 != 0 {
        faulted(Cause::InstructionAddressMisaligned, target)
    } else {
        passed(target)
    }
}

/// The address that a register's value and an offset make.
pub(crate) fn address(base: u32, offset: Immediate) -> u32
    ensures { result ≡ sum base (modulo_word offset) }
{
    base.wrapping_add(offset.word())
}

/// What an instruction without a memory access gives, of the values of its registers.
pub(crate) fn operation_result(instruction: &Instr, pc: u32, first: u32, second: u32) -> Message
    ensures { is_operation (kind_of instruction.now) ≡ true → (layout : Layout) →
        IsResult layout pc first second instruction.now result }
{
    match *instruction {
        Instr::Lui { rd, immediate } => computed(rd, immediate.value() * 4096, pc),
        Instr::Auipc { rd, immediate } => {
            computed(rd, pc.wrapping_add(immediate.value() * 4096), pc)
        }
        Instr::Jal { rd, offset } => jumped(rd, pc, pc.wrapping_add(offset.word())),
        Instr::Jalr { rd, offset, .. } => jumped(rd, pc, address(first, offset) / 2 * 2),
        Instr::Branch {
            condition,
            offset,
            ..
        } => {
            let is_taken = branch_taken(condition, first, second);
            branched(is_taken, pc, pc.wrapping_add(offset.word()))
        }
        Instr::OpImmediate {
            op,
            rd,
            immediate,
            ..
        } => computed(rd, alu(op.operation(), first, immediate.word()), pc),
        Instr::Shift { op, rd, amount, .. } => {
            computed(rd, alu(op.operation(), first, amount.value()), pc)
        }
        Instr::Op { op, rd, .. } => computed(rd, alu(op, first, second), pc),
        _ => passed(pc.wrapping_add(4)),
    }
}

/// What an instruction gives that is finished at its dispatch.
pub(crate) fn result_at_dispatch(pc: u32, word: Option<u32>, instruction: &Option<Instr>) -> Message
    ensures { kind_of_word instruction.now ≡ None → is_serialising instruction.now ≡ false →
        (layout : Layout) (s : State) (lines : Lines) → s.pc ≡ pc →
        result ≡ result_of_word layout s lines word instruction.now }
{
    let Some(word) = word else {
        return faulted(Cause::InstructionAccessFault, pc);
    };
    let Some(instruction) = instruction else {
        return faulted(Cause::IllegalInstruction, word);
    };
    match *instruction {
        Instr::Ecall => faulted(Cause::EnvironmentCall, 0),
        Instr::Ebreak => faulted(Cause::Breakpoint, 0),
        _ => passed(pc.wrapping_add(4)),
    }
}

/// What a store gives: what it writes, once it retires.
pub(crate) fn stored(pc: u32, access: StoreAccess) -> Message
    ensures { (s : State) → s.pc ≡ pc → result ≡ effect_message (Some access) (goes_to s (pc_plus_4 s.pc)) }
{
    Message {
        value: 0,
        fault: None,
        next_pc: pc.wrapping_add(4),
        store: Some(access),
    }
}

/// The bytes that a store writes.
pub(crate) fn store_access(address: u32, width: Width, word: u32) -> StoreAccess
    ensures { result ≡ record { address = address; bytes = bytes_of_number (bytes_of width) word } }
{
    StoreAccess {
        address,
        bytes: StoreBytes::of_word(width, word),
    }
}

// The fault of a store, if it has one: alignment is tested before the range.
fn store_fault(ram: &Ram, address: u32, width: Width) -> Option<Cause>
    ensures { result ≡ store_fault ram.now.layout address (bytes_of width) }
{
    if address % width.bytes() != 0 {
        Some(Cause::StoreAddressMisaligned)
    } else if !ram.writable(address, width.bytes()) {
        Some(Cause::StoreAccessFault)
    } else {
        None
    }
}

/// What an instruction gives that is no load, of the values of its registers.
pub(crate) fn result_of(ram: &Ram, ready: &Ready) -> Message
    ensures { is_load (Some ready.now.instruction) ≡ false → is_some (kind_of ready.now.instruction) ≡ true →
        IsResult ram.now.layout ready.now.pc ready.now.first ready.now.second ready.now.instruction result }
{
    let Instr::Store { width, offset, .. } = ready.instruction else {
        return operation_result(&ready.instruction, ready.pc, ready.first, ready.second);
    };
    let place = address(ready.first, offset);
    match store_fault(ram, place, width) {
        Some(cause) => faulted(cause, place),
        None => stored(ready.pc, store_access(place, width, ready.second)),
    }
}
