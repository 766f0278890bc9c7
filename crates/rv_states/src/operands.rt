ghost use Rattle.std.specs.Prelude.{◌≡◌, ◌+◌, ◌<◌, ◌≤◌, if◌then◌else◌, length, option_copied, slice_get, Some};
ghost use Rattle.rv_watch.specs.Registers.{operand_by};
ghost use Rattle.rv_hardware.specs.InFlight.{broadcast_of, writes};
ghost use Rattle.rv_states.specs.Operands.{both_text, operand_text, operands_of, operands_text, status_at};
ghost use Rattle.rv_text.specs.Said.{Says};

use crate::entry::broadcast;
use crate::operand::write_operand;
use rv_isa::{Instr, Reg, sources};
use rv_rob::{Entry, Rob, Stage};
use rv_stations::Operand;
use rv_text::Sink;
use std::io::Write;

/// The sequence number of the entry at a place of the reorder buffer.
pub(crate) fn number_at(buffer: &Rob, place: usize) -> u64
    requires { place ≤ length buffer.now.entries }
    ensures { result ≡ buffer.now.retired + place }
{
    let younger = buffer.len() - place;
    buffer.next_number() - younger as u64
}

// The entry at a place of the reorder buffer, the oldest at place 0.
fn found_at(buffer: &Rob, place: usize) -> Option<&Entry>
    requires { place ≤ length buffer.now.entries }
    ensures { option_copied result ≡ slice_get buffer.now.entries place }
{
    buffer.get(number_at(buffer, place))
}

/// The entry at a place that there is.
pub(crate) fn entry_at(buffer: &Rob, place: usize) -> Entry
    requires { place < length buffer.now.entries }
    ensures { slice_get buffer.now.entries place ≡ Some result }
{
    match found_at(buffer, place) {
        Some(entry) => *entry,
        None => unreachable!(),
    }
}

// Whether an instruction writes a register.
fn writes(entry: &Entry, register: Reg) -> bool
    ensures { result ≡ writes entry.now register }
{
    match entry.instruction.target() {
        Some(target) => target == register,
        None => false,
    }
}

// What the target of an instruction gives.
fn given(number: u64, entry: &Entry) -> Operand
    ensures { result ≡ operand_by number (broadcast_of entry.now.stage) }
{
    match broadcast(&entry.stage) {
        Some(message) => Operand::Value(message.value),
        None => Operand::Tag(number),
    }
}

// What a register gives once one more instruction is older, where it gave this before.
fn given_with(before: Operand, number: u64, entry: &Entry, register: Reg) -> Operand
    ensures { result ≡ (if writes entry.now register
        then operand_by number (broadcast_of entry.now.stage) else before) }
{
    if writes(entry, register) {
        given(number, entry)
    } else {
        before
    }
}

// What a register gives after so many of the instructions in flight.
fn operand_after(buffer: &Rob, registers: &[u32; 32], count: usize, register: Reg) -> Operand
    requires { count ≤ length buffer.now.entries }
    ensures { result ≡ status_at registers.now buffer.now count register }
{
    let mut operand = Operand::Value(registers[register.index()]);
    for place in 0..count {
        let entry = entry_at(buffer, place);
        operand = given_with(operand, number_at(buffer, place), &entry, register);
    }
    operand
}

#[tactic(auto, unfolding(crate::specs::Operands::operand_text))]
fn write_operand_member<W: Write>(
    out: &mut Sink<'_, W>,
    name: &str,
    buffer: &Rob,
    registers: &[u32; 32],
    count: usize,
    register: Option<Reg>,
)
    requires { count ≤ length buffer.now.entries }
    ensures { Says W.contents out.old out.new
        (operand_text name.now (status_at registers.now buffer.now count) register) }
{
    match register {
        Some(register) => {
            let operand = operand_after(buffer, registers, count, register);
            write_operand(out, name, register, operand)
        }
        None => {}
    }
}

#[tactic(auto, using(rv_text::proofs::Saying::says_both))]
fn write_both<W: Write>(
    out: &mut Sink<'_, W>,
    buffer: &Rob,
    registers: &[u32; 32],
    count: usize,
    first: Option<Reg>,
    second: Option<Reg>,
)
    requires { count ≤ length buffer.now.entries }
    ensures { Says W.contents out.old out.new (both_text (status_at registers.now buffer.now count) first second) }
{
    write_operand_member(out, "first", buffer, registers, count, first);
    write_operand_member(out, "second", buffer, registers, count, second)
}

#[tactic(auto, unfolding(crate::specs::Operands::operands_of))]
fn write_sources<W: Write>(
    out: &mut Sink<'_, W>,
    buffer: &Rob,
    registers: &[u32; 32],
    count: usize,
    instruction: &Instr,
)
    requires { count ≤ length buffer.now.entries }
    ensures { Says W.contents out.old out.new (operands_of (status_at registers.now buffer.now count) instruction.now) }
{
    let sources = sources(instruction);
    write_both(out, buffer, registers, count, sources[0], sources[1])
}

/// Writes what an instruction that waits reads, after so many older ones in flight.
pub(crate) fn write_operands<W: Write>(
    out: &mut Sink<'_, W>,
    buffer: &Rob,
    registers: &[u32; 32],
    count: usize,
    entry: &Entry,
)
    requires { count ≤ length buffer.now.entries }
    ensures { Says W.contents out.old out.new
        (operands_text (status_at registers.now buffer.now count) entry.now.stage entry.now.instruction) }
{
    match (&entry.stage, entry.instruction.instruction()) {
        (Stage::Waiting, Some(instruction)) => {
            write_sources(out, buffer, registers, count, instruction)
        }
        _ => {}
    }
}
