ghost use Rattle.std.specs.Prelude.{◌≡◌, ℕ, None, Some, slice_index};
ghost use Rattle.std.specs.List.{slice_get};
ghost use Rattle.rv_isa.specs.Operands.{sources_of};
ghost use Rattle.std.specs.Option.{option_to_list};
ghost use Rattle.rv_decode.specs.Decodes.{instruction_of};
ghost use Rattle.rv_sentences.specs.Drained.{with_waiting};
ghost use Rattle.rv_sentences.specs.LastStore.{registers_after, registers_since, store_of};
ghost use Rattle.rv_sentences.specs.LastStore.{stored_at, stores_in, with_stores};

use crate::stored::Stored;
use crate::waiting_stores::WaitingStores;
use crate::word_notes::WordNotes;
use rv_decode::decode;
use rv_hardware::Step;
use rv_isa::{Instr, Reg, sources};

// Unprivileged ISA 20191213, 24: the opcode of stores.
const STORE: u32 = 0b010_0011;

// The value of the first register that an instruction reads, or 0 where its first operand is none.
fn first_value(registers: &[u32; 32], instruction: &Instr) -> u32
    ensures read { (register : ℕ) → slice_get (sources_of instruction.now) 0 ≡ Some (Some register) →
        result ≡ slice_index registers.now register }
    ensures none { slice_get (sources_of instruction.now) 0 ≡ Some None → result ≡ 0 }
{
    match sources(instruction)[0] {
        Some(register) => registers[register.index()],
        None => 0,
    }
}

// The store that an instruction is, by the registers before it.
fn stored_at(registers: &[u32; 32], pc: u32, instruction: &Instr) -> Option<Stored>
    ensures { result ≡ stored_at registers.now pc (Some instruction.now) }
{
    let Instr::Store { offset, .. } = *instruction else {
        return None;
    };
    let base = first_value(registers, instruction);
    Some(Stored {
        pc,
        address: base.wrapping_add(offset.word()),
    })
}

// The store that a word is, which may be illegal.
fn stored_by_word(registers: &[u32; 32], pc: u32, instruction: Option<Instr>) -> Option<Stored>
    ensures { result ≡ stored_at registers.now pc instruction }
{
    match instruction {
        Some(instruction) => stored_at(registers, pc, &instruction),
        None => None,
    }
}

// The same of a word by itself. One with another opcode is not decoded: most are no stores.
fn store_by(registers: &[u32; 32], pc: u32, word: u32) -> Option<Stored>
    ensures { result ≡ stored_at registers.now pc (instruction_of word) }
{
    if word & 0x7f != STORE {
        return None;
    }
    stored_by_word(registers, pc, decode(word))
}

// The store that retired in a step, by the registers before it.
fn store_of(registers: &[u32; 32], step: &Step) -> Option<Stored>
    ensures { result ≡ store_of registers.now step.now }
{
    let Step::Retired(row) = *step else {
        return None;
    };
    store_by(registers, row.pc, row.word)
}

// Puts the registers after a step.
fn write_register(registers: &mut [u32; 32], step: &Step)
    ensures { registers.new ≡ registers_after registers.old step.now }
{
    let Step::Retired(row) = *step else {
        return;
    };
    if let Some((register, value)) = row.written {
        if register != Reg::ZERO {
            registers[register.index()] = value;
        }
    }
}

fn note_store(
    last_stores: &mut WordNotes<Option<u32>>,
    waiting: &mut WaitingStores,
    store: Option<Stored>,
)
    ensures last { last_stores.new ≡ with_stores (option_to_list store) last_stores.old }
    ensures waiting { waiting.new ≡ with_waiting (option_to_list store) waiting.old }
{
    if let Some(store) = store {
        last_stores.set(store.address / 4, Some(store.pc));
        waiting.enter(store.pc / 4);
    }
}

/// Keeps the stores that retired in some steps, by the registers before them: the last to each word, and those that
/// wait for their drains. Leaves the registers after those steps.
pub fn note_stores(
    last_stores: &mut WordNotes<Option<u32>>,
    waiting: &mut WaitingStores,
    registers: &mut [u32; 32],
    steps: &[Step],
)
    ensures last { last_stores.new ≡ with_stores (stores_in registers.old steps.now) last_stores.old }
    ensures waiting { waiting.new ≡ with_waiting (stores_in registers.old steps.now) waiting.old }
    ensures registers { registers.new ≡ registers_since registers.old steps.now }
{
    match steps {
        [] => {}
        [step, rest @ ..] => {
            note_store(last_stores, waiting, store_of(registers, step));
            write_register(registers, step);
            note_stores(last_stores, waiting, registers, rest);
        }
    }
}
