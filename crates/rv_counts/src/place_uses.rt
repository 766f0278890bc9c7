ghost use Rattle.std.specs.Prelude.{◌≡◌, count_by};
ghost use Rattle.rv_hardware.specs.Step.{is_retirement, is_trap};
ghost use Rattle.rv_decode.specs.Decodes.{instruction_of};
ghost use Rattle.rv_isa.specs.Instruction.{is_serialising};
ghost use Rattle.rv_counts.specs.Places.{flush_by, flush_of};

use crate::run_places::Flush;
use rv_decode::Decoded;
use rv_hardware::Step;

/// How many instructions trapped in some steps.
pub fn count_traps(steps: &[Step]) -> usize
    ensures { result ≡ count_by is_trap steps.now }
{
    let mut traps = 0;
    for step in steps {
        if matches!(step, Step::Trap { .. }) {
            traps += 1;
        }
    }
    traps
}

/// How many instructions retired in some steps.
pub fn count_retired(steps: &[Step]) -> usize
    ensures { result ≡ count_by is_retirement steps.now }
{
    let mut retired = 0;
    for step in steps {
        if matches!(step, Step::Retired(_)) {
            retired += 1;
        }
    }
    retired
}

// Unprivileged ISA 20191213, 24: the opcodes of fence.i, and of CSR instructions and mret.
const MISC_MEM: u32 = 0b000_1111;

const SYSTEM: u32 = 0b111_0011;

// Whether the instruction of a word waits to be the oldest, with nothing younger in flight beside it. A word with
// another opcode is not decoded: most are no such instruction.
fn is_serialising_word(word: u32) -> bool
    ensures { result ≡ is_serialising (instruction_of word) }
{
    let opcode = word & 0x7f;
    if opcode != MISC_MEM && opcode != SYSTEM {
        return false;
    }
    Decoded::of(word).is_serialising()
}

// What squashes the instructions after a step.
fn flush_by(step: &Step) -> Flush
    ensures { result ≡ flush_by step.now }
{
    match *step {
        Step::Retired(row) => {
            if is_serialising_word(row.word) {
                Flush::Serialising
            } else {
                Flush::Prediction
            }
        }
        Step::Trap { .. } => Flush::Trap,
        Step::Interrupt { .. } => Flush::Interrupt,
    }
}

/// What squashes instructions in a cycle with some steps.
pub fn flush_of(steps: &[Step]) -> Flush
    ensures { result ≡ flush_of steps.now }
{
    match steps {
        [] => Flush::Prediction,
        [step] => flush_by(step),
        [_, rest @ ..] => flush_of(rest),
    }
}
