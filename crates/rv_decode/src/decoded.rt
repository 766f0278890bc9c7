ghost use Rattle.std.specs.Prelude.{◌≡◌, ◌≢◌, ◌<◌, IfSome, None, Some};
ghost use Rattle.rv_isa.specs.Instruction.{is_branch_or_jump, is_load, is_serialising};
ghost use Rattle.rv_isa.specs.Instruction.{is_store, kind_of_word, target_of_word};
ghost use Rattle.rv_decode.specs.Decodes.{instruction_of};
ghost use Rattle.rv_decode.specs.Known.{both_sources, class_of, known_of};

use crate::codec::decode;
use rv_isa::{Instr, Kind, Reg, kind, sources, target};
use std::marker::Model;

// What hardware asks of a word, over and over.
#[derive(Clone, Copy)]
struct Known {
    kind: Option<Kind>,
    // Register x0 where there is none.
    target: Reg,
    class: Class,
}

// What hardware does with an instruction beside its execution.
#[derive(Clone, Copy)]
enum Class {
    Store,
    // It waits to be the oldest, with nothing younger in flight beside it.
    Serialising,
    // Its next pc comes from its execution.
    BranchOrJump,
    Other,
}

/// What a word decodes to, with what hardware asks of it: found once, where the word is decoded.
#[derive(Clone, Copy)]
pub struct Decoded {
    instruction: Option<Instr>,
    known: Known,
}

// Clauses see the instruction alone.
impl Model for Decoded {
    ghost use Rattle.std.specs.Prelude.{◌≡◌, Option};
    ghost use Rattle.rv_isa.specs.declared.instructions.Instr.{Instr as InstrOf};
    ghost use Rattle.rv_decode.specs.Known.{known_of};

    ghost Value = { Option InstrOf };

    ghost view = { λ d. d.instruction };

    ghost invariant = { λ d. d.known ≡ known_of d.instruction };

    ghost inverse = { λ instruction. record { instruction = instruction; known = known_of instruction } };
}

impl Decoded {
    /// A word's, which may be illegal.
    #[inline(never)]
    pub fn of(word: u32) -> Decoded
        ensures { result ≡ instruction_of word }
    {
        Decoded::new(decode(word))
    }

    /// That of a place without a word: no instruction.
    pub fn none() -> Decoded
        ensures { result ≡ None }
    {
        Decoded::new(None)
    }

    fn new(instruction: Option<Instr>) -> Decoded
        ensures { result ≡ instruction }
    {
        Decoded {
            instruction,
            known: known_of(&instruction),
        }
    }

    /// The instruction, None where there is no word or it is illegal.
    pub fn instruction(&self) -> &Option<Instr>
        ensures { result.now ≡ self.now }
    {
        &self.instruction
    }

    /// The kind of unit that executes it, None where it uses none.
    pub fn kind(&self) -> Option<Kind>
        ensures { result ≡ kind_of_word self.now }
    {
        self.known.kind
    }

    /// The register that it writes, None where it writes none or x0.
    pub fn target(&self) -> Option<Reg>
        ensures target { result ≡ target_of_word self.now }
        ensures in_range { IfSome result (λ register. (register ≢ 0) × (register < 32)) }
    {
        let target = self.known.target;
        if target.number() == 0 {
            None
        } else {
            Some(target)
        }
    }

    /// The registers that it reads, first `rs1` and then `rs2`; None where it has no such operand.
    pub fn sources(&self) -> [Option<Reg>; 2]
        ensures { result ≡ both_sources self.now }
    {
        match &self.instruction {
            Some(instruction) => sources(instruction),
            None => [None, None],
        }
    }

    /// Whether it loads.
    pub fn is_load(&self) -> bool
        ensures { result ≡ is_load self.now }
    {
        matches!(self.instruction, Some(Instr::Load { .. }))
    }

    /// Whether it stores.
    pub fn is_store(&self) -> bool
        ensures { result ≡ is_store self.now }
    {
        matches!(self.known.class, Class::Store)
    }

    /// Whether it waits to be the oldest, with nothing younger in flight beside it.
    pub fn is_serialising(&self) -> bool
        ensures { result ≡ is_serialising self.now }
    {
        matches!(self.known.class, Class::Serialising)
    }

    /// Whether its next pc comes from its execution.
    pub fn is_branch_or_jump(&self) -> bool
        ensures { result ≡ is_branch_or_jump self.now }
    {
        matches!(self.known.class, Class::BranchOrJump)
    }
}

fn known_of(instruction: &Option<Instr>) -> Known
    ensures { result ≡ known_of instruction.now }
{
    match instruction {
        Some(instruction) => known_of_instruction(instruction),
        None => Known {
            kind: None,
            target: Reg::ZERO,
            class: Class::Other,
        },
    }
}

fn known_of_instruction(instruction: &Instr) -> Known
    ensures { result ≡ known_of (Some instruction.now) }
{
    Known {
        kind: kind(instruction),
        target: target(instruction).unwrap_or(Reg::ZERO),
        class: class_of(instruction),
    }
}

fn class_of(instruction: &Instr) -> Class
    ensures { result ≡ class_of (Some instruction.now) }
{
    match instruction {
        Instr::Store { .. } => Class::Store,
        Instr::FenceI | Instr::Csr { .. } | Instr::Mret => Class::Serialising,
        Instr::Jal { .. } | Instr::Jalr { .. } | Instr::Branch { .. } => Class::BranchOrJump,
        _ => Class::Other,
    }
}
