ghost use Rattle.std.specs.Prelude.{◌≡◌};
ghost use Rattle.rv_front.specs.Flow.{flow_at, flow_of, leads_elsewhere};

use rv_decode::decode;
use rv_isa::Instr;

/// Where a program may go on after an instruction, as far as its word and its pc say.
#[derive(Clone, Copy)]
pub enum Flow {
    /// At the next word: the instruction neither branches nor jumps, or the word is illegal.
    Sequential,
    /// At the target, by a JAL.
    Jump {
        /// The target's address.
        target: u32,
    },
    /// At the target or the next word, by a branch.
    Branch {
        /// The target's address.
        target: u32,
        /// Whether the offset is negative.
        backward: bool,
    },
    /// Where a register leads, by a JALR.
    Indirect,
}

impl Flow {
    /// Where the program may go on after the word at a pc.
    pub fn at(pc: u32, word: u32) -> Flow
        ensures { result ≡ flow_at pc word }
    {
        // Most words end here, and none of them is decoded.
        if !leads_elsewhere(word) {
            return Flow::Sequential;
        }
        match decode(word) {
            Some(instruction) => Flow::of(pc, instruction),
            None => Flow::Sequential,
        }
    }

    // Where the program may go on after the instruction at a pc.
    fn of(pc: u32, instruction: Instr) -> Flow
        ensures { result ≡ flow_of pc instruction }
    {
        match instruction {
            Instr::Jal { offset, .. } => Flow::Jump {
                target: pc.wrapping_add(offset.word()),
            },
            Instr::Jalr { .. } => Flow::Indirect,
            Instr::Branch { offset, .. } => Flow::Branch {
                target: pc.wrapping_add(offset.word()),
                backward: offset.value() < 0,
            },
            _ => Flow::Sequential,
        }
    }
}

/// Whether the opcode is that of the branches, of JAL or of JALR.
#[inline(always)]
pub(crate) fn leads_elsewhere(word: u32) -> bool
    ensures { result ≡ leads_elsewhere word }
{
    matches!(word & 0x7f, 0x63 | 0x67 | 0x6f)
}
