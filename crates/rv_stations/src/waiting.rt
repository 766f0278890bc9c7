ghost use Rattle.std.specs.Prelude.{◌≡◌};

use rv_isa::Instr;

/// An operand of a waiting instruction.
#[derive(Clone, Copy)]
pub enum Operand {
    /// The operand's value. An instruction that has no such operand has the value 0 in its place.
    Value(u32),
    /// The tag of the operand's producer, which is the producer's sequence number, below 2^44.
    Tag(u64),
}

/// An instruction that waits in a reservation station.
#[derive(Clone, Copy)]
pub struct Waiting {
    /// Its sequence number.
    pub seq: u64,
    /// Its address.
    pub pc: u32,
    /// What it does.
    pub instruction: Instr,
    /// What register `rs1` holds.
    pub first: Operand,
    /// What register `rs2` holds.
    pub second: Operand,
}

/// An instruction that leaves its reservation station, with the values of its operands.
#[derive(Clone, Copy)]
pub struct Ready {
    /// Its sequence number.
    pub seq: u64,
    /// Its address.
    pub pc: u32,
    /// What it does.
    pub instruction: Instr,
    /// The value of register `rs1`, 0 where it has no such operand.
    pub first: u32,
    /// The value of register `rs2`, 0 where it has no such operand.
    pub second: u32,
}

/// What is said of an instruction that has its operands, when the oldest that may go is looked for.
#[derive(Clone, Copy)]
pub enum Verdict {
    /// It may go.
    Goes,
    /// It waits.
    Waits,
    /// It waits, and so does each younger load.
    LoadsWait,
}

/// What a search took out of its station.
#[derive(Clone, Copy)]
pub struct Taken {
    /// The instruction.
    pub ready: Ready,
    /// How many older instructions of the kind stay: a search for the next one passes them by.
    pub passed: usize,
}

impl Waiting {
    ghost use Rattle.rv_stations.specs.Waiting.{ready_of};

    /// The instruction with the values of its operands, where both are there.
    pub fn ready(&self) -> Option<Ready>
        ensures { result ≡ ready_of self.now }
    {
        let Operand::Value(first) = self.first else {
            return None;
        };
        let Operand::Value(second) = self.second else {
            return None;
        };
        Some(Ready {
            seq: self.seq,
            pc: self.pc,
            instruction: self.instruction,
            first,
            second,
        })
    }
}
