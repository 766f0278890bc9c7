ghost use Rattle.std.specs.Prelude.{◌≡◌, ◌≤◌, ◌%◌, true, false, None};
ghost use Rattle.rv_isa.specs.Cause.{code_of};
ghost use Rattle.rv_decode.specs.Decodes.{Decodes};
ghost use Rattle.rv_arch.specs.Access.{StaysInRam};
ghost use Rattle.rv_arch.specs.Due.{due};
ghost use Rattle.rv_arch.specs.Run.{is_retired};
ghost use Rattle.rv_arch.specs.State.{IsState};
ghost use Rattle.rv_arch.specs.Step.{Step, IsFetched, IsOnlyStep, trap_taken, word_at_pc};
ghost use Rattle.rv_arch.specs.Trap.{interrupt_cause};

use super::Reference;
use crate::outcome::RefStep;
use rv_decode::decode;
use rv_isa::{Cause, Instr, Lines, Width};

impl Reference {
    /// Takes an exception for the instruction at the pc.
    fn trap(&mut self, cause: Cause, value: u32) -> RefStep
        ensures outcome { result ≡ RefStep.Trap self.old.state.pc cause value }
        ensures state { self.new ≡ record self.old { state = trap_taken self.old.state (code_of cause) value } }
    {
        let pc = self.pc;
        self.pc = self.csrs.enter_trap(pc, cause.code(), value);
        RefStep::Trap { pc, cause, value }
    }

    /// Takes an interrupt, by its code.
    fn interrupt(&mut self, code: u32) -> RefStep
        requires { code ≤ 11 }
        ensures outcome { result ≡ RefStep.Interrupt self.old.state.pc (interrupt_cause code) }
        ensures state { self.new ≡ record self.old { state = trap_taken self.old.state (interrupt_cause code) 0 } }
    {
        let pc = self.pc;
        let cause = 0x8000_0000 + code;
        self.pc = self.csrs.enter_trap(pc, cause, 0);
        RefStep::Interrupt { pc, cause }
    }

    /// Takes a step with an instruction that was fetched, of which `word` is the word.
    fn retire_or_fault(&mut self, word: u32, instruction: Instr, lines: Lines) -> RefStep
        requires fetched { IsFetched self.old.layout self.old.state lines }
        requires word { word ≡ word_at_pc self.old.layout self.old.state }
        requires decoded { Decodes word instruction }
        ensures step { Step self.old.layout self.old.state lines result self.new.state }
        ensures layout { self.new.layout ≡ self.old.layout }
    {
        let pc = self.pc;
        match self.execute(word, instruction, lines) {
            Ok(written) => RefStep::Retired { pc, word, written },
            Err(fault) => self.trap(fault.cause, fault.value),
        }
    }

    /// Takes a step where no interrupt is due.
    fn fetch_and_execute(&mut self, lines: Lines) -> RefStep
        requires { due self.old.state.csrs lines ≡ None }
        ensures step { Step self.old.layout self.old.state lines result self.new.state }
        ensures only { IsOnlyStep self.old.layout self.old.state lines result self.new.state }
        ensures in_ram { is_retired result ≡ true → StaysInRam self.old.layout self.old.state }
        ensures layout { self.new.layout ≡ self.old.layout }
    {
        let pc = self.pc;
        if !self.ram.in_range(pc, 4) {
            return self.trap(Cause::InstructionAccessFault, pc);
        }
        if self.is_stale(pc) {
            return RefStep::Stale { pc };
        }
        let word = self.ram.number(pc, Width::Word);
        match decode(word) {
            None => self.trap(Cause::IllegalInstruction, word),
            Some(instruction) => self.retire_or_fault(word, instruction, lines),
        }
    }

    /// Goes on by a step, with the levels of the interrupt lines.
    fn advance(&mut self, lines: Lines) -> RefStep
        ensures step { Step self.old.layout self.old.state lines result self.new.state }
        ensures only { IsOnlyStep self.old.layout self.old.state lines result self.new.state }
        ensures in_ram { is_retired result ≡ true → StaysInRam self.old.layout self.old.state }
        ensures layout { self.new.layout ≡ self.old.layout }
    {
        match self.csrs.due_interrupt(lines) {
            Some(code) => self.interrupt(code),
            None => self.fetch_and_execute(lines),
        }
    }

    /// Takes one step, with the levels of the interrupt lines. A step costs the same however large
    /// RAM is.
    pub fn step(&mut self, lines: Lines) -> RefStep
        ensures step { Step self.old.layout self.old.state lines result self.new.state }
        ensures layout { self.new.layout ≡ self.old.layout }
        ensures lines { self.new.lines ≡ lines }

        // No other step is possible.
        ensures only { IsOnlyStep self.old.layout self.old.state lines result self.new.state }

        // A fault, a trap and an interrupt change no register and no byte.
        ensures registers_kept { is_retired result ≡ false → self.new.state.registers ≡ self.old.state.registers }
        ensures bytes_kept { is_retired result ≡ false → self.new.state.ram ≡ self.old.state.ram }
        ensures in_ram { is_retired result ≡ true → StaysInRam self.old.layout self.old.state }

        ensures state { IsState self.new.layout self.new.state }
    {
        let outcome = self.advance(lines);
        self.lines = lines;
        outcome
    }
}
