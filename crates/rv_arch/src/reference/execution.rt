ghost use Rattle.std.specs.Prelude.{◌≡◌, ◌%◌, ◌*◌, ◌^◌, ◌<◌, IfOk, Err};
ghost use Rattle.rv_isa.specs.Operation.{bytes_of, width_of, is_sign_extended};
ghost use Rattle.rv_isa.specs.Word.{modulo_word, sum, pc_plus_4};
ghost use Rattle.rv_arch.specs.Csr.{access};
ghost use Rattle.rv_arch.specs.Effect.{effect, extended, writes, goes_to, jumps, branches};
ghost use Rattle.rv_arch.specs.Effect.{loads, stores, refreshes, accesses, returns_from_trap};
ghost use Rattle.rv_arch.specs.Machine.{IsPerformed};
ghost use Rattle.rv_arch.specs.State.{register_of};

use super::Reference;
use crate::csr::CsrOperand;
use rv_isa::{
    Cause, CsrAddress, CsrOp, Fault, Immediate, Instr, Lines, LoadForm, Reg, Width, alu,
    branch_taken,
};

/// The register that a retired instruction changed, with its value; or the instruction's fault.
pub(crate) type Performed = Result<Option<(Reg, u32)>, Fault>;

/// A number that a load read, as a word: `lb` and `lh` extend it by its sign.
pub fn extended(form: LoadForm, number: u32) -> u32
    requires { number < 2 ^ (8 * bytes_of (width_of form)) }
    ensures { result ≡ extended (is_sign_extended form) (bytes_of (width_of form)) number }
{
    match form {
        LoadForm::Byte if number >= 0x80 => number + 0xffff_ff00,
        LoadForm::Half if number >= 0x8000 => number + 0xffff_0000,
        _ => number,
    }
}

/// What an instruction that faults does.
fn fault(cause: Cause, value: u32) -> Performed
    ensures { result ≡ Err (record { cause = cause; value = value }) }
{
    Err(Fault { cause, value })
}

impl Reference {
    /// The address of the next instruction in memory.
    fn pc_plus_4(&self) -> u32
        ensures next { result ≡ pc_plus_4 self.now.state.pc }
        ensures aligned { result % 4 ≡ 0 }
    {
        self.pc.wrapping_add(4)
    }

    /// The value of a register.
    fn register(&self, register: Reg) -> u32
        ensures { result ≡ register_of self.now.state register }
    {
        self.registers[register.index()]
    }

    /// Writes a register, where x0 drops what is written, and goes on at an address.
    fn write(&mut self, rd: Reg, value: u32, next: u32) -> Performed
        requires { next % 4 ≡ 0 }
        ensures { IsPerformed (writes self.old.state rd value next) result self.old self.new }
    {
        self.pc = next;
        if rd == Reg::ZERO {
            return Ok(None);
        }
        self.registers[rd.index()] = value;
        Ok(Some((rd, value)))
    }

    /// Writes a register and goes on after the instruction.
    fn compute(&mut self, rd: Reg, value: u32) -> Performed
        ensures { IsPerformed (writes self.old.state rd value (pc_plus_4 self.old.state.pc)) result self.old self.new }
    {
        let next = self.pc_plus_4();
        self.write(rd, value, next)
    }

    /// Goes on after the instruction.
    fn pass(&mut self) -> Performed
        ensures { IsPerformed (goes_to self.old.state (pc_plus_4 self.old.state.pc)) result self.old self.new }
    {
        self.pc = self.pc_plus_4();
        Ok(None)
    }

    /// Jumps, and writes the link.
    fn jump(&mut self, rd: Reg, target: u32) -> Performed
        ensures { IsPerformed (jumps self.old.state rd target) result self.old self.new }
    {
        if target % 4 != 0 {
            return fault(Cause::InstructionAddressMisaligned, target);
        }
        let link = self.pc_plus_4();
        self.write(rd, link, target)
    }

    /// Branches where the branch is taken.
    fn branch(&mut self, is_taken: bool, target: u32) -> Performed
        ensures { IsPerformed (branches self.old.state is_taken target) result self.old self.new }
    {
        if !is_taken {
            self.pass()
        } else if target % 4 == 0 {
            self.pc = target;
            Ok(None)
        } else {
            fault(Cause::InstructionAddressMisaligned, target)
        }
    }

    /// Loads a register.
    fn load(&mut self, form: LoadForm, rd: Reg, address: u32) -> Performed
        ensures { IsPerformed (loads self.old.layout self.old.state form rd address) result self.old self.new }
    {
        let width = form.width();
        if address % width.bytes() != 0 {
            return fault(Cause::LoadAddressMisaligned, address);
        }
        if !self.ram.in_range(address, width.bytes()) {
            return fault(Cause::LoadAccessFault, address);
        }
        let number = self.ram.number(address, width);
        self.compute(rd, extended(form, number))
    }

    /// Stores the low bytes of a word.
    fn store(&mut self, width: Width, address: u32, word: u32) -> Performed
        ensures { IsPerformed (stores self.old.layout self.old.state width address word) result self.old self.new }
    {
        if address % width.bytes() != 0 {
            return fault(Cause::StoreAddressMisaligned, address);
        }
        if !self.ram.writable(address, width.bytes()) {
            return fault(Cause::StoreAccessFault, address);
        }
        self.ram.store(address, width, word);
        self.stale.mark(address);
        self.pass()
    }

    /// Makes every word fresh.
    fn fence_instructions(&mut self) -> Performed
        ensures { IsPerformed (refreshes self.old.state) result self.old self.new }
    {
        self.stale.clear();
        self.pass()
    }

    /// Executes a CSR instruction, of which `word` is the word.
    fn access_csr(
        &mut self,
        word: u32,
        op: CsrOp,
        rd: Reg,
        csr: CsrAddress,
        operand: CsrOperand,
        lines: Lines,
    ) -> Performed
        ensures { IsPerformed (accesses self.old.state word rd (access self.old.state.csrs lines op csr operand)) result
            self.old self.new }
    {
        match self.csrs.csr_access(op, csr, operand, lines) {
            Ok(old) => self.compute(rd, old),
            Err(_) => fault(Cause::IllegalInstruction, word),
        }
    }

    /// Returns from a trap.
    fn return_from_trap(&mut self) -> Performed
        ensures { IsPerformed (returns_from_trap self.old.state) result self.old self.new }
    {
        self.pc = self.csrs.mret();
        Ok(None)
    }

    /// Executes an instruction, of which `word` is the word.
    pub(crate) fn execute(&mut self, word: u32, instruction: Instr, lines: Lines) -> Performed
        ensures { IsPerformed (effect self.old.layout self.old.state lines word instruction) result self.old self.new }
    {
        match instruction {
            Instr::Lui { rd, immediate } => self.compute(rd, immediate.value() * 4096),
            Instr::Auipc { rd, immediate } => {
                let value = self.pc.wrapping_add(immediate.value() * 4096);
                self.compute(rd, value)
            }
            Instr::Jal { rd, offset } => {
                let target = self.pc.wrapping_add(offset.word());
                self.jump(rd, target)
            }
            Instr::Jalr { rd, rs1, offset } => {
                let target = self.address(rs1, offset) / 2 * 2;
                self.jump(rd, target)
            }
            Instr::Branch {
                condition,
                rs1,
                rs2,
                offset,
            } => {
                let is_taken = branch_taken(condition, self.register(rs1), self.register(rs2));
                let target = self.pc.wrapping_add(offset.word());
                self.branch(is_taken, target)
            }
            Instr::Load {
                form,
                rd,
                rs1,
                offset,
            } => {
                let address = self.address(rs1, offset);
                self.load(form, rd, address)
            }
            Instr::Store {
                width,
                rs1,
                rs2,
                offset,
            } => {
                let address = self.address(rs1, offset);
                let word = self.register(rs2);
                self.store(width, address, word)
            }
            Instr::OpImmediate {
                op,
                rd,
                rs1,
                immediate,
            } => {
                let value = alu(op.operation(), self.register(rs1), immediate.word());
                self.compute(rd, value)
            }
            Instr::Shift {
                op,
                rd,
                rs1,
                amount,
            } => {
                let value = alu(op.operation(), self.register(rs1), amount.value());
                self.compute(rd, value)
            }
            Instr::Op { op, rd, rs1, rs2 } => {
                let value = alu(op, self.register(rs1), self.register(rs2));
                self.compute(rd, value)
            }
            Instr::Fence | Instr::Wfi => self.pass(),
            Instr::FenceI => self.fence_instructions(),
            Instr::Csr {
                op,
                rd,
                csr,
                source,
            } => {
                let operand = CsrOperand::new(source, &self.registers);
                self.access_csr(word, op, rd, csr, operand, lines)
            }
            Instr::Ecall => fault(Cause::EnvironmentCall, 0),
            Instr::Ebreak => fault(Cause::Breakpoint, 0),
            Instr::Mret => self.return_from_trap(),
        }
    }

    /// The address that a register and an offset make.
    fn address(&self, register: Reg, offset: Immediate) -> u32
        ensures { result ≡ sum (register_of self.now.state register) (modulo_word offset) }
    {
        self.register(register).wrapping_add(offset.word())
    }
}
