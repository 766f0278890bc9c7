ghost use Rattle.std.specs.Prelude.{◌≡◌, ◌+◌, ◌*◌, ◌<◌, List, Some, false, true};
ghost use Rattle.std.specs.FinSet as set;
ghost use Rattle.rv_isa.specs.Instruction.{is_serialising};
ghost use Rattle.rv_isa.specs.declared.instructions.Instr.TheVariants as instr;
ghost use Rattle.rv_arch.specs.State.{write_of};
ghost use Rattle.rv_memory.specs.Memory.{word_of};
ghost use Rattle.rv_rob.specs.ReorderBuffer.{head_retired};
ghost use Rattle.rv_rob.specs.declared.entry.Entry.{Entry as EntryOf};
ghost use Rattle.rv_hardware.specs.Commit.{commit_turn, execute_head, fence_instructions};
ghost use Rattle.rv_hardware.specs.Commit.{with_write_back, write_back_time};
ghost use Rattle.rv_hardware.specs.Retirement.{row_of};
ghost use Rattle.rv_hardware.specs.Squash.{flushed};
ghost use Rattle.rv_hardware.specs.Repeated.{Ends as PhaseEnds};
ghost use Rattle.rv_core.specs.HeadTurn.{IsHead, IsKept, committing, instruction_of_access, turn_ended};
ghost use Rattle.rv_core.specs.Retiring.{registers_with};

use crate::head::{CsrAccess, Role, illegal, role_of, row_of};
use crate::parts::{Parts, squash_all};
use rv_arch::CsrOperand;
use rv_hardware::Step;
use rv_isa::Reg;
use rv_rob::Entry;

// Writes a register, where there is one to write.
fn write(registers: &mut [u32; 32], written: &Option<(Reg, u32)>)
    ensures { registers.new ≡ registers_with written.now registers.old }
{
    if let Some((register, value)) = *written {
        registers[register.index()] = value;
    }
}

// The write of a value to a register, which x0 drops.
fn write_of(register: Reg, value: u32) -> Option<(Reg, u32)>
    ensures { result ≡ write_of register value }
{
    if register == Reg::ZERO {
        None
    } else {
        Some((register, value))
    }
}

impl Parts {
    // The turn of a serialising head that is not stale.
    pub(crate) fn serial_head(&mut self) -> Option<Step>
        requires room { self.old.rob.retired < 8 * self.old.cycle + 8 }
        requires fresh { (e : EntryOf) → IsHead self.old e → set.contains self.old.stale (word_of e.pc) ≡ false }
        requires serial { (e : EntryOf) → IsHead self.old e → is_serialising e.instruction ≡ true }
        ensures turn { (steps : List Step) →
            commit_turn set.contains (committing self.old steps) ≡ turn_ended self.new steps result }
        ensures kept { IsKept self.old self.new }
    {
        let Some(head) = self.rob.head() else {
            return None;
        };
        let entry = *head;
        match role_of(entry.instruction.instruction()) {
            Role::FenceInstructions => self.fence_instructions(&entry),
            Role::CsrAccess(access) => self.access_csr(&entry, access),
            Role::TrapReturn => self.return_from_trap(&entry),
            Role::WaitsForResult => None,
        }
    }

    // A CSR instruction executes at the head.
    fn access_csr(&mut self, entry: &Entry, access: CsrAccess) -> Option<Step>
        requires head { IsHead self.old entry.now }
        requires room { self.old.rob.retired < 8 * self.old.cycle + 8 }
        ensures turn { (steps : List Step) →
            PhaseEnds (execute_head entry.now (instruction_of_access access) (committing self.old steps))
            ≡ turn_ended self.new steps result }
        ensures kept { IsKept self.old self.new }
    {
        let operand = CsrOperand::new(access.source, &self.registers);
        match self
            .csrs
            .csr_access(access.op, access.csr, operand, self.lines)
        {
            Ok(old) => {
                let next = self.pc.wrapping_add(4);
                self.serialise(entry, write_of(access.rd, old), next)
            }
            Err(_) => self.trap(entry.pc, illegal(entry)),
        }
    }

    // MRET executes at the head.
    fn return_from_trap(&mut self, entry: &Entry) -> Option<Step>
        requires head { IsHead self.old entry.now }
        requires room { self.old.rob.retired < 8 * self.old.cycle + 8 }
        ensures turn { (steps : List Step) → PhaseEnds (execute_head entry.now instr.Mret (committing self.old steps))
            ≡ turn_ended self.new steps result }
        ensures kept { IsKept self.old self.new }
    {
        let next = self.csrs.mret();
        self.serialise(entry, None, next)
    }

    // A serialising instruction retires, and everything younger is fetched anew.
    fn serialise(&mut self, entry: &Entry, written: Option<(Reg, u32)>, next: u32) -> Option<Step>
        requires head { IsHead self.old entry.now }
        requires room { self.old.rob.retired < 8 * self.old.cycle + 8 }
        ensures hardware { self.new ≡ flushed (record self.old {
          pc = next;
          registers = registers_with written self.old.registers;
          rob = head_retired self.old.rob;
        }) }
        ensures step { result ≡ Some (row_of entry.now written self.old.cycle) }
    {
        let step = row_of(entry, written, self.cycle);
        write(&mut self.registers, &written);
        self.pc = next;
        self.rob.pop_head();
        squash_all(
            &mut self.rob,
            &mut self.stations,
            &mut self.bus,
            &mut self.rename,
            &mut self.stores,
        );
        self.front.redirect(next);
        Some(step)
    }

    // FENCE.I waits for the retired stores and the port, and retires in the cycle in which nothing is left to write back.
    fn fence_instructions(&mut self, entry: &Entry) -> Option<Step>
        requires head { IsHead self.old entry.now }
        requires fence { entry.now.instruction ≡ Some instr.FenceI }
        requires room { self.old.rob.retired < 8 * self.old.cycle + 8 }
        ensures turn { (steps : List Step) → PhaseEnds (fence_instructions entry.now (committing self.old steps))
            ≡ turn_ended self.new steps result }
        ensures kept { IsKept self.old self.new }
    {
        if !self.stores.is_empty() || !self.is_port_idle() {
            return None;
        }
        if self.write_back() > 0 {
            return None;
        }
        self.stale.clear();
        let next = self.pc.wrapping_add(4);
        self.serialise(entry, None, next)
    }

    // Writes every dirty line of the cache to RAM, and returns for how many cycles that keeps the port busy.
    fn write_back(&mut self) -> u64
        ensures hardware { self.new ≡ with_write_back self.old }
        ensures time { result ≡ write_back_time self.old }
    {
        let lines = self.cache.write_back_all();
        let busy = u64::from(lines) * u64::from(self.values.cache.write_back);
        self.port_free = self.cycle + busy;
        busy
    }
}
