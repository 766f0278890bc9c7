ghost use Rattle.std.specs.Prelude.{◌≡◌, ◌≢◌, ◌+◌, ◌*◌, ◌<◌, ◌≤◌, ◌++◌, [], ℕ, None, Some, IfSome, IsTrue, false};
ghost use Rattle.std.specs.Option.{option_map};
ghost use Rattle.std.specs.FinSet as set;
ghost use Rattle.rv_isa.specs.Cause.{code_of};
ghost use Rattle.rv_isa.specs.Instruction.{is_serialising, target_of_word};
ghost use Rattle.rv_arch.specs.Due.{due};
ghost use Rattle.rv_front.specs.Guide.{AreTaught};
ghost use Rattle.rv_memory.specs.Memory.{word_of};
ghost use Rattle.rv_memory.specs.Stale.{is_covered};
ghost use Rattle.rv_rename.specs.Renaming.{without_checkpoint};
ghost use Rattle.rv_rob.specs.ReorderBuffer.{head_retired};
ghost use Rattle.rv_rob.specs.declared.entry.Entry.{Entry as EntryOf};
ghost use Rattle.rv_hardware.specs.Commit.{commit};
ghost use Rattle.rv_hardware.specs.InFlight.{broadcast_of};
ghost use Rattle.rv_hardware.specs.Retirement.{row_of, stale_after, with_result};
ghost use Rattle.rv_hardware.specs.Squash.{with_trap};
ghost use Rattle.rv_core.specs.HeadTurn.{IsHead, IsKept, IsTurn, lessons_left, step_taken, stop_after, stop_with};
ghost use Rattle.rv_hardware.specs.Lessons.{lesson_of, lessons_of};
ghost use Rattle.rv_core.specs.Reached.{IsBegun};
ghost use Rattle.rv_core.specs.Retiring.{registers_with, with_commit, without_target};
ghost use Rattle.rv_core.specs.Steps.{HasRoom, Takes};

use crate::head::{HeadTurn, message_of, waits_for_result};
use crate::parts::Parts;
use crate::steps::Steps;
use rv_arch::Stop;
use rv_front::Predictor;
use rv_hardware::Step;
use rv_isa::{Fault, Message, Reg, StoreAccess};
use rv_memory::StaleMap;
use rv_rename::RenameMap;
use rv_rob::{Entry, Rob};
use rv_stores::StoreQueue;

const INTERRUPT: u32 = 0x8000_0000;

// Writes a value to an instruction's target, if it has one.
fn write_target(registers: &mut [u32; 32], target: &Option<Reg>, value: u32)
    ensures { registers.new
        ≡ registers_with (option_map (λ (register : ℕ). (register, value)) target.now) registers.old }
{
    if let Some(register) = *target {
        registers[register.index()] = value;
    }
}

// The oldest instruction leaves the reorder buffer and the rename map.
fn retire_oldest(rob: &mut Rob, rename: &mut RenameMap, target: &Option<Reg>)
    ensures rob { rob.new ≡ head_retired rob.old }
    ensures rename { rename.new ≡ without_checkpoint rob.old.retired
        (without_target rob.old.retired target.now rename.old) }
{
    let seq = rob.retired();
    if let Some(register) = *target {
        rename.retire(register, seq);
    }
    rename.drop_checkpoint(seq);
    rob.pop_head();
}

// A retired store waits for the port, and makes its word stale.
fn commit_store(stores: &mut StoreQueue, stale: &mut StaleMap, access: &Option<StoreAccess>)
    requires { IfSome access.now (λ a. IsTrue (is_covered stale.old a.address)) }
    ensures stores { stores.new ≡ with_commit access.now stores.old }
    ensures stale { stale.new ≡ record stale.old { words = stale_after access.now stale.old.words } }
{
    if let Some(access) = access {
        stores.commit_oldest();
        stale.mark(access.address);
    }
}

impl Parts {
    /// Commit: a due interrupt is taken; else the heads of the reorder buffer retire or trap, up to a width. Returns why
    /// the run stops, if it does.
    pub(crate) fn commit(
        &mut self,
        predictor: &mut dyn Predictor,
        steps: &mut Steps,
    ) -> Option<Stop>
        requires numbers { self.old.rob.retired ≤ 8 * self.old.cycle }
        requires room { HasRoom steps.old 8 }
        requires reached { IsBegun self.old }
        ensures hardware { self.new ≡ (commit set.contains self.old).hardware }
        ensures steps { Takes steps.old steps.new (commit set.contains self.old).steps }
        ensures stop { result ≡ (commit set.contains self.old).stop }
        ensures taught { AreTaught (known predictor.old) (lessons_of (commit set.contains self.old).steps self.new.pc)
            (known predictor.new) }
    {
        if let Some(code) = self.due_interrupt() {
            let step = self.interrupt(INTERRUPT + code);
            steps.take(step);
            return None;
        }
        for _ in 0..self.values.commit_width {
            match self.commit_head(predictor, steps) {
                HeadTurn::Ends(stop) => return stop,
                HeadTurn::GoesOn => {}
            }
        }
        None
    }

    // The code of the interrupt that is due, if one is.
    fn due_interrupt(&self) -> Option<u32>
        ensures due { result ≡ due self.now.csrs self.now.lines }
        ensures code { IfSome result (λ code. code ≤ 11) }
    {
        self.csrs.due_interrupt(self.lines)
    }

    fn interrupt(&mut self, cause: u32) -> Step
        ensures hardware { self.new ≡ with_trap cause 0 self.old }
        ensures step { result ≡ Step.Interrupt self.old.pc cause self.old.cycle }
    {
        let step = Step::Interrupt {
            pc: self.pc,
            cause,
            cycle: self.cycle,
        };
        self.take_trap(cause, 0);
        step
    }

    // Enters the handler of a trap or an interrupt for the committed pc.
    fn take_trap(&mut self, cause: u32, value: u32)
        ensures { self.new ≡ with_trap cause value self.old }
    {
        self.pc = self.csrs.enter_trap(self.pc, cause, value);
        self.flush();
    }

    // The oldest instruction traps.
    pub(crate) fn trap(&mut self, pc: u32, fault: Fault) -> Option<Step>
        ensures hardware { self.new ≡ with_trap (code_of fault.cause) fault.value self.old }
        ensures step { result ≡ Some (Step.Trap pc fault.cause fault.value self.old.cycle) }
    {
        let step = Step::Trap {
            pc,
            cause: fault.cause,
            value: fault.value,
            cycle: self.cycle,
        };
        self.take_trap(fault.cause.code(), fault.value);
        Some(step)
    }

    // One turn: the head, if there is one. Its step is taken, and the predictor learns from it.
    fn commit_head(&mut self, predictor: &mut dyn Predictor, steps: &mut Steps) -> HeadTurn
        requires retired { self.old.rob.retired < 8 * self.old.cycle + 8 }
        requires room { HasRoom steps.old 1 }
        ensures turn { IsTurn self.old self.new steps.old steps.new (known predictor.old) (known predictor.new) result }
        ensures kept { IsKept self.old self.new }
    {
        let Some(head) = self.rob.head() else {
            return HeadTurn::Ends(None);
        };
        if self.stale.is_stale(head.pc) {
            return HeadTurn::Ends(Some(Stop::Stale(head.pc)));
        }
        // Mostly the head waits: what follows has the large variables.
        if waits_for_result(head) {
            return HeadTurn::Ends(None);
        }
        if head.instruction.is_serialising() {
            let step = self.serial_head();
            return end_with(predictor, steps, &step, self.pc);
        }
        self.finish_head(predictor, steps)
    }

    // An instruction whose result is known traps by its fault, if it has one, or retires.
    fn finish_head(&mut self, predictor: &mut dyn Predictor, steps: &mut Steps) -> HeadTurn
        requires retired { self.old.rob.retired < 8 * self.old.cycle + 8 }
        requires room { HasRoom steps.old 1 }
        requires fresh { (e : EntryOf) → IsHead self.old e → set.contains self.old.stale (word_of e.pc) ≡ false }
        requires plain { (e : EntryOf) → IsHead self.old e → is_serialising e.instruction ≡ false }
        ensures turn { IsTurn self.old self.new steps.old steps.new (known predictor.old) (known predictor.new) result }
        ensures kept { IsKept self.old self.new }
    {
        let Some(head) = self.rob.head() else {
            return HeadTurn::Ends(None);
        };
        let entry = *head;
        let Some(message) = message_of(&entry.stage) else {
            return HeadTurn::Ends(None);
        };
        if let Some(fault) = message.fault {
            let step = self.trap(entry.pc, fault);
            return end_with(predictor, steps, &step, self.pc);
        }
        let target = entry.instruction.target();
        steps.take_row(head, target, message.value, self.cycle);
        predictor.learn(entry.pc, entry.word.unwrap_or(0), message.next_pc);
        self.retire(&entry, &message, &target);
        if message.next_pc == entry.predicted_next {
            return HeadTurn::GoesOn;
        }
        self.flush();
        HeadTurn::Ends(None)
    }

    // The head retires with its result.
    fn retire(&mut self, entry: &Entry, message: &Message, target: &Option<Reg>)
        requires head { IsHead self.old entry.now }
        requires known { broadcast_of entry.now.stage ≡ Some message.now }
        requires sound { message.now.fault ≡ None }
        requires target { target.now ≡ target_of_word entry.now.instruction }
        requires in_range { IfSome target.now (λ register. (register ≢ 0) × (register < 32)) }
        requires room { self.old.rob.retired < 8 * self.old.cycle + 8 }
        ensures { self.new ≡ with_result entry.now message.now self.old }
    {
        write_target(&mut self.registers, target, message.value);
        commit_store(&mut self.stores, &mut self.stale, &message.store);
        retire_oldest(&mut self.rob, &mut self.rename, target);
        self.pc = message.next_pc;
    }
}

// Takes the step that ends the phase, if there is one, and teaches the predictor where the program goes on after it.
fn end_with(
    predictor: &mut dyn Predictor,
    steps: &mut Steps,
    step: &Option<Step>,
    next: u32,
) -> HeadTurn
    requires { HasRoom steps.old 1 }
    ensures end { result ≡ HeadTurn.Ends (stop_after step.now) }
    ensures taken { Takes steps.old steps.new (step_taken step.now) }
    ensures taught { AreTaught (known predictor.old) (lessons_left step.now next) (known predictor.new) }
{
    let Some(step) = *step else {
        return HeadTurn::Ends(None);
    };
    teach(predictor, &step, next);
    steps.take(step);
    HeadTurn::Ends(stop_with(&step))
}

// Why the run stops with a step: a trap with cause 3 is a breakpoint.
fn stop_with(step: &Step) -> Option<Stop>
    ensures { result ≡ stop_with step.now }
{
    if step.is_breakpoint() {
        Some(Stop::Breakpoint)
    } else {
        None
    }
}

// The predictor learns where a retired instruction went on; traps and interrupts teach nothing.
fn teach(predictor: &mut dyn Predictor, step: &Step, next: u32)
    ensures { AreTaught (known predictor.old) (lesson_of step.now next) (known predictor.new) }
{
    if let Step::Retired(row) = step {
        predictor.learn(row.pc, row.word, next);
    }
}
