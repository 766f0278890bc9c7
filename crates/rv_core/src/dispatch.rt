ghost use Rattle.std.specs.Prelude.{◌≡◌, ℕ, ◌<◌, ◌≤◌, ◌^◌, ◌&&◌, nat_le, length};
ghost use Rattle.std.specs.Prelude.{true, false, None, Some, IfSome, option_and_then};
ghost use Rattle.std.specs.List.{AllPairs, list_any};
ghost use Rattle.rv_isa.specs.Instruction.{is_branch_or_jump, is_serialising, is_store, target_of_word, kind_of_word};
ghost use Rattle.rv_isa.specs.Numbered.{AreBelow};
ghost use Rattle.rv_isa.specs.PerKind.{at_kind};
ghost use Rattle.rv_isa.specs.declared.operations.Kind.{Kind as KindOf};
ghost use Rattle.rv_rename.specs.Renaming.{CanDefine, CanCheckpoint};
ghost use Rattle.rv_decode.specs.Decodes.{instruction_of};
ghost use Rattle.rv_rob.specs.ReorderBuffer.{next_number, pushed};
ghost use Rattle.rv_stations.specs.Waiting.{IsOperand, seq_of};
ghost use Rattle.rv_stores.specs.Queue.{CanEnter};
ghost use Rattle.rv_hardware.specs.Broadcast.{mends_early};
ghost use Rattle.rv_hardware.specs.Dispatch.{dispatch, dispatch_turn, entry_of_fetched};
ghost use Rattle.rv_hardware.specs.Dispatch.{first_stage, reason_of, stall_of};
ghost use Rattle.rv_hardware.specs.Hardware.{Hardware};
ghost use Rattle.rv_hardware.specs.InFlight.{broadcast_of};
ghost use Rattle.rv_core.specs.Entering.{are_full_for, with_instruction, with_jump, with_store, with_target};
ghost use Rattle.rv_watch.specs.Registers.{operand_by, status_after, values_in};
ghost use Rattle.rv_core.specs.Ties.{operand_of, producers_of};
ghost use Rattle.rv_core.specs.Reported.{dispatch_left, dispatching};

use crate::execute::result_at_dispatch;
use crate::parts::Parts;
use rv_decode::Decoded;
use rv_front::Fetched;
use rv_hardware::Stall;
use rv_isa::{Kind, Recovery, Reg};
use rv_rename::RenameMap;
use rv_rob::{Entry, Rob, Stage};
use rv_stations::{Operand, Stations, Waiting};
use rv_stores::StoreQueue;

impl Parts {
    /// Dispatch: fetched instructions enter the reorder buffer in order, up to a width. Returns how many did, and what
    /// the first that waited, waited for, where none did.
    pub(crate) fn dispatch(&mut self) -> (u32, Option<Stall>)
        ensures hardware { self.new ≡ (dispatch self.old).hardware }
        ensures dispatched { result.0 ≡ (dispatch self.old).dispatched }
        ensures stall { result.1 ≡ stall_of (dispatch self.old) }
    {
        let width = self.values.dispatch_width;
        for dispatched in 0..width {
            if let Some(stall) = self.dispatch_one() {
                return (dispatched, reason_for(dispatched, stall));
            }
        }
        (width, None)
    }

    // Dispatches the oldest fetched instruction, or returns what it waits for.
    fn dispatch_one(&mut self) -> Option<Stall>
        ensures { (dispatched : ℕ) →
            dispatch_turn (dispatching self.old dispatched) ≡ dispatch_left result self.new dispatched }
    {
        let Some(fetched) = self.front.peek() else {
            return Some(Stall::Fetch);
        };
        let kind = fetched.instruction.kind();
        if let Some(stall) = self.reason_to_wait(fetched, kind) {
            return Some(stall);
        }
        let fetched = self.front.take();
        self.enter(&fetched, kind);
        None
    }

    // The first of the reasons for which an instruction waits.
    fn reason_to_wait(&self, fetched: &Fetched, kind: Option<Kind>) -> Option<Stall>
        requires kind { kind ≡ kind_of_word fetched.now.instruction }
        ensures { result ≡ reason_of self.now fetched.now }
    {
        if is_serial(&self.rob) {
            return Some(Stall::Serial);
        }
        if self.rob.is_full() {
            return Some(Stall::Rob);
        }
        if are_full_for(&self.stations, kind) {
            return Some(Stall::Station);
        }
        if waits_for_queue(&self.stores, &fetched.instruction) {
            return Some(Stall::Store);
        }
        None
    }

    // Enters an instruction into the structures that it needs, the reorder buffer last.
    fn enter(&mut self, fetched: &Fetched, kind: Option<Kind>)
        requires kind { kind ≡ kind_of_word fetched.now.instruction }
        requires waits_not { reason_of self.old fetched.now ≡ None }
        requires decoded { fetched.now.instruction ≡ option_and_then instruction_of fetched.now.word }
        ensures { self.new ≡ record self.old { rob = pushed (entry_of_fetched self.old fetched.now) self.old.rob } }
    {
        let seq = self.rob.next_number();
        station(
            &mut self.stations,
            &self.rename,
            &self.rob,
            &self.registers,
            fetched,
            kind,
            seq,
        );
        enter_store(&mut self.stores, &fetched.instruction, seq);
        define_target(&mut self.rename, &fetched.instruction, seq);
        checkpoint_jump(
            &mut self.rename,
            self.values.recovery,
            &fetched.instruction,
            seq,
        );
        push_entry(&mut self.rob, fetched, kind, self.cycle);
    }
}

// A cycle that dispatched something did not stall.
fn reason_for(dispatched: u32, stall: Stall) -> Option<Stall>
    ensures { (h : Hardware) →
        result ≡ stall_of (record { hardware = h; dispatched = dispatched; waits_for = Some stall }) }
{
    if dispatched == 0 { Some(stall) } else { None }
}

// Whether a serialising instruction is in flight: it is the youngest then.
fn is_serial(rob: &Rob) -> bool
    requires { AllPairs (λ older younger. is_serialising older.instruction ≡ false) rob.now.entries }
    ensures { result ≡ list_any (λ e. is_serialising e.instruction) rob.now.entries }
{
    match rob.youngest() {
        Some(entry) => entry.instruction.is_serialising(),
        None => false,
    }
}

fn are_full_for(stations: &Stations, kind: Option<Kind>) -> bool
    ensures { result ≡ are_full_for kind stations.now }
{
    match kind {
        Some(kind) => stations.is_full(kind),
        None => false,
    }
}

fn waits_for_queue(stores: &StoreQueue, instruction: &Decoded) -> bool
    ensures { result ≡ (is_store instruction.now && nat_le stores.now.capacity (length stores.now.stores)) }
{
    instruction.is_store() && stores.is_full()
}

// The entry is the youngest. One with a unit waits in a station, a serialising one to be the oldest; any other is
// finished at once.
fn push_entry(rob: &mut Rob, fetched: &Fetched, kind: Option<Kind>, cycle: u64)
    requires room { length rob.old.entries < rob.old.capacity }
    requires numbers { next_number rob.old < 2 ^ 44 }
    requires kind { kind ≡ kind_of_word fetched.now.instruction }
    ensures { (h : Hardware) → h.cycle ≡ cycle → rob.new ≡ pushed (entry_of_fetched h fetched.now) rob.old }
{
    if kind.is_some() || fetched.instruction.is_serialising() {
        rob.push(entering(fetched, cycle, Stage::Waiting));
    } else {
        push_finished(rob, fetched, cycle);
    }
}

// Few instructions are finished at once: what builds their messages stands apart from the entries that wait.
#[inline(never)]
fn push_finished(rob: &mut Rob, fetched: &Fetched, cycle: u64)
    requires room { length rob.old.entries < rob.old.capacity }
    requires numbers { next_number rob.old < 2 ^ 44 }
    requires no_unit { kind_of_word fetched.now.instruction ≡ None }
    requires waits_not { is_serialising fetched.now.instruction ≡ false }
    ensures { (h : Hardware) → h.cycle ≡ cycle → rob.new ≡ pushed (entry_of_fetched h fetched.now) rob.old }
{
    let stage = Stage::Finished {
        issue: None,
        cycle,
        message: result_at_dispatch(fetched.pc, fetched.word, fetched.instruction.instruction()),
    };
    rob.push(entering(fetched, cycle, stage));
}

fn entering(fetched: &Fetched, cycle: u64, stage: Stage) -> Entry
    ensures { (h : Hardware) → h.cycle ≡ cycle → first_stage h fetched.now ≡ stage →
        result ≡ entry_of_fetched h fetched.now }
{
    Entry {
        pc: fetched.pc,
        word: fetched.word,
        instruction: fetched.instruction,
        predicted_next: fetched.predicted,
        fetched: fetched.cycle,
        dispatched: cycle,
        stage,
    }
}

// An instruction with a unit goes into a station of its kind, with what is known of its operands.
fn station(
    stations: &mut Stations,
    rename: &RenameMap,
    rob: &Rob,
    registers: &[u32; 32],
    fetched: &Fetched,
    kind: Option<Kind>,
    seq: u64,
)
    requires kind { kind ≡ kind_of_word fetched.now.instruction }
    requires producers { rename.now.producers ≡ producers_of rob.now.retired rob.now.entries }
    requires numbers { next_number rob.now ≤ 2 ^ 44 }
    requires room { are_full_for (kind_of_word fetched.now.instruction) stations.old ≡ false }
    requires youngest { (kind : KindOf) → AreBelow seq_of seq (at_kind kind stations.old).waiting }
    ensures { stations.new
        ≡ with_instruction (status_after (values_in registers.now) rob.now.retired rob.now.entries) seq fetched.now.pc
        fetched.now.instruction stations.old }
{
    let Some(instruction) = *fetched.instruction.instruction() else {
        return;
    };
    let Some(kind) = kind else {
        return;
    };
    let [first, second] = fetched.instruction.sources();
    let waiting = Waiting {
        seq,
        pc: fetched.pc,
        instruction,
        first: operand_of(rename, rob, registers, first),
        second: operand_of(rename, rob, registers, second),
    };
    stations.insert(kind, waiting);
}

// A register's value, from the registers or a finished instruction, or the tag of the youngest that writes it.
fn operand_of(rename: &RenameMap, rob: &Rob, registers: &[u32; 32], source: Option<Reg>) -> Operand
    requires producers { rename.now.producers ≡ producers_of rob.now.retired rob.now.entries }
    requires numbers { next_number rob.now ≤ 2 ^ 44 }
    ensures operand { result ≡ operand_of
        (status_after (values_in registers.now) rob.now.retired rob.now.entries) source }
    ensures known { IsOperand result }
{
    let Some(register) = source else {
        return Operand::Value(0);
    };
    let Some(producer) = rename.lookup(register) else {
        return Operand::Value(registers[register.index()]);
    };
    match rob.get(producer) {
        Some(entry) => operand_by(producer, &entry.stage),
        None => Operand::Value(0),
    }
}

// What an instruction gives for its target: the value that it brought, or its number.
fn operand_by(seq: u64, stage: &Stage) -> Operand
    requires { seq < 2 ^ 44 }
    ensures operand { result ≡ operand_by seq (broadcast_of stage.now) }
    ensures known { IsOperand result }
{
    match stage {
        Stage::Finished { message, .. } => Operand::Value(message.value),
        _ => Operand::Tag(seq),
    }
}

// The instruction is the youngest that writes its target.
fn define_target(rename: &mut RenameMap, instruction: &Decoded, seq: u64)
    requires { CanDefine seq rename.old }
    ensures defined { rename.new ≡ with_target seq (target_of_word instruction.now) rename.old }
    ensures in_range { IfSome (target_of_word instruction.now) (λ register. register < 32) }
{
    if let Some(register) = instruction.target() {
        rename.define(register, seq);
    }
}

// A branch or a jump notes who writes each register, for a wrong prediction.
fn checkpoint_jump(rename: &mut RenameMap, recovery: Recovery, instruction: &Decoded, seq: u64)
    requires { CanCheckpoint seq rename.old }
    ensures { rename.new ≡ with_jump (mends_early recovery && is_branch_or_jump instruction.now) seq rename.old }
{
    if takes_checkpoint(recovery, instruction) {
        rename.checkpoint(seq);
    }
}

fn takes_checkpoint(recovery: Recovery, instruction: &Decoded) -> bool
    ensures { result ≡ (mends_early recovery && is_branch_or_jump instruction.now) }
{
    match recovery {
        Recovery::Early => instruction.is_branch_or_jump(),
        Recovery::Commit => false,
    }
}

fn enter_store(stores: &mut StoreQueue, instruction: &Decoded, seq: u64)
    requires { is_store instruction.now ≡ true → CanEnter seq stores.old }
    ensures { stores.new ≡ with_store (is_store instruction.now) seq stores.old }
{
    if instruction.is_store() {
        stores.enter(seq);
    }
}
