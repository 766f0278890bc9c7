ghost use Rattle.std.specs.Prelude.{◌≡◌, ◌+◌, ◌&&◌, true, false, if◌then◌else◌, Some, None, map};
ghost use Rattle.rv_isa.specs.declared.broadcast.Message.{Message as MessageOf};
ghost use Rattle.rv_isa.specs.declared.issues.Issue.{Issue as IssueOf};
ghost use Rattle.rv_rob.specs.Entry.{predicting};
ghost use Rattle.rv_rob.specs.ReorderBuffer.{changed, cut_from, entry_of};
ghost use Rattle.rv_rob.specs.declared.entry.Entry.{Entry as EntryOf};
ghost use Rattle.rv_isa.specs.PerKind.{for_each};
ghost use Rattle.rv_stations.specs.Pool.{woken_pool};
ghost use Rattle.rv_stores.specs.Store.{answered};
ghost use Rattle.rv_hardware.specs.Broadcast.{broadcast, broadcast_turn, is_mispredicted, mends_early};
ghost use Rattle.rv_hardware.specs.InFlight.{store_of_message};
ghost use Rattle.rv_isa.specs.Instruction.{is_branch_or_jump, is_store};
ghost use Rattle.rv_hardware.specs.Squash.{redirected};
ghost use Rattle.rv_core.specs.InExecution.{AreOthers, IsRunning};
ghost use Rattle.rv_core.specs.Turns.{turn_of};

use crate::parts::Parts;
use rv_decode::Decoded;
use rv_isa::{Message, Recovery, StoreAccess};
use rv_rob::{Entry, Rob, Stage};
use rv_stations::Stations;
use rv_stores::StoreQueue;

fn is_mispredicted(entry: &Entry, message: &Message) -> bool
    ensures { result ≡ is_mispredicted entry.now message.now }
{
    entry.instruction.is_branch_or_jump()
        && message.fault.is_none()
        && message.next_pc != entry.predicted_next
}

impl Parts {
    /// Broadcast: the oldest results go on the common data bus, up to its width.
    pub(crate) fn broadcast(&mut self)
        ensures { self.new ≡ broadcast self.old }
    {
        for _ in 0..self.values.bus_width {
            if !self.broadcast_one() {
                return;
            }
        }
    }

    // Broadcasts the oldest result, and returns whether the phase goes on.
    fn broadcast_one(&mut self) -> bool
        ensures { broadcast_turn self.old ≡ turn_of result self.new }
    {
        let Some(pending) = self.bus.grant_one(self.cycle) else {
            return false;
        };
        let seq = pending.seq;
        let goes_on = send(
            &self.rob,
            &mut self.stations,
            &mut self.stores,
            self.values.recovery,
            seq,
        );
        self.rob.finish(seq, self.cycle);
        let Some(next_pc) = goes_on else {
            return true;
        };
        self.recover(seq, next_pc);
        false
    }

    // Squashes everything younger than a branch or a jump, and begins to fetch anew where it goes on.
    fn recover(&mut self, seq: u64, next_pc: u32)
        requires early { mends_early self.old.values.recovery ≡ true }
        requires jump { (e : EntryOf) × (entry_of seq self.old.rob.retired self.old.rob.entries ≡ Some e)
            × (is_branch_or_jump e.instruction ≡ true) }
        ensures { self.new ≡ record self.old {
          rob = cut_from (seq + 1) (changed (predicting next_pc) seq self.old.rob);
          front = redirected next_pc self.old.front;
        } }
    {
        self.rob.correct_prediction(seq, next_pc);
        let from = seq + 1;
        self.rob.cut(from);
        self.stations.squash(from);
        self.bus.squash(from);
        self.stores.squash(from);
        self.rename.restore(seq);
        self.front.redirect(next_pc);
    }
}

// A store learns what it writes, or that it faults; any other instruction has no place in the queue, and none is looked for.
fn fill_store(
    stores: &mut StoreQueue,
    instruction: &Decoded,
    seq: u64,
    access: &Option<StoreAccess>,
)
    requires apart { is_store instruction.now ≡ false → AreOthers seq stores.old.stores }
    ensures { stores.new ≡ record stores.old {
      stores = map (answered seq (store_of_message access.now))
          stores.old.stores;
    } }
{
    if !instruction.is_store() {
        return;
    }
    match *access {
        Some(access) => stores.fill(seq, access),
        None => stores.fill_fault(seq),
    }
}

// The bus carries the result of an instruction in execution to the stations and to the store queue. Returns where fetch
// begins anew, where early recovery mends a wrong prediction.
fn send(
    rob: &Rob,
    stations: &mut Stations,
    stores: &mut StoreQueue,
    recovery: Recovery,
    seq: u64,
) -> Option<u32>
    requires apart { (e : EntryOf) → entry_of seq rob.now.retired rob.now.entries ≡ Some e →
        is_store e.instruction ≡ false → AreOthers seq stores.old.stores }
    ensures carried { (e : EntryOf) (issue : IssueOf) (message : MessageOf) → IsRunning seq rob.now e issue message →
        stations.new ≡ for_each (woken_pool seq message.value) stations.old }
    ensures stored { (e : EntryOf) (issue : IssueOf) (message : MessageOf) → IsRunning seq rob.now e issue message →
        stores.new ≡ record stores.old {
          stores = map (answered seq (store_of_message message.store))
              stores.old.stores;
        } }
    ensures goes_on { (e : EntryOf) (issue : IssueOf) (message : MessageOf) → IsRunning seq rob.now e issue message →
        result ≡ (if mends_early recovery && is_mispredicted e message then Some message.next_pc else None) }
{
    let Some(entry) = rob.get(seq) else {
        return None;
    };
    let Stage::Running { message, .. } = &entry.stage else {
        return None;
    };
    stations.wake(seq, message.value);
    fill_store(stores, &entry.instruction, seq, &message.store);
    if mends_early(recovery) && is_mispredicted(entry, message) {
        Some(message.next_pc)
    } else {
        None
    }
}

fn mends_early(recovery: Recovery) -> bool
    ensures { result ≡ mends_early recovery }
{
    match recovery {
        Recovery::Commit => false,
        Recovery::Early => true,
    }
}
