ghost use Rattle.std.specs.Prelude.{◌≡◌, codes, map};
ghost use Rattle.rv_states.specs.Json.{also, array};
ghost use Rattle.rv_states.specs.Queue.{access_text, filling_text, state_name, store_json};
ghost use Rattle.rv_text.specs.Said.{Says};

use crate::array::{Values, write_array_member};
use crate::json::{Member, Value, write_digits, write_front, write_number};
use rv_isa::StoreAccess;
use rv_stores::{Store, StorePhase, StoreQueue, StoreState};
use rv_text::Sink;
use std::io::Write;

/// Bytes, as an array has them.
#[derive(Drop)]
struct Bytes<'a> {
    bytes: &'a [u8],
}

impl Values for Bytes<'_> {
    ghost use Rattle.std.specs.Prelude.{map};
    ghost use Rattle.rv_states.specs.Json.{numeral};

    ghost values = { λ b. map numeral b.bytes.now };

    fn count(&self) -> usize {
        self.bytes.len()
    }

    fn write_value<W: Write>(&self, out: &mut Sink<'_, W>, place: usize) {
        write_digits(out, u64::from(self.bytes[place]))
    }
}

// How far a store has come.
fn state_name(state: &StoreState) -> &'static str
    ensures { result.now ≡ state_name state.now }
{
    match state {
        StoreState::Waiting => "waiting",
        StoreState::Faulted => "faulted",
        StoreState::Filled { phase, .. } => match phase {
            StorePhase::Speculative => "speculative",
            StorePhase::Committed => "committed",
            StorePhase::Draining => "draining",
        },
    }
}

#[tactic(auto, using(rv_text::proofs::Saying::says_both), unfolding(crate::specs::Queue::access_text))]
fn write_access<W: Write>(out: &mut Sink<'_, W>, access: &StoreAccess)
    ensures { Says W.contents out.old out.new (access_text access.now) }
{
    write_number(out, "address", u64::from(access.address));
    let bytes = access.bytes.as_slice();
    write_array_member(out, "bytes", &Bytes { bytes })
}

fn write_filling<W: Write>(out: &mut Sink<'_, W>, state: &StoreState)
    ensures { Says W.contents out.old out.new (filling_text state.now) }
{
    match state {
        StoreState::Waiting | StoreState::Faulted => {}
        StoreState::Filled { access, .. } => write_access(out, access),
    }
}

#[tactic(auto, using(rv_text::proofs::Saying::says_both), unfolding(crate::specs::Queue::head_text, crate::specs::Queue::store_json))]
fn write_store<W: Write>(out: &mut Sink<'_, W>, store: &Store)
    ensures { Says W.contents out.old out.new (store_json store.now) }
{
    write_front(
        out,
        "sequence",
        store.seq,
        &[Member {
            name: "state",
            value: Value::Name(state_name(&store.state)),
        }],
    );
    write_filling(out, &store.state);
    out.put(b"}")
}

/// The stores of the queue, as an array has them.
#[derive(Drop)]
struct Stores<'a> {
    queue: &'a StoreQueue,
}

impl Values for Stores<'_> {
    ghost use Rattle.std.specs.Prelude.{map};
    ghost use Rattle.rv_states.specs.Queue.{store_json};

    ghost values = { λ s. map store_json s.queue.now.stores };

    fn count(&self) -> usize {
        self.queue.len()
    }

    fn write_value<W: Write>(&self, out: &mut Sink<'_, W>, place: usize) {
        match self.queue.get(place) {
            Some(store) => write_store(out, store),
            None => {}
        }
    }
}

/// Writes the member that has the store queue.
pub fn write_store_queue<W: Write>(out: &mut Sink<'_, W>, queue: &StoreQueue)
    ensures { Says W.contents out.old out.new (also (codes "store_queue") (array (map store_json queue.now.stores))) }
{
    write_array_member(out, "store_queue", &Stores { queue })
}
