ghost use Rattle.std.specs.Prelude.{codes};
ghost use Rattle.rv_states.specs.Json.{also};
ghost use Rattle.rv_states.specs.State.{in_flight_text, parts_text, state_json};
ghost use Rattle.rv_text.specs.Said.{Says};

use crate::array::write_array_member;
use crate::entries::Entries;
use crate::fetched::write_fetch_buffer;
use crate::json::{write_key, write_number};
use crate::observed::write_observed;
use crate::queue::write_store_queue;
use crate::units::write_units;
use rv_text::Sink;
use rv_watch::ShownHardware;
use std::io::Write;

// What is in flight.
fn write_in_flight<W: Write>(out: &mut Sink<'_, W>, hardware: &ShownHardware<'_>)
    ensures { Says W.contents out.old out.new (in_flight_text hardware.now) }
{
    let buffer = hardware.reorder_buffer();
    let registers = &hardware.observe().regs;
    write_array_member(out, "reorder_buffer", &Entries { buffer, registers });
    write_fetch_buffer(out, hardware.front())
}

// What the parts hold beside that.
#[tactic(auto, using(rv_text::proofs::Saying::says_both), unfolding(crate::specs::State::parts_text))]
fn write_parts<W: Write>(out: &mut Sink<'_, W>, hardware: &ShownHardware<'_>)
    ensures { Says W.contents out.old out.new (parts_text hardware.now) }
{
    write_units(out, hardware.units());
    write_store_queue(out, hardware.store_queue());
    write_number(out, "port_free", hardware.port_free())
}

/// Writes the member that has the hardware.
#[tactic(auto, using(rv_text::proofs::Saying::says_both), unfolding(crate::specs::Json::also, crate::specs::State::state_json))]
pub(crate) fn write_state<W: Write>(out: &mut Sink<'_, W>, hardware: &ShownHardware<'_>)
    ensures { Says W.contents out.old out.new (also (codes "state") (state_json hardware.now)) }
{
    write_key(out, "state");
    write_observed(out, &hardware.observe());
    write_in_flight(out, hardware);
    write_parts(out, hardware);
    out.put(b"}")
}
