ghost use Rattle.std.specs.Prelude.{◌≡◌};
ghost use Rattle.rv_hardware.specs.InFlight.{broadcast_of};
ghost use Rattle.rv_isa.specs.Instruction.{kind_of_word, target_of_word};
ghost use Rattle.rv_states.specs.Entry.{cause_of, cost_of, entry_text, fault_of, fault_value_of, finished_in};
ghost use Rattle.rv_states.specs.Entry.{head_text, issued_in, kind_text, next_pc_of, stage_text, value_of};
ghost use Rattle.rv_text.specs.Said.{Says};

use crate::json::{Member, write_front, write_members, write_name};
use rv_isa::{Fault, Message};
use rv_rob::{Entry, Stage};
use rv_text::Sink;
use std::io::Write;

/// What was broadcast of a result, or was known at dispatch.
pub(crate) fn broadcast(stage: &Stage) -> Option<Message>
    ensures { result ≡ broadcast_of stage.now }
{
    match *stage {
        Stage::Waiting | Stage::Running { .. } => None,
        Stage::Finished { message, .. } => Some(message),
    }
}

// The cycle in which a result was known.
fn finished(stage: &Stage) -> Option<u64>
    ensures { result ≡ finished_in stage.now }
{
    match *stage {
        Stage::Waiting | Stage::Running { .. } => None,
        Stage::Finished { cycle, .. } => Some(cycle),
    }
}

// The register that an instruction writes.
fn target_number(entry: &Entry) -> Option<u64>
    ensures { result ≡ target_of_word entry.now.instruction }
{
    match entry.instruction.target() {
        Some(register) => Some(u64::from(register.number())),
        None => None,
    }
}

#[tactic(auto, unfolding(crate::specs::Entry::head_text))]
fn write_head<W: Write>(out: &mut Sink<'_, W>, number: u64, entry: &Entry)
    ensures { Says W.contents out.old out.new (head_text number entry.now) }
{
    write_front(
        out,
        "sequence",
        number,
        &[
            Member::word("pc", entry.pc),
            Member::maybe_word("word", entry.word),
            Member::number("fetched", entry.fetched),
            Member::number("dispatched", entry.dispatched),
            Member::word("predicted", entry.predicted_next),
            Member::maybe("target", target_number(entry)),
        ],
    )
}

#[tactic(auto, unfolding(crate::specs::Entry::kind_text))]
fn write_kind<W: Write>(out: &mut Sink<'_, W>, entry: &Entry)
    ensures { Says W.contents out.old out.new (kind_text (kind_of_word entry.now.instruction)) }
{
    match entry.instruction.kind() {
        Some(kind) => write_name(out, "kind", kind.name()),
        None => {}
    }
}

// The cycle in which its execution began.
fn issued(stage: &Stage) -> Option<u64>
    ensures { result ≡ issued_in stage.now }
{
    Some(stage.issue()?.cycle)
}

fn cost(stage: &Stage) -> Option<u64>
    ensures { result ≡ cost_of stage.now }
{
    Some(u64::from(stage.issue()?.cost))
}

// The value that its result has.
fn value(stage: &Stage) -> Option<u64>
    ensures { result ≡ value_of stage.now }
{
    match broadcast(stage) {
        Some(message) => Some(u64::from(message.value)),
        None => None,
    }
}

// The pc that comes after it.
fn next_pc(stage: &Stage) -> Option<u64>
    ensures { result ≡ next_pc_of stage.now }
{
    match broadcast(stage) {
        Some(message) => Some(u64::from(message.next_pc)),
        None => None,
    }
}

fn fault(stage: &Stage) -> Option<Fault>
    ensures { result ≡ fault_of stage.now }
{
    match broadcast(stage) {
        Some(message) => message.fault,
        None => None,
    }
}

fn cause(stage: &Stage) -> Option<u64>
    ensures { result ≡ cause_of stage.now }
{
    Some(u64::from(fault(stage)?.cause.code()))
}

// The word that a fault gives mtval.
fn fault_value(stage: &Stage) -> Option<u64>
    ensures { result ≡ fault_value_of stage.now }
{
    Some(u64::from(fault(stage)?.value))
}

#[tactic(auto, unfolding(crate::specs::Entry::stage_text))]
fn write_stage<W: Write>(out: &mut Sink<'_, W>, stage: &Stage)
    ensures { Says W.contents out.old out.new (stage_text stage.now) }
{
    write_members(
        out,
        &[
            Member::maybe("issued", issued(stage)),
            Member::maybe("cost", cost(stage)),
            Member::maybe("finished", finished(stage)),
            Member::maybe("value", value(stage)),
            Member::maybe("next_pc", next_pc(stage)),
            Member::maybe("cause", cause(stage)),
            Member::maybe("mtval", fault_value(stage)),
        ],
    )
}

/// Writes what the reorder buffer holds of an instruction, in an object that stays open: its sequence number, what was
/// fetched, its kind of unit, and how far it has come.
#[tactic(auto, using(rv_text::proofs::Saying::says_both), unfolding(crate::specs::Entry::entry_text))]
pub fn write_entry<W: Write>(out: &mut Sink<'_, W>, number: u64, entry: &Entry)
    ensures { Says W.contents out.old out.new (entry_text number entry.now) }
{
    write_head(out, number, entry);
    write_kind(out, entry);
    write_stage(out, &entry.stage)
}
