ghost use Rattle.std.specs.Prelude.{◌≡◌, ◌++◌, codes};
ghost use Rattle.rv_isa.specs.Instruction.{kind_of_word};
ghost use Rattle.rv_drawing.specs.Wait.{awaited, issue_wait, one_wait, operand_wait, producer_text};
ghost use Rattle.rv_drawing.specs.Wait.{result_text, second_wait, tip_of, unit_text};
ghost use Rattle.rv_text.specs.Said.{Says};

use crate::cell::{Cell, is_past};
use crate::room::dispatch_wait;
use crate::window::Window;
use itoa::Buffer;
use rv_hardware::Stall;
use rv_isa::{Kind, Reg};
use rv_passage::{Passage, Producer, register_name};
use rv_text::{Sink, hexadecimal};
use std::io::Write;

// A producer, unless its broadcast came before a cycle.
fn awaited(producer: Option<Producer>, cycle: u64) -> Option<Producer>
    ensures { result ≡ awaited cycle producer }
{
    match producer {
        Some(producer) if !is_past(producer.broadcast, cycle) => Some(producer),
        _ => None,
    }
}

/// Writes which result an instruction waits for: a register, and the address of the instruction that writes it.
#[tactic(auto, unfolding(crate::specs::Wait::result_text))]
pub fn put_result<W: Write>(out: &mut Sink<'_, W>, register: Reg, pc: u32)
    ensures { Says W.contents out.old out.new (result_text register pc) }
{
    let mut buffer = Buffer::new();
    let number = buffer.format(register.number()).as_bytes();
    let name = register_name(register);
    let address = hexadecimal(pc);
    out.put_all(&[b"x", number, b"/", name, b" of ", address.as_slice()])
}

#[tactic(auto, using(rv_text::proofs::Saying::saying), unfolding(crate::specs::Wait::producer_text))]
fn write_producer<W: Write>(out: &mut Sink<'_, W>, before: &[u8], producer: &Producer)
    ensures { Says W.contents out.old out.new (producer_text before.now producer.now) }
{
    out.put(before);
    put_result(out, producer.register, producer.pc)
}

/// What an instruction of a kind waits for after its dispatch, where it waits for no result: a unit, and where it reads or writes
/// memory the port or older stores too. One of no kind, which uses no unit, waits for the head.
#[tactic(auto, unfolding(crate::specs::Wait::unit_text))]
pub fn unit_name(kind: Option<Kind>) -> &'static [u8]
    ensures { result.now ≡ unit_text kind }
{
    match kind {
        None => b"the head",
        Some(Kind::Mem) => b"a unit, the port or older stores",
        Some(Kind::Alu | Kind::Mul | Kind::Div) => b"a unit",
    }
}

#[tactic(auto, unfolding(crate::specs::Wait::one_wait))]
fn write_one_wait<W: Write>(out: &mut Sink<'_, W>, kind: Option<Kind>, producer: &Option<Producer>)
    ensures { Says W.contents out.old out.new (one_wait kind producer.now) }
{
    match producer {
        Some(producer) => write_producer(out, b"wait for ", producer),
        None => out.put_all(&[b"wait for ", unit_name(kind)]),
    }
}

#[tactic(auto, using(rv_text::proofs::Saying::saying), unfolding(crate::specs::Wait::second_wait))]
fn write_second_wait<W: Write>(out: &mut Sink<'_, W>, second: &Option<Producer>)
    ensures { Says W.contents out.old out.new (second_wait second.now) }
{
    if let Some(second) = second {
        write_producer(out, b" and ", second)
    }
}

#[tactic(auto, using(rv_text::proofs::Saying::saying))]
fn write_two_waits<W: Write>(out: &mut Sink<'_, W>, first: &Producer, second: &Option<Producer>)
    ensures { Says W.contents out.old out.new (producer_text (codes "wait for ") first.now ++ second_wait second.now) }
{
    write_producer(out, b"wait for ", first);
    write_second_wait(out, second)
}

#[tactic(auto, unfolding(crate::specs::Wait::operand_wait))]
fn write_operand_wait<W: Write>(
    out: &mut Sink<'_, W>,
    kind: Option<Kind>,
    first: &Option<Producer>,
    second: &Option<Producer>,
)
    ensures { Says W.contents out.old out.new (operand_wait kind first.now second.now) }
{
    match first {
        Some(first) => write_two_waits(out, first, second),
        None => write_one_wait(out, kind, second),
    }
}

fn write_seen_wait<W: Write>(out: &mut Sink<'_, W>, row: &Passage, cycle: u64)
    ensures { Says W.contents out.old out.new
        (operand_wait (kind_of_word row.now.instruction) (awaited cycle row.now.producers.first)
        (awaited cycle row.now.producers.second)) }
{
    let kind = row.instruction.kind();
    let first = awaited(row.producers.first, cycle);
    let second = awaited(row.producers.second, cycle);
    write_operand_wait(out, kind, &first, &second)
}

#[tactic(auto, unfolding(crate::specs::Wait::issue_wait))]
fn write_issue_wait<W: Write>(out: &mut Sink<'_, W>, window: Window, row: &Passage, cycle: u64)
    ensures { Says W.contents out.old out.new (issue_wait window row.now cycle) }
{
    if is_past(row.dispatched, window.first) {
        out.put(Cell::IssueWait.name())
    } else {
        write_seen_wait(out, row, cycle)
    }
}

/// Writes what a cell of an instruction among others is called, where a wait says what for, in a cycle in which the oldest fetched
/// word waits for this.
#[tactic(auto, unfolding(crate::specs::Wait::tip_of))]
pub(crate) fn write_tip<W: Write>(
    out: &mut Sink<'_, W>,
    window: Window,
    rows: &[Passage],
    stall: Option<Stall>,
    row: &Passage,
    cycle: u64,
    cell: Cell,
)
    ensures { Says W.contents out.old out.new (tip_of window rows.now stall row.now cycle cell) }
{
    if cell.is_issue_wait() {
        write_issue_wait(out, window, row, cycle)
    } else if cell.is_dispatch_wait() {
        out.put(dispatch_wait(rows, stall, row.number, cycle))
    } else {
        out.put(cell.name())
    }
}
