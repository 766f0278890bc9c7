ghost use Rattle.std.specs.Prelude.{◌≡◌, ◌≤◌, ◌++◌, codes, decimal, length};
ghost use Rattle.rv_drawing.specs.Wait.{result_text};
ghost use Rattle.rv_log.specs.Waited.{awaited_name, awaited_text, one_text, wait_text};
ghost use Rattle.rv_log.specs.Waited.{waited_text, waits_of, waits_text, words_after};
ghost use Rattle.rv_text.specs.Line.{word_text};
ghost use Rattle.rv_text.specs.Said.{Says};

use crate::numbered::{number_before, put_before, say, write_numbered};
use crate::wait::{Awaited, Wait, bus_wait, dispatch_wait, head_wait, issue_wait, result_wait};
use itoa::Buffer;
use rv_drawing::unit_name;
use rv_isa::Reg;
use rv_passage::{Passage, register_name};
use rv_text::{Sink, hexadecimal};
use std::io::Write;

// The words after the number of the cycles of a wait; the name of what is awaited comes after them.
#[tactic(auto, unfolding(crate::specs::Waited::awaited_text, crate::specs::Waited::awaited_name))]
fn awaited_words(awaited: Awaited) -> &'static [u8]
    ensures { codes " " ++ awaited_text awaited ≡ result.now ++ awaited_name awaited }
{
    match awaited {
        Awaited::Dispatch => b" to dispatch",
        Awaited::Operand(_) | Awaited::Unit(_) => b" for ",
        Awaited::Unknown => b" for operands, a unit or the head",
        Awaited::Bus => b" for the bus",
        Awaited::Head => b" for the head",
    }
}

// Writes which result is awaited, of a register of this short name.
fn write_named<W: Write>(out: &mut Sink<'_, W>, number: u64, name: &[u8], pc: u32)
    requires { length name.now ≤ 8 }
    ensures { Says W.contents out.old out.new
        (codes "x" ++ (decimal number ++ (codes "/" ++ (name.now ++ (codes " of " ++ word_text pc))))) }
{
    let mut line = [0; 64];
    let address = hexadecimal(pc);
    let place = put_before(&mut line, 64, address.as_slice());
    let of = put_before(&mut line, place, b" of ");
    let named = put_before(&mut line, of, name);
    let slash = put_before(&mut line, named, b"/");
    let digits = number_before(&mut line, slash, number);
    let start = put_before(&mut line, digits, b"x");
    let (_, text) = line.split_at(start);
    say(out, text)
}

// Writes which result is awaited.
#[inline(never)]
#[tactic(auto, unfolding(rv_drawing::specs::Wait::result_text))]
fn write_result<W: Write>(out: &mut Sink<'_, W>, register: Reg, pc: u32)
    ensures { Says W.contents out.old out.new (result_text register pc) }
{
    let name = register_name(register);
    write_named(out, u64::from(register.number()), name, pc)
}

// Writes the name of the result or the unit that is awaited.
#[tactic(auto, using(rv_text::proofs::Saying::saying), unfolding(crate::specs::Waited::awaited_name))]
#[inline(always)]
fn write_awaited_name<W: Write>(out: &mut Sink<'_, W>, awaited: Awaited)
    ensures { Says W.contents out.old out.new (awaited_name awaited) }
{
    match awaited {
        Awaited::Operand(producer) => write_result(out, producer.register, producer.pc),
        Awaited::Unit(kind) => say(out, unit_name(kind)),
        Awaited::Dispatch | Awaited::Unknown | Awaited::Bus | Awaited::Head => {}
    }
}

// Writes a number of cycles between two texts.
#[inline(never)]
fn write_cycles<W: Write>(out: &mut Sink<'_, W>, before: &[u8], cycles: u128, after: &[u8])
    ensures { Says W.contents out.old out.new (before.now ++ (decimal cycles ++ after.now)) }
{
    match u64::try_from(cycles) {
        Ok(cycles) => write_numbered(out, before, cycles, after),
        Err(_) => {
            let mut buffer = Buffer::new();
            let cycles = buffer.format(cycles).as_bytes();
            out.put_all(&[before, cycles, after])
        }
    }
}

#[inline(always)]
fn write_wait<W: Write>(out: &mut Sink<'_, W>, before: &[u8], wait: &Wait)
    ensures { Says W.contents out.old out.new (wait_text before.now wait.now) }
{
    write_cycles(out, before, wait.cycles(), awaited_words(wait.awaited));
    write_awaited_name(out, wait.awaited)
}

// Writes a wait after some words, unless it is of no cycles. Answers the words before the next one.
#[inline(always)]
fn write_next<W: Write>(out: &mut Sink<'_, W>, before: &'static [u8], wait: &Wait) -> &'static [u8]
    ensures said { Says W.contents out.old out.new (one_text before.now wait.now) }
    ensures next { result.now ≡ words_after before.now wait.now }
{
    if wait.cycles() == 0 {
        before
    } else {
        write_wait(out, before, wait);
        b", "
    }
}

fn write_waits_of<W: Write>(out: &mut Sink<'_, W>, first: u64, left: u64, row: &Passage)
    ensures { Says W.contents out.old out.new (waits_text (codes ", waited ") (waits_of first left row.now)) }
{
    let dispatch = dispatch_wait(row, left);
    let operand = result_wait(row, left);
    let issue = issue_wait(row, first, left, operand.until);
    let bus = bus_wait(row, left);
    let head = head_wait(row, left);
    let words = write_next(out, b", waited ", &dispatch);
    let words = write_next(out, words, &operand);
    let words = write_next(out, words, &issue);
    let words = write_next(out, words, &bus);
    let _ = write_next(out, words, &head);
}

/// Writes what an instruction that left the hardware waited for, and for how many cycles, in a log from a cycle on.
#[tactic(auto, using(rv_text::proofs::Saying::saying), unfolding(crate::specs::Waited::waited_text, crate::specs::Waited::waited_until))]
pub(crate) fn write_waited<W: Write>(out: &mut Sink<'_, W>, first: u64, row: &Passage)
    ensures { Says W.contents out.old out.new (waited_text first row.now) }
{
    if let Some(left) = row.ending.left() {
        write_waits_of(out, first, left, row)
    }
}
