ghost use Rattle.std.specs.Prelude.{◌≤◌, ◌++◌, codes, decimal, length};
ghost use Rattle.rv_log.specs.Command.{introduction_text, appearance_text, stage_line, retirement_line, flush_line};
ghost use Rattle.rv_text.specs.Said.{Says};

use crate::numbered::{number_before, put_before, say, write_numbered, write_two_numbers};
use crate::stage::Stage;
use crate::statement::write_statement;
use rv_passage::Passage;
use rv_source::Listing;
use rv_text::{Sink, hexadecimal};
use std::io::Write;

// The most bytes of an instruction's label, and of the lines before and after it.
const LINE: usize = 192;

#[tactic(auto, using(crate::proofs::AfterNumber::numbering), unfolding(crate::specs::Command::introduction_text))]
fn write_introduction<W: Write>(out: &mut Sink<'_, W>, number: u64, pc: u32)
    ensures { Says W.contents out.old out.new (introduction_text number pc) }
{
    write_numbered(out, b"I\t", number, b"\t");
    write_numbered(out, b"", number, b"\t0\nL\t");
    write_numbered(out, b"", number, b"\t0\t");
    let address = hexadecimal(pc);
    out.put(address.as_slice());
    out.put(b": ")
}

/// Writes that an instruction appears, its label, and that its fetch begins, at once, where it has this short statement.
#[tactic(auto, unfolding(crate::specs::Command::introduction_text))]
pub(crate) fn write_fetch_label<W: Write>(
    out: &mut Sink<'_, W>,
    number: u64,
    pc: u32,
    statement: &[u8],
)
    requires { length statement.now ≤ 64 }
    ensures { Says W.contents out.old out.new
        (introduction_text number pc ++ (statement.now ++ (codes "\nS\t" ++ (decimal number ++ codes "\t0\tF\n")))) }
{
    let mut line = [0; LINE];
    let address = hexadecimal(pc);
    let end = put_before(&mut line, LINE, b"\t0\tF\n");
    let fourth = number_before(&mut line, end, number);
    let stage = put_before(&mut line, fourth, b"\nS\t");
    let body = put_before(&mut line, stage, statement);
    let colon = put_before(&mut line, body, b": ");
    let place = put_before(&mut line, colon, address.as_slice());
    let lane = put_before(&mut line, place, b"\t0\t");
    let third = number_before(&mut line, lane, number);
    let label = put_before(&mut line, third, b"\t0\nL\t");
    let second = number_before(&mut line, label, number);
    let tab = put_before(&mut line, second, b"\t");
    let first = number_before(&mut line, tab, number);
    let start = put_before(&mut line, first, b"I\t");
    let (_, text) = line.split_at(start);
    say(out, text)
}

/// Writes that an instruction appears, and its label: its address and its statement.
#[tactic(auto, using(rv_text::proofs::Saying::saying), unfolding(crate::specs::Command::appearance_text))]
pub(crate) fn write_appearance<W: Write>(out: &mut Sink<'_, W>, listing: &Listing, row: &Passage)
    ensures { Says W.contents out.old out.new (appearance_text listing.now row.now) }
{
    write_introduction(out, row.number, row.pc);
    write_statement(out, listing, row);
    out.put(b"\n")
}

/// Writes that a stage of an instruction begins.
#[tactic(auto, unfolding(crate::specs::Command::stage_line))]
#[inline(never)]
pub(crate) fn write_stage<W: Write>(out: &mut Sink<'_, W>, number: u64, stage: Stage)
    ensures { Says W.contents out.old out.new (stage_line number stage) }
{
    write_numbered(out, b"S\t", number, stage.after_number())
}

/// Ends a line, and writes that an instruction retires, so many before it.
#[tactic(auto, using(crate::proofs::AfterNumber::numbering), unfolding(crate::specs::Command::retirement_line))]
pub(crate) fn write_retirement<W: Write>(out: &mut Sink<'_, W>, number: u64, order: u64)
    ensures { Says W.contents out.old out.new (codes "\n" ++ retirement_line number order) }
{
    write_two_numbers(out, b"\nR\t", number, b"\t", order, b"\t0\n")
}

/// Ends a line, and writes that an instruction is flushed.
#[tactic(auto, using(crate::proofs::AfterNumber::numbering), unfolding(crate::specs::Command::flush_line))]
pub(crate) fn write_flush<W: Write>(out: &mut Sink<'_, W>, number: u64)
    ensures { Says W.contents out.old out.new (codes "\n" ++ flush_line number) }
{
    write_two_numbers(out, b"\nR\t", number, b"\t", number, b"\t1\n")
}
