ghost use Rattle.std.specs.Prelude.{◌≤◌, ◌++◌, Some, codes, decimal, length};
ghost use Rattle.rv_drawing.specs.Title.{correction_text};
ghost use Rattle.rv_log.specs.Details.{written_text, cause_text, ending_text, cost_text};
ghost use Rattle.rv_log.specs.Details.{details_text, predicted_text, prediction_text};
ghost use Rattle.rv_text.specs.Line.{word_text};
ghost use Rattle.rv_text.specs.Said.{Says};

use crate::numbered::{number_before, put_before, say, write_numbered};
use crate::waited::write_waited;
use rv_drawing::put_correction;
use rv_isa::{Cause, Issue, Reg};
use rv_passage::{Ending, Passage, register_name};
use rv_text::{Sink, hexadecimal};
use std::io::Write;

// Writes that an instruction retired, and which register it wrote, of this short name.
fn write_named<W: Write>(out: &mut Sink<'_, W>, number: u64, name: &[u8], word: u32)
    requires { length name.now ≤ 8 }
    ensures { Says W.contents out.old out.new
        (codes "retired, x" ++ (decimal number ++ (codes " (" ++ (name.now ++ (codes ") = " ++ word_text word))))) }
{
    let mut line = [0; 64];
    let word = hexadecimal(word);
    let value = put_before(&mut line, 64, word.as_slice());
    let equals = put_before(&mut line, value, b") = ");
    let named = put_before(&mut line, equals, name);
    let open = put_before(&mut line, named, b" (");
    let digits = number_before(&mut line, open, number);
    let start = put_before(&mut line, digits, b"retired, x");
    let (_, text) = line.split_at(start);
    say(out, text)
}

// Writes that an instruction retired, and which register it wrote.
#[tactic(auto, using(crate::proofs::AfterNumber::numbering), unfolding(crate::specs::Details::written_text))]
fn write_written<W: Write>(out: &mut Sink<'_, W>, register: Reg, word: u32)
    ensures { Says W.contents out.old out.new (written_text (Some (register, word))) }
{
    let name = register_name(register);
    write_named(out, u64::from(register.number()), name, word)
}

#[tactic(auto, using(crate::proofs::AfterNumber::numbering), unfolding(crate::specs::Details::written_text))]
fn write_retired<W: Write>(out: &mut Sink<'_, W>, written: Option<(Reg, u32)>)
    ensures { Says W.contents out.old out.new (written_text written) }
{
    match written {
        Some((register, word)) => write_written(out, register, word),
        None => say(out, b"retired"),
    }
}

fn write_cause<W: Write>(out: &mut Sink<'_, W>, cause: Cause)
    ensures { Says W.contents out.old out.new (cause_text cause) }
{
    write_numbered(out, b"trapped, cause ", u64::from(cause.code()), b"")
}

#[tactic(auto, using(rv_text::proofs::Saying::saying), unfolding(crate::specs::Details::ending_text))]
fn write_ending<W: Write>(out: &mut Sink<'_, W>, ending: Ending)
    ensures { Says W.contents out.old out.new (ending_text ending) }
{
    match ending {
        Ending::InFlight => {}
        Ending::Retired { written, .. } => write_retired(out, written),
        Ending::Trapped { cause, .. } => write_cause(out, cause),
        Ending::Squashed { .. } => say(out, b"squashed"),
    }
}

#[tactic(auto, using(rv_text::proofs::Saying::saying), unfolding(crate::specs::Details::cost_text))]
fn write_cost<W: Write>(out: &mut Sink<'_, W>, issue: Option<Issue>)
    ensures { Says W.contents out.old out.new (cost_text issue) }
{
    if let Some(issue) = issue {
        write_numbered(out, b", cost ", u64::from(issue.cost), b"")
    }
}

// Writes what was predicted, where the program went on there.
fn write_prediction_alone<W: Write>(out: &mut Sink<'_, W>, predicted: u32)
    ensures { Says W.contents out.old out.new (codes ", predicted " ++ word_text predicted) }
{
    let mut line = [0; 20];
    let word = hexadecimal(predicted);
    let value = put_before(&mut line, 20, word.as_slice());
    let _ = put_before(&mut line, value, b", predicted ");
    say(out, &line)
}

// Writes what was predicted, and where the program went on, if not there.
fn write_known<W: Write>(out: &mut Sink<'_, W>, predicted: u32, correction: Option<u32>)
    ensures { Says W.contents out.old out.new
        (codes ", predicted " ++ (word_text predicted ++ correction_text correction)) }
{
    match correction {
        None => write_prediction_alone(out, predicted),
        Some(_) => put_correction(out, b", predicted ", predicted, correction, b""),
    }
}

#[tactic(auto, using(rv_text::proofs::Saying::saying), unfolding(crate::specs::Details::predicted_text))]
fn write_predicted<W: Write>(out: &mut Sink<'_, W>, predicted: Option<u32>, correction: Option<u32>)
    ensures { Says W.contents out.old out.new (predicted_text predicted correction) }
{
    if let Some(predicted) = predicted {
        write_known(out, predicted, correction)
    }
}

// Writes what was predicted after a branch or a jump.
#[tactic(auto, unfolding(crate::specs::Details::prediction_text))]
fn write_prediction<W: Write>(out: &mut Sink<'_, W>, row: &Passage)
    ensures { Says W.contents out.old out.new (prediction_text row.now) }
{
    write_predicted(out, row.prediction(), row.correction())
}

fn write_begin<W: Write>(out: &mut Sink<'_, W>, number: u64)
    ensures { Says W.contents out.old out.new (codes "L\t" ++ (decimal number ++ codes "\t1\t")) }
{
    write_numbered(out, b"L\t", number, b"\t1\t")
}

/// Writes the label of the pane of details of an instruction that left the hardware, in a log from a cycle on, but for
/// the end of its line.
pub(crate) fn write_details<W: Write>(out: &mut Sink<'_, W>, first: u64, row: &Passage)
    ensures { Says W.contents out.old out.new (details_text first row.now) }
{
    write_begin(out, row.number);
    write_ending(out, row.ending);
    write_cost(out, row.issue);
    write_prediction(out, row);
    write_waited(out, first, row)
}
