ghost use Rattle.std.specs.Prelude.{◌≡◌, ◌+◌, ◌<◌, ◌≤◌, [], get_or, length, map};
ghost use Rattle.std.specs.List.{flat_map};
ghost use Rattle.rv_hardware.specs.Lessons.{lesson_of, lessons_of};
ghost use Rattle.rv_states.specs.Json.{values_from};
ghost use Rattle.rv_states.specs.Predictor.{after_lessons, asked_in, asked_text, learned_text};
ghost use Rattle.rv_states.specs.Predictor.{place_at, place_in, place_line, place_lines, place_taught};
ghost use Rattle.rv_states.specs.Predictor.{predictor_lines, predictor_text, uses_tables};
ghost use Rattle.rv_text.specs.Said.{Says};

use crate::array::write_comma;
use crate::json::write_key;
use crate::prediction::{write_asked, write_place};
use rv_front::{Bimodal, DescribedPredictor, Fetched, Flow, Front, Predictor};
use rv_hardware::{Step, first_pc};
use rv_text::Sink;
use rv_watch::ShownHardware;
use std::io::Write;

// Teaches a predictor what a step teaches, after which the program goes on at `next`.
fn teach_step(predictor: &mut DescribedPredictor, step: &Step, next: u32)
    ensures { predictor.new ≡ after_lessons predictor.old (lesson_of step.now next) }
{
    if let Step::Retired(row) = step {
        predictor.learn(row.pc, row.word, next);
    }
}

/// Teaches a predictor what steps teach, after which the program goes on at `next`.
pub(crate) fn teach(predictor: &mut DescribedPredictor, steps: &[Step], next: u32)
    ensures { predictor.new ≡ after_lessons predictor.old (lessons_of steps.now next) }
{
    match steps {
        [step, rest @ ..] => {
            teach_step(predictor, step, first_pc(rest, next));
            teach(predictor, rest, next)
        }
        [] => {}
    }
}

// Writes the line of a place of tables, but for one that is as at first.
#[tactic(auto, using(rv_text::proofs::Saying::says_both))]
fn write_place_line<W: Write>(out: &mut Sink<'_, W>, tables: &Bimodal, place: usize)
    requires { place < length tables.now.counters }
    ensures { Says W.contents out.old out.new (place_line tables.now place) }
{
    let counter = tables.counter(place);
    let target = tables.target(place);
    if counter == 1 && target.is_none() {
        return;
    }
    write_place(out, place, counter, target);
    out.put(b"\n")
}

fn write_place_lines<W: Write>(out: &mut Sink<'_, W>, tables: &Bimodal)
    ensures { Says W.contents out.old out.new (place_lines tables.now) }
{
    for place in 0..tables.places() {
        write_place_line(out, tables, place);
    }
}

/// Writes a line for each place of a predictor's tables that is not as at first; nothing where it has none.
pub(crate) fn write_predictor_lines<W: Write>(out: &mut Sink<'_, W>, predictor: &DescribedPredictor)
    ensures { Says W.contents out.old out.new (predictor_lines predictor.now) }
{
    if let Some(tables) = predictor.tables() {
        write_place_lines(out, tables)
    }
}

fn uses_tables(flow: Flow) -> bool
    ensures { result ≡ uses_tables flow }
{
    matches!(flow, Flow::Branch { .. } | Flow::Indirect)
}

// Writes the place of a pc after so many values of an array, where the word there uses the tables. Answers how many there are then.
fn write_place_at<W: Write>(
    out: &mut Sink<'_, W>,
    tables: &Bimodal,
    pc: u32,
    word: u32,
    written: usize,
) -> usize
    requires { written < usize.MAX }
    ensures said { Says W.contents out.old out.new (values_from written (place_at tables.now pc word)) }
    ensures count { result ≡ written + length (place_at tables.now pc word) }
    ensures few { result ≤ written + 1 }
{
    if !uses_tables(Flow::at(pc, word)) {
        return written;
    }
    let place = tables.place(pc);
    write_comma(out, written);
    write_place(out, place, tables.counter(place), tables.target(place));
    written + 1
}

// Writes the place that the lesson of a step changed, as that of a pc.
fn write_taught<W: Write>(
    out: &mut Sink<'_, W>,
    tables: &Bimodal,
    step: &Step,
    written: usize,
) -> usize
    requires { written < usize.MAX }
    ensures said { Says W.contents out.old out.new (values_from written (place_taught tables.now step.now)) }
    ensures count { result ≡ written + length (place_taught tables.now step.now) }
    ensures few { result ≤ written + 1 }
{
    match step {
        Step::Retired(row) => write_place_at(out, tables, row.pc, row.word, written),
        Step::Trap { .. } | Step::Interrupt { .. } => written,
    }
}

fn write_all_taught<W: Write>(out: &mut Sink<'_, W>, tables: &Bimodal, steps: &[Step])
    ensures { Says W.contents out.old out.new (values_from 0 (flat_map (place_taught tables.now) steps.now)) }
{
    let mut written = 0;
    for step in steps {
        written = write_taught(out, tables, step, written);
    }
}

#[tactic(auto, using(rv_text::proofs::Saying::says_both), unfolding(crate::specs::Predictor::learned_text, crate::specs::Json::also, crate::specs::Json::array))]
fn write_learned<W: Write>(out: &mut Sink<'_, W>, predictor: &DescribedPredictor, steps: &[Step])
    ensures { Says W.contents out.old out.new (learned_text predictor.now steps.now) }
{
    if let Some(tables) = predictor.tables() {
        write_key(out, "learned");
        out.put(b"[");
        write_all_taught(out, tables, steps);
        out.put(b"]")
    }
}

fn place_in(predictor: &DescribedPredictor, pc: u32) -> Option<u64>
    ensures { result ≡ place_in predictor.now pc }
{
    match predictor.tables() {
        Some(tables) => Some(tables.place(pc) as u64),
        None => None,
    }
}

// Writes what a predictor answers of a fetched word after so many values of an array, if a cycle fetched it. Answers
// how many there are then.
fn write_asked_of<W: Write>(
    out: &mut Sink<'_, W>,
    predictor: &DescribedPredictor,
    cycle: u64,
    fetched: &Fetched,
    written: usize,
) -> usize
    requires { written < usize.MAX }
    ensures said { Says W.contents out.old out.new (values_from written (asked_in predictor.now cycle fetched.now)) }
    ensures count { result ≡ written + length (asked_in predictor.now cycle fetched.now) }
    ensures few { result ≤ written + 1 }
{
    if fetched.cycle != cycle {
        return written;
    }
    match fetched.word {
        None => written,
        Some(word) => {
            let answer = predictor.predict(fetched.pc, word);
            write_comma(out, written);
            write_asked(out, fetched.pc, place_in(predictor, fetched.pc), answer);
            written + 1
        }
    }
}

// The same of the word at a place of the fetch buffer.
fn write_asked_at<W: Write>(
    out: &mut Sink<'_, W>,
    predictor: &DescribedPredictor,
    cycle: u64,
    front: &Front,
    place: usize,
    written: usize,
) -> usize
    requires { written < usize.MAX }
    ensures said { Says W.contents out.old out.new
        (values_from written (get_or (map (asked_in predictor.now cycle) front.now.entries) place [])) }
    ensures count { result ≡ written + length (get_or (map (asked_in predictor.now cycle) front.now.entries) place []) }
    ensures few { result ≤ written + 1 }
{
    match front.get(place) {
        Some(fetched) => write_asked_of(out, predictor, cycle, fetched, written),
        None => written,
    }
}

fn write_all_asked<W: Write>(
    out: &mut Sink<'_, W>,
    predictor: &DescribedPredictor,
    cycle: u64,
    front: &Front,
)
    ensures { Says W.contents out.old out.new
        (values_from 0 (flat_map (asked_in predictor.now cycle) front.now.entries)) }
{
    let mut written = 0;
    for place in 0..front.len() {
        written = write_asked_at(out, predictor, cycle, front, place, written);
    }
}

#[tactic(auto, using(rv_text::proofs::Saying::says_both), unfolding(crate::specs::Predictor::asked_text, crate::specs::Json::also, crate::specs::Json::array))]
fn write_asked_words<W: Write>(
    out: &mut Sink<'_, W>,
    predictor: &DescribedPredictor,
    cycle: u64,
    front: &Front,
)
    ensures { Says W.contents out.old out.new (asked_text predictor.now cycle front.now.entries) }
{
    write_key(out, "asked");
    out.put(b"[");
    write_all_asked(out, predictor, cycle, front);
    out.put(b"]")
}

/// Writes the members that have what a cycle with some steps taught a predictor, and what it answered of the words that
/// the cycle fetched.
pub(crate) fn write_predictor<W: Write>(
    out: &mut Sink<'_, W>,
    predictor: &DescribedPredictor,
    cycle: u64,
    steps: &[Step],
    hardware: &ShownHardware<'_>,
)
    ensures { Says W.contents out.old out.new
        (predictor_text predictor.now cycle steps.now hardware.now.front.entries) }
{
    write_learned(out, predictor, steps);
    write_asked_words(out, predictor, cycle, hardware.front())
}
