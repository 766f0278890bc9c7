ghost use Rattle.std.specs.Prelude.{◌≡◌, ◌∷◌, [], ◌++◌, ◌+◌, ◌-◌, ◌≤◌, ◌==◌, ◌^◌};
ghost use Rattle.std.specs.Prelude.{None, IfOk, IfSome, OnOk, drop, length, take};
ghost use Rattle.std.specs.List.{flat_map, slice_split};
ghost use Rattle.std.specs.Result.{result_err};
ghost use Rattle.rv_asm.specs.Answer.{RefusedBy};
ghost use Rattle.rv_asm.specs.Kept.{lines_left};
ghost use Rattle.rv_asm.specs.Layout.{line_in, statement_in};
ghost use Rattle.rv_asm.specs.Read.{tokens_in};
ghost use Rattle.rv_refusal.specs.Further.{fault_of_line, faulty_by, faulty_from, further_lines, more_line};
ghost use Rattle.rv_refusal.specs.Place.{place_line};

use crate::place::add_place;
use crate::statement::after_labels;
use crate::text::add_all;
use itoa::Buffer;
use rv_asm::{AsmFault, Token, first_line, read_statement, tokenize};
use std::alloc::{AllocError, Global};

/// A line that has a fault, by its number.
#[derive(Clone, Copy)]
pub(crate) struct Faulty {
    pub(crate) number: usize,
    pub(crate) fault: AsmFault,
}

// The lines with a fault: the first twenty of them, and how many there are.
#[derive(Drop)]
struct Faults {
    shown: Vec<Faulty>,
    count: usize,
}

// Fails by the fault of a statement.
fn try_statement(alloc: Global, body: &[Token<'_>]) -> Result<(), AsmFault>
    ensures clean { IfOk result (λ _. result_err (statement_in (tokens_in body.now)) ≡ None) }
    ensures refused { RefusedBy (result_err (statement_in (tokens_in body.now))) result }
{
    match read_statement(alloc, body) {
        Ok(_) => Ok(()),
        Err(fault) => Err(fault),
    }
}

// Fails by the fault that a line has whatever stands on the others.
fn try_line(alloc: Global, line: &[u8]) -> Result<(), AsmFault>
    ensures clean { IfOk result (λ _. fault_of_line (line_in line.now) ≡ None) }
    ensures refused { RefusedBy (fault_of_line (line_in line.now)) result }
{
    let tokens = tokenize(alloc, line)?;
    try_statement(alloc, after_labels(tokens.as_slice()))
}

// The text after so many lines, if lines are left.
fn after_lines(count: usize, text: &[u8]) -> Option<&[u8]>
    ensures lines { lines_left result ≡ drop count (slice_split (λ byte. byte == 10) text.entry.now) }
    ensures shorter { IfSome result (λ rest. count + length rest.now ≤ length text.entry.now) }
{
    let mut rest = Some(text);
    for _passed in 0..count {
        match rest {
            Some(unread) => {
                let (_, behind) = first_line(unread);
                rest = behind;
            }
            None => return None,
        }
    }
    rest
}

impl Faults {
    // Counts a line that has a fault.
    fn add(&mut self, line: Faulty) -> Result<(), AllocError>
        requires { self.old.count ≤ 2 ^ 63 }
        ensures shown { OnOk result (self.new.shown.items
            ≡ self.old.shown.items ++ take (20 - self.old.count) (line ∷ [])) }
        ensures count { OnOk result (self.new.count ≡ self.old.count + 1) }
    {
        if self.count < 20 {
            self.shown.push(line)?;
        }
        self.count += 1;
        Ok(())
    }

    // Counts the line with a number, if it has a fault whatever stands on the others.
    fn add_line(&mut self, alloc: Global, number: usize, line: &[u8]) -> Result<(), AllocError>
        requires { self.old.count ≤ 2 ^ 63 }
        ensures shown { OnOk result (self.new.shown.items
            ≡ self.old.shown.items
            ++ take (20 - self.old.count) (faulty_by number (fault_of_line (line_in line.now)))) }
        ensures count { OnOk result (self.new.count
            ≡ self.old.count + length (faulty_by number (fault_of_line (line_in line.now)))) }
    {
        match try_line(alloc, line) {
            Ok(()) => Ok(()),
            Err(AsmFault::Memory) => Err(AllocError),
            Err(fault) => self.add(Faulty { number, fault }),
        }
    }
}

// Of the lines of a text, numbered from here on, those that have a fault of their own.
#[tactic(auto, using(crate::proofs::Faulty::take_none))]
fn faulty_from(alloc: Global, number: usize, text: &[u8]) -> Result<Faults, AllocError>
    requires { number + length text.now ≤ 2 ^ 63 }
    ensures shown { IfOk result (λ faults. faults.shown.items
        ≡ take 20 (faulty_from number (slice_split (λ byte. byte == 10) text.now))) }
    ensures count { IfOk result (λ faults. faults.count
        ≡ length (faulty_from number (slice_split (λ byte. byte == 10) text.now))) }
{
    let mut faults = Faults {
        shown: Vec::new(alloc),
        count: 0,
    };
    let mut number = number;
    let mut rest = Some(text);
    while let Some(unread) = rest {
        let (line, behind) = first_line(unread);
        faults.add_line(alloc, number, line)?;
        number += 1;
        rest = behind;
    }
    Ok(faults)
}

// Appends the lines on lines with a fault, of an assembly that so many lines of the job stand before.
fn add_faulty(out: &mut Vec<u8>, before: usize, lines: &[Faulty]) -> Result<(), AllocError>
    ensures { OnOk result (out.new.items
        ≡ out.old.items ++ flat_map (λ line. place_line before line.number line.fault) lines.now) }
{
    for line in lines {
        add_place(out, before, line.number, line.fault)?;
    }
    Ok(())
}

// Appends how many lines more have a fault than are shown.
#[tactic(auto, unfolding(crate::specs::Further::more_line))]
fn add_more(out: &mut Vec<u8>, count: usize) -> Result<(), AllocError>
    ensures { OnOk result (out.new.items ≡ out.old.items ++ more_line count) }
{
    if count <= 20 {
        return Ok(());
    }
    let mut buffer = Buffer::new();
    add_all(
        out,
        &[b"and ", buffer.format(count - 20).as_bytes(), b" more\n"],
    )
}

// Appends the lines on lines with a fault, and how many more have one.
fn add_faults(out: &mut Vec<u8>, before: usize, faults: &Faults) -> Result<(), AllocError>
    ensures { OnOk result (out.new.items
        ≡ out.old.items
        ++ (flat_map (λ line. place_line before line.number line.fault) faults.now.shown.items
        ++ more_line faults.now.count)) }
{
    add_faulty(out, before, faults.shown.as_slice())?;
    add_more(out, faults.count)
}

/// Appends the lines on those that have a fault of their own after the one with a number.
#[tactic(auto, unfolding(crate::specs::Further::further_lines, crate::specs::Further::more_line))]
pub(crate) fn add_further(
    alloc: Global,
    out: &mut Vec<u8>,
    before: usize,
    number: usize,
    assembly: &[u8],
) -> Result<(), AllocError>
    ensures { OnOk result (out.new.items ≡ out.old.items ++ further_lines before number assembly.now) }
{
    let Some(rest) = after_lines(number, assembly) else {
        return Ok(());
    };
    let faults = faulty_from(alloc, number + 1, rest)?;
    add_faults(out, before, &faults)
}
