ghost use Rattle.std.specs.Prelude.{◌≡◌, ◌∷◌, ◌++◌, ◌==◌, ◌<◌, ◌≤◌, [], None, IfOk, IfErr, IfSome, Ok, false, length};
ghost use Rattle.std.specs.List.{position_or_len, slice_split};
ghost use Rattle.std.specs.Option.{option_copied};
ghost use Rattle.rv_asm.specs.Answer.{Follows, RefusedBy, RefusedAt};
ghost use Rattle.rv_asm.specs.Faults.{body_fault, first_fault, first_fault_of, is_unmet, moved};
ghost use Rattle.rv_asm.specs.Layout.{advance, after_statement, extended, layout, unlaid};
ghost use Rattle.rv_asm.specs.Layout.{unless_too_large, lines_of, statement_in, line_in};
ghost use Rattle.rv_asm.specs.Kept.{keep, kept, lines_left, says_nothing};
ghost use Rattle.rv_asm.specs.Placed.{place};
ghost use Rattle.rv_asm.specs.Read.{operands_in, statement_of, tokens_in};
ghost use Rattle.rv_asm.specs.Statement.{and_then, is_data, operands_read, statement};
ghost use Rattle.rv_asm.specs.Symbols.{found};

use crate::fault::{AsmError, AsmFault};
use crate::operand::Operand;
use crate::operation::Form;
use crate::reach::{Reach, advance};
use crate::record::{Record, TextLine};
use crate::statement::{Statement, data, few_operands, make_statement, named_form, needed};
use crate::symbols::{Definition, Symbols};
use crate::token::{Token, tokenize};
use std::alloc::Global;

/// What the first pass learns of a text.
#[derive(Drop)]
pub struct Layout<'a> {
    pub symbols: Symbols<'a>,
    /// How far the text has come.
    pub reach: Reach,
    /// The lines with a statement or `_start`, the first one first.
    pub records: Vec<Record<'a>>,
}

/// How many bytes stand before the first one that is this, or how many there are.
pub fn length_before(end: u8, text: &[u8]) -> usize
    ensures length { result ≡ position_or_len (λ byte. byte == end) text.now }
    ensures in_range { result ≤ length text.now }
{
    for (count, byte) in text.iter().enumerate() {
        if *byte == end {
            return count;
        }
    }
    text.len()
}

/// The first line of a text, and what stands after its line feed, if it has one.
pub fn first_line(text: &[u8]) -> (&[u8], Option<&[u8]>)
    ensures lines { slice_split (λ byte. byte == 10) text.now ≡ result.0.now ∷ lines_left result.1 }
    ensures shorter { IfSome result.1 (λ rest. length rest.now < length text.now) }
{
    let size = length_before(b'\n', text);
    if size == text.len() {
        return (text, None);
    }
    let (_, rest) = text.split_at(size + 1);
    (&text[..size], Some(rest))
}

/// Whether a symbol is needed that is no `.equ` of an earlier line.
fn is_unmet<'a>(symbols: &Symbols<'a>, needed: Option<&'a [u8]>) -> bool
    ensures { result ≡ is_unmet (found symbols.now) (option_copied needed.entry) }
{
    match needed {
        Some(name) => symbols.constant(name).is_none(),
        None => false,
    }
}

impl<'a> Layout<'a> {
    ghost use Rattle.rv_asm.specs.Symbols.{layout_of, kept_in};

    /// The layout of no lines.
    fn new(alloc: Global) -> Self
        ensures layout { layout_of result ≡ unlaid }
        ensures records { result.records.items ≡ [] }
    {
        Layout {
            symbols: Symbols::new(alloc),
            reach: Reach::START,
            records: Vec::new(alloc),
        }
    }

    /// Adds a statement. The answer is whether it has no effect.
    fn add_statement(&mut self, statement: &Statement<'_, 'a>) -> Result<bool, AsmFault>
        ensures moved { Follows (λ _. self.new.reach) result (unless_too_large
            (advance (found self.old.symbols) (statement_of statement.now) self.old.reach)) }
        ensures layout { IfOk result (λ _. layout_of self.new
            ≡ after_statement (found self.old.symbols) self.old.reach (Ok (statement_of statement.now))) }
        ensures idle { IfOk result (λ idle. idle ≡ says_nothing (Ok (statement_of statement.now))) }
        ensures records { self.new.records ≡ self.old.records }
    {
        self.reach = advance(&self.symbols, statement, self.reach)?;
        match *statement {
            Statement::Nothing => Ok(true),
            Statement::Constant(name, number) => {
                self.symbols.define(name, Definition::Constant(number))?;
                Ok(false)
            }
            _ => Ok(false),
        }
    }

    /// Adds a form that is no data, with its operands. The answer is whether its statement has no effect.
    fn add_few(&mut self, form: Form, operands: &[Operand<'a>]) -> Result<bool, AsmFault>
        ensures moved { is_data form ≡ false → Follows (λ _. self.new.reach) result
            (moved (found self.old.symbols) self.old.reach form (operands_in operands.now)) }
        ensures layout { is_data form ≡ false → IfOk result (λ _.
            layout_of self.new
            ≡ after_statement (found self.old.symbols) self.old.reach (statement form (operands_in operands.now))) }
        ensures idle { is_data form ≡ false →
            IfOk result (λ idle. idle ≡ says_nothing (statement form (operands_in operands.now))) }
        ensures records { self.new.records ≡ self.old.records }
    {
        if is_unmet(&self.symbols, needed(form, operands)) {
            return Err(AsmFault::BadOperands);
        }
        match make_statement(form, operands) {
            Ok(statement) => self.add_statement(&statement),
            Err(fault) => Err(fault),
        }
    }

    /// Adds a form with the tokens of its operands. The answer is whether its statement has no effect.
    fn add_form(
        &mut self,
        alloc: Global,
        form: Form,
        tokens: &[Token<'a>],
    ) -> Result<bool, AsmFault>
        ensures moved { Follows (λ _. self.new.reach) result
            (and_then (operands_read (tokens_in tokens.now)) (moved (found self.old.symbols) self.old.reach form)) }
        ensures layout { IfOk result (λ _. layout_of self.new
            ≡ after_statement (found self.old.symbols) self.old.reach
            (and_then (operands_read (tokens_in tokens.now)) (statement form))) }
        ensures idle { IfOk result (λ idle. idle
            ≡ says_nothing (and_then (operands_read (tokens_in tokens.now)) (statement form))) }
        ensures records { self.new.records ≡ self.old.records }
    {
        if let Form::Values(width) = form {
            return match data(width, tokens) {
                Ok(statement) => self.add_statement(&statement),
                Err(fault) => Err(fault),
            };
        }
        match few_operands(alloc, tokens) {
            Ok(operands) => self.add_few(form, operands.as_slice()),
            Err(fault) => Err(fault),
        }
    }

    /// Adds what stands after the labels of a line. The answer is whether its statement has no effect.
    fn add_body(&mut self, alloc: Global, body: &[Token<'a>]) -> Result<bool, AsmFault>
        ensures added { IfOk result (λ _. body_fault (found self.old.symbols) self.old.reach
            (tokens_in body.now) ≡ None) }
        ensures layout { IfOk result (λ _.
            layout_of self.new
            ≡ after_statement (found self.old.symbols) self.old.reach (statement_in (tokens_in body.now))) }
        ensures idle { IfOk result (λ idle. idle ≡ says_nothing (statement_in (tokens_in body.now))) }
        ensures records { self.new.records ≡ self.old.records }
        ensures refused { RefusedBy (body_fault (found self.old.symbols) self.old.reach (tokens_in body.now)) result }
    {
        if self.symbols.redefines(body) {
            return Err(AsmFault::DuplicateSymbol);
        }
        let (form, tokens) = named_form(body)?;
        self.add_form(alloc, form, tokens)
    }

    /// Adds a line.
    fn add(&mut self, alloc: Global, line: TextLine<'a>) -> Result<(), AsmFault>
        ensures added { IfOk result (λ _. first_fault (layout_of self.old) (line_in line.entry.bytes.now) ≡ None) }
        ensures layout { IfOk result (λ _. layout_of self.new
            ≡ extended (layout_of self.old) (line_in line.entry.bytes.now)) }
        ensures records { IfOk result (λ _. kept_in self.new.records.items
            ≡ kept_in self.old.records.items
            ++ keep line.entry.number line.entry.bytes.now (place self.old.reach (line_in line.entry.bytes.now))) }
        ensures refused { RefusedBy (first_fault (layout_of self.old) (line_in line.entry.bytes.now)) result }
    {
        let tokens = tokenize(alloc, line.bytes)?;
        let reach = self.reach;
        let here = Definition::Label(reach.section, reach.offset());
        let (body, label_starts) = self.symbols.define_labels(tokens.as_slice(), here)?;
        let says_nothing = self.add_body(alloc, body)?;
        if says_nothing && !label_starts {
            return Ok(());
        }
        self.records.push(Record { line, reach })?;
        Ok(())
    }

    /// The layout of a text, or its first fault in the first pass.
    pub fn of_text(alloc: Global, text: &'a [u8]) -> Result<Self, AsmError>
        ensures clean { IfOk result (λ _. first_fault_of (lines_of text.entry.now) ≡ None) }
        ensures tells { IfOk result (λ program. layout_of program ≡ layout (lines_of text.entry.now)) }
        ensures kept { IfOk result (λ program. kept_in program.records.items
            ≡ kept 1 unlaid (slice_split (λ byte. byte == 10) text.entry.now)) }
        ensures refused { RefusedAt (first_fault_of (lines_of text.entry.now)) result }
        ensures memory { IfErr result (λ error. error.fault ≡ AsmFault.Memory → error.line ≡ 0) }
    {
        let mut layout = Layout::new(alloc);
        let mut number = 1;
        let mut rest = Some(text);
        while let Some(unread) = rest {
            let (bytes, after) = first_line(unread);
            if let Err(fault) = layout.add(alloc, TextLine { number, bytes }) {
                return Err(AsmError::at(fault, number));
            }
            number += 1;
            rest = after;
        }
        Ok(layout)
    }
}
