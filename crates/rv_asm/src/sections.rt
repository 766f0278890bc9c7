ghost use Rattle.std.specs.Prelude.{◌≡◌, Ok, None, OnOk, IfOk, IfErr};
ghost use Rattle.rv_asm.specs.Answer.{RefusedBy, RefusedAt};
ghost use Rattle.rv_asm.specs.Emitted.{Appends, Emits};
ghost use Rattle.rv_asm.specs.Faults.{second_fault};
ghost use Rattle.rv_asm.specs.Kept.{first_with_fault};
ghost use Rattle.rv_asm.specs.Layout.{statement_in};
ghost use Rattle.rv_asm.specs.Meaning.{Spells, contents, line_cells, parts_in, start_address};
ghost use Rattle.rv_asm.specs.Placed.{constant_starts, place_body};
ghost use Rattle.rv_asm.specs.Read.{statement_of, tokens_in};
ghost use Rattle.rv_asm.specs.Symbols.{kept_in, layout_of, lines_in, placed_of};

use crate::emit::emit;
use crate::fault::{AsmError, AsmFault};
use crate::operation::Section;
use crate::program::Program;
use crate::reach::{Reach, modulo_word};
use crate::record::Record;
use crate::statement::{Statement, read_statement};
use crate::symbols::{START, after_labels, is_start};
use crate::token::{Token, tokenize};
use std::alloc::Global;

/// Where execution starts.
pub fn start_address(program: &Program<'_, '_>) -> u32
    ensures { result ≡ start_address program.now.base (layout_of program.now.layout.now) }
{
    program.value_of(START).map_or(program.base, modulo_word)
}

/// Whether a statement is a `.equ` of `_start`.
fn constant_starts(statement: &Statement<'_, '_>) -> bool
    ensures { result ≡ constant_starts (Ok (statement_of statement.now)) }
{
    matches!(statement, Statement::Constant(name, _) if is_start(name))
}

/// Appends what the tokens after labels mean.
fn emit_body<'a>(
    alloc: Global,
    program: &Program<'_, 'a>,
    reach: Reach,
    label_starts: bool,
    body: &[Token<'a>],
    out: &mut Vec<u8>,
) -> Result<(), AsmFault>
    ensures emitted { IfOk result (λ _. Emits (line_cells program.now.base (layout_of program.now.layout.now)
        (place_body reach label_starts (statement_in (tokens_in body.now)))) out.old.items out.new.items) }
    ensures clean { IfOk result (λ _. second_fault program.now.base (layout_of program.now.layout.now)
        (place_body reach label_starts (statement_in (tokens_in body.now))) ≡ None) }
    ensures refused { RefusedBy (second_fault program.now.base (layout_of program.now.layout.now)
        (place_body reach label_starts (statement_in (tokens_in body.now)))) result }
{
    let statement = match read_statement(alloc, body) {
        Ok(statement) => statement,
        Err(fault) => return Err(fault),
    };
    emit(program, reach, &statement, out)?;
    let starts = label_starts || constant_starts(&statement);
    if starts && start_address(program) % 4 != 0 {
        return Err(AsmFault::Misaligned);
    }
    Ok(())
}

/// Appends what a line means.
fn emit_line<'a>(
    alloc: Global,
    program: &Program<'_, 'a>,
    line: &Record<'a>,
    out: &mut Vec<u8>,
) -> Result<(), AsmFault>
    ensures emitted { IfOk result (λ _. Emits (line_cells program.now.base (layout_of program.now.layout.now)
        (placed_of line.now)) out.old.items out.new.items) }
    ensures clean { IfOk result (λ _.
        second_fault program.now.base (layout_of program.now.layout.now) (placed_of line.now) ≡ None) }
    ensures refused { RefusedBy
        (second_fault program.now.base (layout_of program.now.layout.now) (placed_of line.now)) result }
{
    let tokens = tokenize(alloc, line.line.bytes)?;
    let (body, label_starts) = after_labels(tokens.as_slice());
    emit_body(alloc, program, line.reach, label_starts, body, out)
}

/// The bytes of the two sections.
#[derive(Drop)]
pub struct Sections {
    pub text: Vec<u8>,
    pub data_bytes: Vec<u8>,
}

impl Sections {
    /// Appends what a line means to the section that it stands in.
    fn add<'a>(
        &mut self,
        alloc: Global,
        program: &Program<'_, 'a>,
        line: &Record<'a>,
    ) -> Result<(), AsmFault>
        ensures text { OnOk result (Appends (parts_in Section.Text line.now.reach.section
            (line_cells program.now.base (layout_of program.now.layout.now) (placed_of line.now)))
            self.old.text.items self.new.text.items) }
        ensures data_bytes { OnOk result (Appends (parts_in Section.Data line.now.reach.section
            (line_cells program.now.base (layout_of program.now.layout.now) (placed_of line.now)))
            self.old.data_bytes.items self.new.data_bytes.items) }
        ensures clean { IfOk result (λ _.
            second_fault program.now.base (layout_of program.now.layout.now) (placed_of line.now) ≡ None) }
        ensures refused { RefusedBy
            (second_fault program.now.base (layout_of program.now.layout.now) (placed_of line.now)) result }
    {
        match line.reach.section {
            Section::Text => emit_line(alloc, program, line, &mut self.text),
            Section::Data => emit_line(alloc, program, line, &mut self.data_bytes),
        }
    }

    /// The sections of a program, or its first fault in the second pass.
    pub fn of_program(alloc: Global, program: &Program<'_, '_>) -> Result<Sections, AsmError>
        ensures clean { IfOk result (λ _. first_with_fault
            (second_fault program.now.base (layout_of program.now.layout.now))
            (kept_in program.now.layout.now.records.items) ≡ None) }
        ensures text { IfOk result (λ sections. Spells (contents program.now.base (layout_of program.now.layout.now)
            Section.Text (lines_in program.now.layout.now.records.items)) sections.text.items) }
        ensures data_bytes { IfOk result (λ sections. Spells
            (contents program.now.base (layout_of program.now.layout.now)
            Section.Data (lines_in program.now.layout.now.records.items)) sections.data_bytes.items) }
        ensures refused { RefusedAt (first_with_fault (second_fault program.now.base (layout_of program.now.layout.now))
            (kept_in program.now.layout.now.records.items)) result }
        ensures memory { IfErr result (λ error. error.fault ≡ AsmFault.Memory → error.line ≡ 0) }
    {
        let mut sections = Sections {
            text: Vec::new(alloc),
            data_bytes: Vec::new(alloc),
        };
        for line in &program.layout.records {
            if let Err(fault) = sections.add(alloc, program, line) {
                return Err(AsmError::at(fault, line.line.number));
            }
        }
        Ok(sections)
    }
}
