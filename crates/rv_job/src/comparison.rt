ghost use Rattle.std.specs.Prelude.{◌≡◌, ◌≤◌, List, [], IfOk, IfErr, None, Ok, length, map, nat_lt};
ghost use Rattle.rv_asm.specs.Kept.{lines_left};
ghost use Rattle.rv_describe.specs.Description.{description_of};
ghost use Rattle.rv_job.specs.Comparison.{AreLoaded, Compares, IsAfter, IsComparisonOf, IsLoaded, RefusesComparison};
ghost use Rattle.rv_job.specs.Comparison.{RefusesDescribed, RefusesDescriptions, RefusesLoading, RefusesProgram};
ghost use Rattle.rv_job.specs.Comparison.{first_of, machine_name, most_machines, names_of, separator_count};
ghost use Rattle.rv_job.specs.Parts.{halves_of};

use crate::errors::SimError;
use crate::job::{Job, MOST_BYTES};
use crate::job_text::read_image;
use crate::parts::{cut_at_separator, is_separator, without_mark, without_return};
use rv_asm::first_line;
use rv_describe::{DescriptionError, read_description};
use rv_isa::{Arrivals, Description};
use std::alloc::{AllocError, Global};

/// The most machines that are compared.
const MOST_MACHINES: usize = 64;

/// A program on each of at most 64 machines, without interrupt arrivals.
#[derive(Drop)]
pub struct Comparison {
    /// One for each description, in their order.
    pub jobs: Vec<Job>,
    /// The names that the descriptions give their machines, in their order; empty where one gives none.
    pub names: Vec<Vec<u8>>,
}

// Whether a text has more separators than there may be descriptions.
#[tactic(auto, using(crate::proofs::SeparatorCount::none_more))]
fn has_too_many(text: &[u8]) -> bool
    ensures { result ≡ nat_lt most_machines (separator_count text.entry.now) }
{
    let mut rest = text;
    for _ in 0..MOST_MACHINES {
        match cut_at_separator(rest) {
            Some(halves) => rest = halves.after,
            None => return false,
        }
    }
    cut_at_separator(rest).is_some()
}

// The name that a description with this first line gives its machine.
#[tactic(auto, unfolding(crate::specs::Comparison::machine_name))]
fn machine_name(line: &[u8]) -> &[u8]
    ensures { result.now ≡ machine_name line.entry.now }
{
    match line.strip_prefix(b"# name: ".as_slice()) {
        Some(name) => without_return(name),
        None => b"",
    }
}

// The first line of a text that may be missing.
fn line_of(text: Option<&[u8]>) -> &[u8]
    ensures { result.now ≡ first_of (lines_left text.entry) }
{
    match text {
        Some(text) => first_line(text).0,
        None => b"",
    }
}

// The names of the machines that a text compares.
fn read_names(alloc: Global, text: &[u8]) -> Result<Vec<Vec<u8>>, AllocError>
    ensures { IfOk result (λ names. map (λ name. name.items) names.items ≡ names_of text.now) }
{
    let mut names = Vec::new(alloc);
    let mut first = without_mark(line_of(Some(text)));
    let mut rest = Some(text);
    while let Some(unread) = rest {
        let (line, after) = first_line(unread);
        rest = after;
        if is_separator(line) {
            names.push(Vec::from_slice(alloc, machine_name(first))?)?;
            first = line_of(rest);
        }
    }
    Ok(names)
}

// The machine that the description with a number describes. Fails by `Described` with its fault, and by `Memory`.
fn read_described(alloc: Global, number: usize, part: &[u8]) -> Result<Description, SimError>
    ensures machine { IfOk result (λ machine. description_of part.now ≡ Ok machine) }
    ensures refused { IfErr result (RefusesDescribed number part.now) }
{
    match read_description(alloc, part) {
        Ok(description) => Ok(description),
        Err(DescriptionError::Memory) => Err(SimError::Memory),
        Err(error) => Err(SimError::Described { number, error }),
    }
}

// The machines that are described in front of a text's last part, and that part.
fn read_descriptions(alloc: Global, text: &[u8]) -> Result<(Vec<Description>, &[u8]), SimError>
    ensures machines { IfOk result (λ read. IsAfter text.entry.now read.0.items read.1.now) }
    ensures last { IfOk result (λ read. halves_of read.1.now ≡ None) }
    ensures refused { IfErr result (RefusesDescriptions text.entry.now) }
{
    let mut descriptions = Vec::new(alloc);
    let mut rest = text;
    while let Some(halves) = cut_at_separator(rest) {
        let number = descriptions.len() + 1;
        let description = read_described(alloc, number, halves.before)?;
        let Ok(()) = descriptions.push(description) else {
            return Err(SimError::Memory);
        };
        rest = halves.after;
    }
    Ok((descriptions, rest))
}

// The machines that a text compares, and the program.
fn read_machines(alloc: Global, text: &[u8]) -> Result<(Vec<Description>, &[u8]), SimError>
    ensures machines { IfOk result (λ read. Compares text.entry.now read.0.items read.1.now) }
    ensures refused { IfErr result (RefusesDescriptions text.entry.now) }
{
    let (mut descriptions, program) = read_descriptions(alloc, text)?;
    if descriptions.is_empty() {
        // An empty description has no fault, so that only memory can run out.
        let Ok(standard) = read_description(alloc, b"") else {
            return Err(SimError::Memory);
        };
        let Ok(()) = descriptions.push(standard) else {
            return Err(SimError::Memory);
        };
    }
    Ok((descriptions, program))
}

fn no_arrivals(alloc: Global) -> Arrivals
    ensures { result ≡ [] }
{
    Arrivals::new(Vec::new(alloc)).unwrap()
}

// A program on a machine. Fails by `Assembly` with its first fault there, by `DoesNotFit` with the machine's number where
// the image is longer than its RAM or the start is no multiple of 4, and by `Memory`.
fn load(
    alloc: Global,
    number: usize,
    program: &[u8],
    description: Description,
) -> Result<Job, SimError>
    ensures job { IfOk result (IsLoaded program.now description) }
    ensures refused { IfErr result (RefusesProgram number program.now description) }
{
    let values = description.values();
    let image = read_image(alloc, values.ram_base, program)?;
    if image.bytes.len() <= values.ram_size as usize && image.start % 4 == 0 {
        Ok(Job {
            description,
            arrivals: no_arrivals(alloc),
            image,
        })
    } else {
        Err(SimError::DoesNotFit { number })
    }
}

// A program on each of some machines.
fn load_each(
    alloc: Global,
    program: &[u8],
    descriptions: &[Description],
) -> Result<Vec<Job>, SimError>
    ensures jobs { IfOk result (λ jobs. AreLoaded program.now descriptions.now jobs.items) }
    ensures refused { IfErr result (RefusesLoading program.now descriptions.now) }
{
    let mut jobs = Vec::new(alloc);
    for place in 0..descriptions.len() {
        let job = load(alloc, place + 1, program, descriptions[place])?;
        let Ok(()) = jobs.push(job) else {
            return Err(SimError::Memory);
        };
    }
    Ok(jobs)
}

/// Reads a comparison: descriptions, with a line `%%` after each one, and a program, which is assembled for each machine.
/// A text without such a line is a program on the standard machine.
///
/// Fails by `TooLong` for more than 33,554,432 bytes, by `TooManyDescriptions` for more than 64 lines `%%`, by `Described`
/// with the number, from 1, and the first fault of the first description that has one, and then for the first machine on
/// which the program can't be run: by `Assembly` with the program's first fault there, or by `DoesNotFit` with the number
/// of its description, where the image is longer than the RAM or its start is no multiple of 4; and by `Memory`. A line of
/// assembly is counted from the program's first.
pub fn read_comparison(alloc: Global, text: &[u8]) -> Result<Comparison, SimError>
    ensures comparison { IfOk result (IsComparisonOf text.now) }
    ensures few { IfOk result (λ comparison. length comparison.jobs.items ≤ most_machines) }
    ensures refused { IfErr result (RefusesComparison text.now) }
{
    if text.len() > MOST_BYTES {
        return Err(SimError::TooLong);
    }
    if has_too_many(text) {
        return Err(SimError::TooManyDescriptions);
    }
    let (descriptions, program) = read_machines(alloc, text)?;
    let jobs = load_each(alloc, program, descriptions.as_slice())?;
    let Ok(names) = read_names(alloc, text) else {
        return Err(SimError::Memory);
    };
    Ok(Comparison { jobs, names })
}
