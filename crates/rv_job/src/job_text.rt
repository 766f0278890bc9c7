ghost use Rattle.std.specs.Prelude.{◌≡◌, ◌<◌, ℕ, List, length, IfOk, IfErr, Ok};
ghost use Rattle.rv_describe.specs.ArrivalList.{listed_arrivals};
ghost use Rattle.rv_describe.specs.Description.{description_of};
ghost use Rattle.rv_job.specs.Input.{most_bytes};
ghost use Rattle.rv_job.specs.JobRefusal.{RefusesJob};
ghost use Rattle.rv_job.specs.JobText.{Assembles, Describes, HasLegalLength, IsJobOf, Lists};
ghost use Rattle.rv_job.specs.JobText.{RefusesArrivals, RefusesAssembly, RefusesDescription};
ghost use Rattle.rv_job.specs.Parts.{parts_of};
ghost use Rattle.rv_job.specs.ReadParts.{parts_in};
ghost use Rattle.rv_job.specs.TextImage.{IsImageOf};

use crate::errors::SimError;
use crate::job::{Job, MOST_BYTES};
use crate::parts::{Parts, cut_into_parts};
use rv_asm::{AsmError, AsmFault, assemble};
use rv_describe::{ArrivalsError, DescriptionError, read_arrivals, read_description};
use rv_isa::{Arrivals, Description, Image};
use std::alloc::Global;

/// The parts of a text. Fails by `TooLong` for more than 33,554,432 bytes.
pub(crate) fn read_parts(text: &[u8]) -> Result<Parts<'_>, SimError>
    ensures length { IfOk result (λ _. HasLegalLength text.entry.now) }
    ensures parts { IfOk result (λ parts. parts_in parts ≡ parts_of text.entry.now) }
    ensures too_long { IfErr result (λ error. error ≡ SimError.TooLong) }
    ensures refused { IfErr result (λ _. most_bytes < length text.entry.now) }
{
    if text.len() > MOST_BYTES {
        return Err(SimError::TooLong);
    }
    Ok(cut_into_parts(text))
}

/// The machine that a part describes. Fails by `Description` with its fault, and by `Memory`.
pub(crate) fn read_machine(alloc: Global, part: &[u8]) -> Result<Description, SimError>
    ensures machine { IfOk result (λ machine. description_of part.now ≡ Ok machine) }
    ensures refused { IfErr result (RefusesDescription part.now) }
{
    match read_description(alloc, part) {
        Ok(description) => Ok(description),
        Err(DescriptionError::Memory) => Err(SimError::Memory),
        Err(error) => Err(SimError::Description(error)),
    }
}

// The arrivals that a part lists. Fails by `Arrivals` with their fault, and by `Memory`.
fn read_changes(alloc: Global, part: &[u8]) -> Result<Arrivals, SimError>
    ensures arrivals { IfOk result (λ arrivals. listed_arrivals part.now ≡ Ok arrivals) }
    ensures refused { IfErr result (RefusesArrivals part.now) }
{
    match read_arrivals(alloc, part) {
        Ok(arrivals) => Ok(arrivals),
        Err(ArrivalsError::Memory) => Err(SimError::Memory),
        Err(error) => Err(SimError::Arrivals(error)),
    }
}

/// The image that a part means, with RAM from a base on, whether it fits there or not. Fails by
/// `Assembly` with the first fault of the part, and by `Memory`.
pub(crate) fn read_image(alloc: Global, base: u32, part: &[u8]) -> Result<Image, SimError>
    ensures image { IfOk result (IsImageOf base part.now) }
    ensures refused { IfErr result (RefusesAssembly base part.now) }
{
    match assemble(alloc, part, base) {
        Ok(image) => Ok(image),
        Err(
            AsmError {
                fault: AsmFault::Memory,
                ..
            },
        ) => Err(SimError::Memory),
        Err(error) => Err(SimError::Assembly(error)),
    }
}

/// The machine and the arrivals of a job, and the part of its text that is assembly.
#[derive(Drop)]
pub(crate) struct Unassembled<'a> {
    pub(crate) description: Description,
    pub(crate) arrivals: Arrivals,
    pub(crate) assembly: &'a [u8],
}

/// Reads a job up to its assembly. Fails by `TooLong`, `Description`, `Arrivals` and `Memory` as `read_job`.
pub(crate) fn read_unassembled(alloc: Global, text: &[u8]) -> Result<Unassembled<'_>, SimError>
    ensures length { IfOk result (λ _. HasLegalLength text.entry.now) }
    ensures machine { IfOk result (λ read. Describes text.entry.now read.description) }
    ensures arrivals { IfOk result (λ read. Lists text.entry.now read.arrivals) }
    ensures assembly { IfOk result (λ read. read.assembly.now ≡ (parts_of text.entry.now).assembly) }
    ensures refused { IfErr result (RefusesJob text.entry.now) }
{
    let parts = read_parts(text)?;
    let description = read_machine(alloc, parts.description)?;
    match read_changes(alloc, parts.arrivals) {
        Ok(arrivals) => Ok(Unassembled {
            description,
            arrivals,
            assembly: parts.assembly,
        }),
        Err(error) => Err(error),
    }
}

/// The job of an image, if it fits. Fails by `ImageDoesNotFit` with the sizes of the image and the RAM.
pub(crate) fn job_of(
    description: Description,
    arrivals: Arrivals,
    image: Image,
) -> Result<Job, SimError>
    requires { image.base ≡ description.ram_base }
    ensures job { (text : List ℕ) → HasLegalLength text → Describes text description → Lists text arrivals →
        Assembles text description image → IfOk result (IsJobOf text) }
    ensures description { IfOk result (λ job. job.description ≡ description) }
    ensures refused { (text : List ℕ) → HasLegalLength text → Describes text description → Lists text arrivals →
        Assembles text description image → IfErr result (RefusesJob text) }
{
    let values = description.values();
    if image.bytes.len() <= values.ram_size as usize && image.start % 4 == 0 {
        Ok(Job {
            description,
            arrivals,
            image,
        })
    } else {
        Err(SimError::ImageDoesNotFit {
            bytes: image.bytes.len(),
            ram: values.ram_size,
        })
    }
}

/// Reads a job: assembly alone, or a description, a line `%%` and assembly, or a description, such a
/// line, arrivals, such a line and assembly.
///
/// Fails by `TooLong` for more than 33,554,432 bytes, by `Description`, `Arrivals` and `Assembly`
/// with the first fault of the part, by `ImageDoesNotFit` where the image is longer than the RAM
/// that is described or its start is no multiple of 4, in this order, and by `Memory`. A line of
/// assembly is counted from its part's first line.
pub fn read_job(alloc: Global, text: &[u8]) -> Result<Job, SimError>
    ensures job { IfOk result (IsJobOf text.now) }
    ensures refused { IfErr result (RefusesJob text.now) }
{
    let read = read_unassembled(alloc, text)?;
    let values = read.description.values();
    match read_image(alloc, values.ram_base, read.assembly) {
        Ok(image) => job_of(read.description, read.arrivals, image),
        Err(error) => Err(error),
    }
}
