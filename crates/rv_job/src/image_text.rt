ghost use Rattle.std.specs.Prelude.{length, IfOk, IfErr};
ghost use Rattle.rv_job.specs.ImageRefusal.{RefusesImage};
ghost use Rattle.rv_job.specs.ImageText.{IsDescribedImageOf, image_line};
ghost use Rattle.rv_text.specs.Said.{Says};
ghost use Rattle.rv_text.specs.Written.{IsWritten};

use crate::errors::SimError;
use crate::job_text::{read_image, read_machine, read_parts};
use itoa::Buffer;
use rv_isa::{Description, Image};
use rv_text::{ReportError, Sink, hexadecimal};
use std::alloc::Global;
use std::io::Write;

/// The machine that a job's text describes, and the image that it makes there, whether it fits or not.
#[derive(Drop)]
pub struct DescribedImage {
    /// The machine.
    pub description: Description,
    /// What RAM would hold at first, and where execution would start.
    pub image: Image,
}

/// Reads the image of a job. The arrivals are not read.
///
/// Fails by `TooLong`, `Description` and `Assembly` as `read_job`, and by `Memory`.
pub fn read_image_text(alloc: Global, text: &[u8]) -> Result<DescribedImage, SimError>
    ensures image { IfOk result (IsDescribedImageOf text.now) }
    ensures refused { IfErr result (RefusesImage text.now) }
{
    let parts = read_parts(text)?;
    let description = read_machine(alloc, parts.description)?;
    match read_image(alloc, description.values().ram_base, parts.assembly) {
        Ok(image) => Ok(DescribedImage { description, image }),
        Err(error) => Err(error),
    }
}

#[tactic(auto, unfolding(crate::specs::ImageText::image_line))]
fn say_image_line<W: Write>(out: &mut Sink<'_, W>, image: &Image)
    ensures { Says W.contents out.old out.new (image_line (length image.now.bytes) image.now.start) }
{
    let mut buffer = Buffer::new();
    let count = buffer.format(image.bytes.len()).as_bytes();
    let start = hexadecimal(image.start);
    out.put_all(&[b"ok ", count, b" bytes start ", start.as_slice(), b"\n"])
}

/// Writes the line that says how many bytes an image has, and where execution starts.
#[tactic(auto, using(rv_text::proofs::Saying::says_written))]
pub fn write_image_line<W: Write>(writer: &mut W, image: &Image) -> Result<(), ReportError>
    ensures { IsWritten result (W.contents writer.old) (W.contents writer.new)
        (image_line (length image.now.bytes) image.now.start) }
{
    let mut out = Sink::new(writer);
    say_image_line(&mut out, image);
    out.outcome()
}
