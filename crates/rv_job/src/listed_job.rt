ghost use Rattle.std.specs.Prelude.{◌≡◌, IfOk, IfErr};
ghost use Rattle.rv_asm.specs.Listing.{listing_of};
ghost use Rattle.rv_job.specs.JobRefusal.{RefusesJob};
ghost use Rattle.rv_job.specs.JobText.{RefusesAssembly};
ghost use Rattle.rv_job.specs.ListedJob.{IsListedJobOf};
ghost use Rattle.rv_job.specs.TextImage.{IsImageOf};

use crate::errors::SimError;
use crate::job::Job;
use crate::job_text::{job_of, read_unassembled};
use rv_asm::{AsmError, AsmFault, ListedImage, assemble_listed};
use rv_source::Listing;
use std::alloc::Global;

/// A job, and which line of its program each word of its image comes from.
#[derive(Drop)]
pub struct ListedJob {
    /// The job.
    pub job: Job,
    /// The lines of the words of its image.
    pub listing: Listing,
}

/// The image that a part means, with RAM from a base on, and the lines of its words. Fails by `Assembly` with the
/// first fault of the part, and by `Memory`.
fn read_listed_image(alloc: Global, base: u32, part: &[u8]) -> Result<ListedImage, SimError>
    ensures image { IfOk result (λ listed. IsImageOf base part.now listed.image) }
    ensures listing { IfOk result (λ listed. listed.listing ≡ listing_of base part.now) }
    ensures refused { IfErr result (RefusesAssembly base part.now) }
{
    match assemble_listed(alloc, part, base) {
        Ok(listed) => Ok(listed),
        Err(
            AsmError {
                fault: AsmFault::Memory,
                ..
            },
        ) => Err(SimError::Memory),
        Err(error) => Err(SimError::Assembly(error)),
    }
}

/// Reads a job, and lists the lines of its program, the first line of the part that is assembly being 1.
///
/// Fails as `read_job`.
pub fn read_listed_job(alloc: Global, text: &[u8]) -> Result<ListedJob, SimError>
    ensures job { IfOk result (IsListedJobOf text.now) }
    ensures refused { IfErr result (RefusesJob text.now) }
{
    let read = read_unassembled(alloc, text)?;
    let values = read.description.values();
    let listed = read_listed_image(alloc, values.ram_base, read.assembly)?;
    match job_of(read.description, read.arrivals, listed.image) {
        Ok(job) => Ok(ListedJob {
            job,
            listing: listed.listing,
        }),
        Err(error) => Err(error),
    }
}
