ghost use Rattle.std.specs.Prelude.{IfOk, OnErr};
ghost use Rattle.std.specs.Io.KnownBytes.{Consumes};
ghost use Rattle.rv_job.specs.Input.{HasRead, IsInputOf};

use crate::job::MOST_BYTES;
use std::alloc::Global;
use std::error::Error;
use std::fmt;
use std::io::Read;

/// How many bytes one read asks for at most.
const CHUNK: usize = 16_384;

/// Why the input could not be read.
#[derive(Clone, Copy, Debug, PartialEq, Eq)]
pub enum InputError {
    /// A read answered an error.
    Failed,
    /// Memory was refused.
    Memory,
}

impl fmt::Display for InputError {
    ghost use Rattle.std.specs.Prelude.{Some};
    ghost use Rattle.rv_job.specs.Fault.{input_fault_text};

    ghost output = { λ error. Some (input_fault_text error) };

    #[tactic(auto, unfolding(crate::specs::Fault::input_fault_text, crate::specs::Fault::what_failed))]
    fn fmt<W: fmt::Write>(&self, f: &mut fmt::Formatter<W>) -> fmt::Result {
        f.write_str(match self {
            InputError::Failed => "input",
            InputError::Memory => "memory",
        })
    }
}

impl Error for InputError {}

/// Reads to the end, or until 33,554,433 bytes are held, one more than a job may have. The reader has all else left.
/// Where it fails, what was read before is lost.
pub fn read_input<R: Read>(alloc: Global, reader: &mut R) -> Result<Vec<u8>, InputError>
    ensures bytes { IfOk result (λ input. IsInputOf (R.remaining reader.old) input.items) }
    ensures taken { IfOk result (λ input. Consumes (R.remaining reader.old) (R.remaining reader.new) input.items) }
    ensures lost { OnErr result (HasRead (R.remaining reader.old) (R.remaining reader.new)) }
{
    let mut input = Vec::new(alloc);
    let mut chunk = [0; CHUNK];
    while input.len() <= MOST_BYTES {
        let room = CHUNK.min(MOST_BYTES + 1 - input.len());
        let part = &mut chunk[..room];
        let Ok(count) = reader.read(part) else {
            return Err(InputError::Failed);
        };
        if count == 0 {
            return Ok(input);
        }
        let Ok(()) = input.extend_from_slice(&part[..count]) else {
            return Err(InputError::Memory);
        };
    }
    Ok(input)
}
