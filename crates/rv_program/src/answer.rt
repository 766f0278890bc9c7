ghost use Rattle.std.specs.Prelude.{◌≡◌};
ghost use Rattle.rv_program.specs.Answer.{answered};

use rv_job::SimError;
use rv_text::TextError;

/// What is answered after a text that was written, or was not.
pub(crate) fn answer<T>(written: Result<T, TextError>) -> Result<T, SimError>
    ensures { result ≡ answered written }
{
    match written {
        Ok(answer) => Ok(answer),
        Err(TextError::Memory) => Err(SimError::Memory),
        Err(TextError::WriteFailed) => Err(SimError::WriteFailed),
    }
}
