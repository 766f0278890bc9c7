ghost use Rattle.std.specs.Prelude.{◌≡◌};
ghost use Rattle.rv_program.specs.Ended.{ReportsEnding, ReportsOver, exit_status, over_line};

use arrayvec::ArrayVec;
use itoa::Buffer;
use rv_job::{FaultLines, SimError};
use std::io::Write;

/// How a task ended that was done.
#[derive(Clone, Copy)]
pub struct Ended {
    /// The exit status.
    pub status: u8,
    /// After how many cycles the run of a picture ended, where that was before those of the picture.
    pub over: Option<u64>,
}

// The line of a run that ended before the cycles of its picture, which stands in the room.
#[tactic(auto, unfolding(crate::specs::Ended::over_line))]
fn over_line<'a>(room: &'a mut ArrayVec<u8, 128>, cycles: u64) -> &'a [u8]
    ensures { result.now ≡ over_line cycles }
{
    let mut buffer = Buffer::new();
    let digits = buffer.format(cycles).as_bytes();
    room.clear();
    room.try_extend_from_slice(b"note: the run ended after ")
        .unwrap();
    room.try_extend_from_slice(digits).unwrap();
    room.try_extend_from_slice(b" cycles, before those of the picture\n")
        .unwrap();
    room.as_slice()
}

fn report_over<E: Write>(over: Option<u64>, errors: &mut FaultLines<E>)
    ensures { ReportsOver errors.old errors.new over }
{
    if let Some(cycles) = over {
        let mut room = ArrayVec::new();
        errors.report_text(over_line(&mut room, cycles));
    }
}

/// Reports how a task ended, where there is something to report, and answers the exit status: where it failed, its error, and
/// where the run of a picture ended before the cycles of the picture, that.
pub(crate) fn report<E: Write>(ended: Result<Ended, SimError>, errors: &mut FaultLines<E>) -> u8
    ensures reported { ReportsEnding errors.old errors.new ended }
    ensures status { result ≡ exit_status ended }
{
    match ended {
        Ok(ended) => {
            report_over(ended.over, errors);
            ended.status
        }
        Err(error) => errors.report(error),
    }
}
