ghost use Rattle.std.specs.Prelude.{◌≡◌};
ghost use Rattle.rv_causes.specs.Marked.{is_marked, is_of_instruction};

use crate::event::Event;
use crate::point::Stage;

// Whether an event is one of an instruction, and not of the hardware beside it.
fn is_of_instruction(stage: Stage) -> bool
    ensures { result ≡ is_of_instruction stage }
{
    matches!(
        stage,
        Stage::Fetch | Stage::Dispatch | Stage::Issue | Stage::Broadcast | Stage::Commit
    )
}

/// Whether an event is marked in the window after so many cycles.
pub fn is_marked(from: u64, event: &Event) -> bool
    ensures { result ≡ is_marked from event.now }
{
    is_of_instruction(event.at.stage) && from <= event.cycle
}
