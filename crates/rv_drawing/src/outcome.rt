ghost use Rattle.rv_drawing.specs.Label.{written_by};
ghost use Rattle.rv_drawing.specs.Outcome.{outcome_text};
ghost use Rattle.rv_drawing.specs.Stopped.{is_stopped};
ghost use Rattle.rv_text.specs.Said.{Says};

use crate::label::write_written;
use crate::window::Window;
use rv_passage::Passage;
use rv_text::Sink;
use std::io::Write;

/// Writes what an instruction wrote, or that its word is stale, which ended the run.
#[tactic(auto, unfolding(crate::specs::Outcome::outcome_text))]
pub(crate) fn write_outcome<W: Write>(out: &mut Sink<'_, W>, window: Window, row: &Passage)
    ensures { Says W.contents out.old out.new (outcome_text (is_stopped window row.now) (written_by row.now.ending)) }
{
    if window.is_stopped(row) {
        out.put(b"stale")
    } else {
        write_written(out, row)
    }
}
