ghost use Rattle.rv_drawing.specs.Over.{over_note};
ghost use Rattle.rv_text.specs.Said.{Says};

use crate::place::digits;
use crate::window::Window;
use itoa::Buffer;
use rv_text::Sink;
use std::io::Write;

/// Writes that the run ended before the window, where it did, between two texts.
#[tactic(auto, using(rv_text::proofs::Saying::saying), unfolding(crate::specs::Over::over_text))]
pub(crate) fn write_over<W: Write>(
    out: &mut Sink<'_, W>,
    before: &[u8],
    window: Window,
    after: &[u8],
)
    ensures { Says W.contents out.old out.new (over_note before.now after.now window) }
{
    if let Some(cycles) = window.over() {
        let mut buffer = Buffer::new();
        let count = digits(&mut buffer, u128::from(cycles));
        out.put_all(&[
            before,
            b"The run ended after ",
            count,
            b" cycles, before those of this picture.",
            after,
        ])
    }
}
