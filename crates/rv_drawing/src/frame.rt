ghost use Rattle.rv_drawing.specs.SvgFrame.{svg_begin, svg_end};
ghost use Rattle.rv_text.specs.Said.{Says};

use crate::place::{digits, height, width};
use itoa::Buffer;
use rv_text::Sink;
use std::io::Write;

/// Writes the size of a picture of so many columns and rows.
pub(crate) fn write_begin<W: Write>(out: &mut Sink<'_, W>, columns: u64, rows: usize)
    ensures { Says W.contents out.old out.new (svg_begin columns rows) }
{
    let mut across = Buffer::new();
    let wide = digits(&mut across, width(columns));
    let mut down = Buffer::new();
    let high = digits(&mut down, height(rows));
    out.put_all(&[
        b"<svg xmlns='http://www.w3.org/2000/svg' width='",
        wide,
        b"' height='",
        high,
        b"' viewBox='0 0 ",
        wide,
        b" ",
        high,
        b"'>\n",
    ])
}

/// Writes the end of an SVG.
#[tactic(auto, unfolding(crate::specs::SvgFrame::svg_end))]
pub(crate) fn write_end<W: Write>(out: &mut Sink<'_, W>)
    ensures { Says W.contents out.old out.new svg_end }
{
    out.put(b"</g>\n</svg>\n")
}
