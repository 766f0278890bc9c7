ghost use Rattle.std.specs.Prelude.{◌≡◌, option_copied};
ghost use Rattle.rv_drawing.specs.SvgLegend.{mark_entry, svg_legend, svg_letters};
ghost use Rattle.rv_text.specs.Said.{Says};

use crate::mark::Mark;
use rv_text::Sink;
use std::io::Write;

// Each letter with its meaning.
#[tactic(auto, unfolding(crate::specs::SvgLegend::svg_letters))]
fn write_letters<W: Write>(out: &mut Sink<'_, W>)
    ensures { Says W.contents out.old out.new svg_letters }
{
    out.put(
        b"<g transform='translate(8 8)'>
<g transform='translate(0 0)'><g class='p f'><rect width='14' height='18'/><text x='7' y='13'>F</text></g><text x='20' y='13'>fetch</text></g>
<g transform='translate(150 0)'><g class='p d'><rect width='14' height='18'/><text x='7' y='13'>D</text></g><text x='20' y='13'>dispatch</text></g>
<g transform='translate(300 0)'><g class='p i'><rect width='14' height='18'/><text x='7' y='13'>I</text></g><text x='20' y='13'>issue</text></g>
<g transform='translate(450 0)'><g class='p e'><rect width='14' height='18'/><text x='7' y='13'>=</text></g><text x='20' y='13'>execution</text></g>
<g transform='translate(0 22)'><g class='p r'><rect width='14' height='18'/><text x='7' y='13'>~</text></g><text x='20' y='13'>wait for the bus</text></g>
<g transform='translate(150 22)'><g class='p b'><rect width='14' height='18'/><text x='7' y='13'>B</text></g><text x='20' y='13'>broadcast</text></g>
<g transform='translate(300 22)'><g class='p c'><rect width='14' height='18'/><text x='7' y='13'>C</text></g><text x='20' y='13'>retirement</text></g>
<g transform='translate(450 22)'><g class='p t'><rect width='14' height='18'/><text x='7' y='13'>T</text></g><text x='20' y='13'>trap</text></g>
<g transform='translate(0 44)'><g class='p x'><rect width='14' height='18'/><text x='7' y='13'>x</text></g><text x='20' y='13'>squash</text></g>
<g transform='translate(150 44)'><g class='p w'><rect width='14' height='18'/><text x='7' y='13'>.</text></g><text x='20' y='13'>wait</text></g>
<g transform='translate(300 44)'><g class='v'><text x='7' y='13'>!</text></g><text x='20' y='13'>interrupt</text></g>
",
    )
}

// What the legend says of the marks of a picture, where it has some.
#[tactic(auto, unfolding(crate::specs::SvgLegend::mark_entry))]
fn mark_entry(marks: Option<&[Mark]>) -> &'static [u8]
    ensures { result.now ≡ mark_entry (option_copied marks.entry) }
{
    match marks {
        Some(_) => {
            b"<g transform='translate(450 44)'><g class='p f'><rect width='14' height='18'/><path class='m' d='M1 1H13V17H1Z'/><path class='m' d='M2.5 2.5H11.5V15.5H2.5Z'/><text x='7' y='13'>F</text></g><text x='20' y='13'>on the critical path</text></g>\n"
        }
        None => b"",
    }
}

/// Writes the legend, and the begin of what stands below it.
#[tactic(auto, using(rv_text::proofs::Saying::saying), unfolding(crate::specs::SvgLegend::svg_legend))]
pub(crate) fn write_legend<W: Write>(out: &mut Sink<'_, W>, marks: Option<&[Mark]>)
    ensures { Says W.contents out.old out.new (svg_legend (option_copied marks.entry)) }
{
    write_letters(out);
    out.put(mark_entry(marks));
    out.put(b"</g>\n<g transform='translate(0 76)'>\n")
}
