ghost use Rattle.std.specs.Prelude.{◌≡◌, option_copied};
ghost use Rattle.rv_drawing.specs.SvgStyle.{mark_style, svg_style};
ghost use Rattle.rv_text.specs.Said.{Says};

use crate::mark::Mark;
use rv_text::Sink;
use std::io::Write;

/// Writes fonts, and a colour for each class of cells, on a white ground and on a dark one.
#[tactic(auto, unfolding(crate::specs::SvgStyle::svg_style))]
pub(crate) fn write_style<W: Write>(out: &mut Sink<'_, W>)
    ensures { Says W.contents out.old out.new svg_style }
{
    out.put(
        b"<style>
.page{fill:#fff}
text{font:12px monospace;fill:#111}
.n text{font-size:11px;fill:#444}
.n path{stroke:#bbb}
.out text{fill:#6b6b6b}
.trap text{fill:#a00}
.stale text{fill:#a00}
.v path{stroke:#c00;stroke-dasharray:4 3}
.v text{font-size:11px;font-weight:bold;text-anchor:middle;fill:#c00}
.a{text-anchor:end}
.p rect{stroke:#fff}
.p text{font-size:11px;text-anchor:middle;fill:#000}
.f rect{fill:#e3eefc}
.d rect{fill:#b5d3f5}
.i rect{fill:#7fb2ea}
.e rect{fill:#fbe3a3}
.r rect{fill:#fff;stroke:#b06a00}
.b rect{fill:#f0a848}
.c rect{fill:#1f7a3d}
.t rect{fill:#8c1616}
.x rect{fill:#707070}
.w rect{fill:#f1f1f1}
.c text,.t text,.x text{fill:#fff}
@media print{svg{width:100%;height:auto}}
@media (prefers-color-scheme:dark){
.page{fill:#16181c}
text{fill:#e4e4e4}
.n text{fill:#aaa}
.n path{stroke:#484c54}
.out text{fill:#8c8c8c}
.trap text{fill:#ff8080}
.stale text{fill:#ff8080}
.v path{stroke:#ff6060}
.v text{fill:#ff6060}
.p rect{stroke:#16181c}
.p text{fill:#000}
.r rect{fill:#16181c;stroke:#f0a848}
.r text{fill:#f0a848}
.w rect{fill:#2c3038}
.w text{fill:#bbb}
.c text,.t text,.x text{fill:#fff}
}
</style>
<rect class='page' width='100%' height='100%'/>
",
    )
}

/// The rings and the bold letter of the marked cells of a picture, where it has marks.
#[tactic(auto, unfolding(crate::specs::SvgStyle::mark_style))]
pub(crate) fn mark_style(marks: Option<&[Mark]>) -> &'static [u8]
    ensures { result.now ≡ mark_style (option_copied marks.entry) }
{
    match marks {
        Some(_) => {
            b"<style>
.m{fill:none;stroke:#fff;stroke-width:1.5}
.m+.m{stroke:#000}
.m+text{font-weight:bold}
</style>
"
        }
        None => b"",
    }
}
