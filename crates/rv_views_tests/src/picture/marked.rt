use crate::checks::{check_bytes, check_count, check_none, check_parts};
use crate::machine::listing;
use crate::picture::rows::{INTERRUPTS, LINES, WINDOW, drawn_rows, passages};
use rv_drawing::{Mark, write_picture_text};
use std::alloc::Global;
use std::process::Abort;

macro_rules! mark {
    ($number:expr, $column:expr) => {
        Mark {
            number: $number,
            column: $column,
        }
    };
}

// Each phase of the instruction with number 2, a trap with a wait before it, a squash, and what has no cell: a column after the last
// one of an instruction, an instruction that has no row, and one that there is not. Those of an instruction do not stand together,
// and one of them stands twice.
static MARKS: [Mark; 14] = [
    mark!(0, 0),
    mark!(2, 7),
    mark!(3, 3),
    mark!(2, 0),
    mark!(2, 1),
    mark!(4, 4),
    mark!(2, 2),
    mark!(2, 3),
    mark!(2, 0),
    mark!(8, 5),
    mark!(2, 4),
    mark!(3, 8),
    mark!(2, 5),
    mark!(2, 9),
];

const TEXT: &str = "                                                           10        \n\
7ffffff8 00000013                         -                x         \n\
80000000 addi x1,x0,5                     x1/ra=00000005   fdi**b.c  \n\
80000004 ebreak # stops & \"waits\" <here>  -                 FD*....t \n\
80000008 0000006f                         -                  F.*     \n\
8000000c 00000013                         -                   FDI==~~\n\
00000000 -                                -                         F\n\
interrupts                                                 !  !     !\n\
F fetch  D dispatch  I issue  = execution  ~ wait for the bus  B broadcast  C retirement  T trap  x squash  . wait  ! interrupt\n\
In lower case, or * in place of = ~ x . : on the critical path\n";

#[test]
fn the_letters_of_the_critical_path_are_in_lower_case(rt: HostRuntime) {
    let listing = listing(&rt, rt.alloc(), &LINES);
    let marks = Some(MARKS.as_slice());
    let mut text = Vec::new(rt.alloc());
    write_picture_text(&passages(), &INTERRUPTS, marks, &listing, WINDOW, &mut text).expect(
        &rt, "room",
    );
    check_bytes(&rt, text.as_slice(), TEXT.as_bytes());
}

// The SVG of the passages in the window, with marks or none.
fn drawn(rt: &impl Abort, alloc: Global, marks: Option<&[Mark]>) -> String {
    drawn_rows(
        rt,
        alloc,
        &passages(),
        &INTERRUPTS,
        &[],
        marks,
        &LINES,
        WINDOW,
    )
}

// A marked box of each letter, two that are not marked beside them, the style and the entry of the legend.
static SHOWN: [&str; 13] = [
    "<g class='p f' transform='translate(456 0)'><title>fetch in cycle 10, on the critical path</title><rect width='14' height='18'/><path class='m' d='M1 1H13V17H1Z'/><path class='m' d='M2.5 2.5H11.5V15.5H2.5Z'/><text x='7' y='13'>F</text></g>\n",
    "<g class='p d' transform='translate(470 0)'><title>dispatch in cycle 11, on the critical path</title><rect width='14' height='18'/><path class='m' d='M1 1H13V17H1Z'/><path class='m' d='M2.5 2.5H11.5V15.5H2.5Z'/><text x='7' y='13'>D</text></g>\n",
    "<g class='p i' transform='translate(484 0)'><title>issue in cycle 12, on the critical path</title><rect width='14' height='18'/><path class='m' d='M1 1H13V17H1Z'/><path class='m' d='M2.5 2.5H11.5V15.5H2.5Z'/><text x='7' y='13'>I</text></g>\n",
    "<title>execution in cycle 13, on the critical path</title><rect width='14' height='18'/><path class='m' d='M1 1H13V17H1Z'/><path class='m' d='M2.5 2.5H11.5V15.5H2.5Z'/><text x='7' y='13'>=</text></g>\n",
    "<title>wait for the bus in cycle 14, on the critical path</title><rect width='14' height='18'/><path class='m' d='M1 1H13V17H1Z'/><path class='m' d='M2.5 2.5H11.5V15.5H2.5Z'/><text x='7' y='13'>~</text></g>\n",
    "<title>broadcast in cycle 15, on the critical path</title><rect width='14' height='18'/><path class='m' d='M1 1H13V17H1Z'/><path class='m' d='M2.5 2.5H11.5V15.5H2.5Z'/><text x='7' y='13'>B</text></g>\n",
    "<title>wait for the head in cycle 16</title><rect width='14' height='18'/><text x='7' y='13'>.</text></g>\n",
    "<title>retirement in cycle 17, on the critical path</title><rect width='14' height='18'/><path class='m' d='M1 1H13V17H1Z'/><path class='m' d='M2.5 2.5H11.5V15.5H2.5Z'/><text x='7' y='13'>C</text></g>\n",
    "<title>trap in cycle 18, on the critical path</title><rect width='14' height='18'/><path class='m' d='M1 1H13V17H1Z'/><path class='m' d='M2.5 2.5H11.5V15.5H2.5Z'/><text x='7' y='13'>T</text></g>\n",
    "<title>squash in cycle 14, on the critical path</title><rect width='14' height='18'/><path class='m' d='M1 1H13V17H1Z'/><path class='m' d='M2.5 2.5H11.5V15.5H2.5Z'/><text x='7' y='13'>x</text></g>\n",
    "<title>fetch in cycle 11</title><rect width='14' height='18'/><text x='7' y='13'>F</text></g>\n",
    "<g transform='translate(450 44)'><g class='p f'><rect width='14' height='18'/><path class='m' d='M1 1H13V17H1Z'/><path class='m' d='M2.5 2.5H11.5V15.5H2.5Z'/><text x='7' y='13'>F</text></g><text x='20' y='13'>on the critical path</text></g>\n</g>\n<g transform='translate(0 76)'>\n",
    "</style>\n<rect class='page' width='100%' height='100%'/>\n<style>\n.m{fill:none;stroke:#fff;stroke-width:1.5}\n.m+.m{stroke:#000}\n.m+text{font-weight:bold}\n</style>\n<g transform='translate(8 8)'>\n",
];

#[test]
fn the_boxes_of_the_critical_path_have_rings_and_the_legend_says_so(rt: HostRuntime) {
    let svg = drawn(&rt, rt.alloc(), Some(MARKS.as_slice()));
    check_parts(&rt, svg.as_str(), &SHOWN);
    // Ten boxes, and the one in the legend, each with two rings.
    check_count(&rt, svg.as_str(), "class='m'", 22);
    check_count(&rt, svg.as_str(), "on the critical path", 11);
}

#[test]
fn a_picture_that_marks_nothing_has_a_legend_of_the_marks_and_one_with_no_path_none(
    rt: HostRuntime,
) {
    static OF_MARKS: [&str; 4] = ["class='m'", ".m{", ".m+text", "critical"];
    let nothing = drawn(&rt, rt.alloc(), Some(&[]));
    check_count(&rt, nothing.as_str(), "class='m'", 2);
    check_count(&rt, nothing.as_str(), "on the critical path", 1);
    let plain = drawn(&rt, rt.alloc(), None);
    check_none(&rt, plain.as_str(), &OF_MARKS);
}
