ghost use Rattle.std.specs.Prelude.{◌+◌, ◌<◌, ◌^◌};

use crate::checks::{check, check_none, check_part, check_parts, check_text};
use crate::machine::listing;
use rv_decode::Decoded;
use rv_drawing::{Mark, Window, write_picture_svg, write_picture_text};
use rv_hardware::Stall;
use rv_isa::{Cause, Issue, Reg};
use rv_passage::{Ending, Passage, Producers};
use std::alloc::Global;
use std::process::Abort;
use std::test::Fail;

// Ten cycles from cycle 10 on.
pub(crate) const WINDOW: Window = Window {
    first: 10,
    cycles: 10,
    stopped: None,
};

// The second, third and fourth are those in the window.
pub(crate) const INTERRUPTS: [u64; 5] = [9, 10, 13, 19, 20];

pub(crate) static LINES: [&str; 2] = [
    "addi\tx1,x0,5",
    "ebreak # stops & \"waits\" <here> for good",
];

const TEXT: &str = "                                                           10        \n\
7ffffff8 00000013                         -                x         \n\
80000000 addi x1,x0,5                     x1/ra=00000005   FDI=~B.C  \n\
80000004 ebreak # stops & \"waits\" <here>  -                 FD.....T \n\
80000008 0000006f                         -                  F.x     \n\
8000000c 00000013                         -                   FDI==~~\n\
00000000 -                                -                         F\n\
interrupts                                                 !  !     !\n\
F fetch  D dispatch  I issue  = execution  ~ wait for the bus  B broadcast  C retirement  T trap  x squash  . wait  ! interrupt\n";

pub(crate) fn fetched(number: u64, pc: u32, word: Option<u32>, cycle: u64) -> Passage {
    Passage {
        number,
        pc,
        word,
        instruction: Decoded::none(),
        predicted: None,
        fetched: cycle,
        dispatched: None,
        producers: Producers::NONE,
        issue: None,
        broadcast: None,
        ending: Ending::InFlight,
    }
}

// One that left before the window, one that left in its first cycle, one for each ending, two in flight, and one that is fetched
// after the window.
pub(crate) fn passages() -> [Passage; 8] {
    let register = Reg::new(1);
    [
        Passage {
            ending: Ending::Squashed { cycle: 9 },
            ..fetched(0, 0x7fff_fffc, Some(0x13), 8)
        },
        Passage {
            ending: Ending::Squashed { cycle: 10 },
            ..fetched(1, 0x7fff_fff8, Some(0x13), 9)
        },
        Passage {
            dispatched: Some(11),
            issue: Some(Issue { cycle: 12, cost: 2 }),
            broadcast: Some(15),
            ending: Ending::Retired {
                order: 0,
                cycle: 17,
                written: register.map(|register| (register, 5)),
                next: 0x8000_0004,
            },
            ..fetched(2, 0x8000_0000, Some(0x0050_0093), 10)
        },
        Passage {
            dispatched: Some(12),
            ending: Ending::Trapped {
                cycle: 18,
                cause: Cause::Breakpoint,
            },
            ..fetched(3, 0x8000_0004, Some(0x0010_0073), 11)
        },
        Passage {
            ending: Ending::Squashed { cycle: 14 },
            ..fetched(4, 0x8000_0008, Some(0x6f), 12)
        },
        Passage {
            dispatched: Some(14),
            issue: Some(Issue { cycle: 15, cost: 3 }),
            ..fetched(5, 0x8000_000c, Some(0x13), 13)
        },
        fetched(6, 0, None, 19),
        fetched(7, 4, None, 20),
    ]
}

// The picture in characters of the passages in the window, whose last cycle ended the run at the stale word of an instruction, if it did.
fn written(rt: &impl Abort, alloc: Global, interrupts: &[u64], stopped: Option<u64>) -> String {
    let window = Window { stopped, ..WINDOW };
    let listing = listing(rt, alloc, &LINES);
    let mut text = Vec::new(alloc);
    write_picture_text(&passages(), interrupts, None, &listing, window, &mut text).expect(
        rt, "room",
    );
    String::from_utf8(text).expect(rt, "ASCII")
}

// The SVG of rows in a window, and of interrupts, with what the oldest fetched word waits for in each cycle and the marks, if it has any,
// of a program with these lines.
pub(crate) fn drawn_rows(
    rt: &impl Abort,
    alloc: Global,
    rows: &[Passage],
    interrupts: &[u64],
    stalls: &[Option<Stall>],
    marks: Option<&[Mark]>,
    lines: &[&str],
    window: Window,
) -> String
    requires { window.first + window.cycles < 2 ^ 64 }
{
    let listing = listing(rt, alloc, lines);
    let mut text = Vec::new(alloc);
    write_picture_svg(rows, interrupts, stalls, marks, &listing, window, &mut text).expect(
        rt, "room",
    );
    String::from_utf8(text).expect(rt, "ASCII")
}

// The SVG of the passages in the window.
fn drawn(rt: &impl Abort, alloc: Global, interrupts: &[u64], stopped: Option<u64>) -> String {
    let window = Window { stopped, ..WINDOW };
    drawn_rows(
        rt,
        alloc,
        &passages(),
        interrupts,
        &[],
        None,
        &LINES,
        window,
    )
}

#[test]
fn an_instruction_whose_stale_word_ended_the_run_is_marked(rt: HostRuntime) {
    let text = written(&rt, rt.alloc(), &[], Some(5));
    let row =
        "\n8000000c 00000013                         stale               FDI==~~\n00000000 -                                -  ";
    check_part(&rt, text.as_str(), row);
    let svg = drawn(&rt, rt.alloc(), &[], Some(5));
    check_parts(&rt, svg.as_str(), &STALE);
}

#[test]
fn each_ending_has_its_letter_and_each_phase_its_own(rt: HostRuntime) {
    let text = written(&rt, rt.alloc(), &INTERRUPTS, None);
    check_text(&rt, text.as_str(), TEXT);
}

// A class, a column, a name, a cycle and a letter.
static BOXES: [(&str, u32, &str, u32, &str); 10] = [
    ("f", 456, "fetch", 10, "F"),
    ("d", 470, "dispatch", 11, "D"),
    ("i", 484, "issue", 12, "I"),
    ("e", 498, "execution", 13, "="),
    ("r", 512, "wait for the bus", 14, "~"),
    ("b", 526, "broadcast", 15, "B"),
    ("w", 540, "wait for the head", 16, "."),
    ("c", 554, "retirement", 17, "C"),
    ("t", 568, "trap", 18, "T"),
    ("x", 512, "squash", 14, "x"),
];

// Where in the legend a class and a letter stand, and what it says of them.
static MEANINGS: [(&str, &str, &str, &str); 10] = [
    ("0 0", "f", "F", "fetch"),
    ("150 0", "d", "D", "dispatch"),
    ("300 0", "i", "I", "issue"),
    ("450 0", "e", "=", "execution"),
    ("0 22", "r", "~", "wait for the bus"),
    ("150 22", "b", "B", "broadcast"),
    ("300 22", "c", "C", "retirement"),
    ("450 22", "t", "T", "trap"),
    ("0 44", "x", "x", "squash"),
    ("150 44", "w", ".", "wait"),
];

// What stands around ten columns and six rows: the last row ends at 44 + 6 * 18 = 152.
static FRAME: [&str; 9] = [
    "<svg xmlns='http://www.w3.org/2000/svg' width='748' height='246' viewBox='0 0 748 246'>\n",
    "<g class='n' transform='translate(456 0)'><title>cycle 10</title><path d='M0 20V152'/><text x='3' y='16'>10</text></g>\n",
    "<g class='v' transform='translate(456 0)'><title>cycle 10, interrupt</title><path d='M0 38V152'/><text x='7' y='34'>!</text></g>\n",
    "<g class='v' transform='translate(498 0)'><title>cycle 13, interrupt</title><path d='M0 38V152'/><text x='7' y='34'>!</text></g>\n",
    "<g class='v' transform='translate(582 0)'><title>cycle 19, interrupt</title><path d='M0 38V152'/><text x='7' y='34'>!</text></g>\n</g>\n</svg>\n",
    "<g transform='translate(300 44)'><g class='v'><text x='7' y='13'>!</text></g><text x='20' y='13'>interrupt</text></g>\n</g>\n<g transform='translate(0 76)'>\n",
    "</text><text x='328' y='13'>x1/ra=00000005</text>\n<g class='p f' transform='translate(456 0)'>",
    "\n.out text{fill:#6b6b6b}\n",
    "\n.trap text{fill:#a00}\n",
];

// How the rows begin.
static ROWS: [&str; 6] = [
    "<g class='out' transform='translate(0 44)'><text x='8' y='13'>7ffffff8</text><text x='84' y='13'>00000013</text>",
    "<g class='done' transform='translate(0 62)'><text x='8' y='13'>80000000</text><text x='84' y='13'>addi x1,x0,5</text>",
    "<g class='trap' transform='translate(0 80)'><text x='8' y='13'>80000004</text><text x='84' y='13'>ebreak # stops &amp; &quot;waits&quot; &lt;here&gt; </text>",
    "<g class='out' transform='translate(0 98)'><text x='8' y='13'>80000008</text><text x='84' y='13'>0000006f</text>",
    "<g class='open' transform='translate(0 116)'><text x='8' y='13'>8000000c</text><text x='84' y='13'>00000013</text>",
    "<g class='open' transform='translate(0 134)'><text x='8' y='13'>00000000</text><text x='84' y='13'>-</text>",
];

// What stands in the row of a stale word.
static STALE: [&str; 3] = [
    "<g class='stale' transform='translate(0 116)'><text x='8' y='13'>8000000c</text><text x='84' y='13'>00000013</text><text x='328' y='13'>stale</text>\n",
    "<title>the run ended here: the word is stale</title>\n</g>\n<g class='open' transform='translate(0 134)'>",
    "\n.stale text{fill:#a00}\n",
];

#[test]
fn each_row_in_the_window_and_each_interrupt_is_drawn(rt: HostRuntime) {
    static OUTSIDE: [&str; 4] = ["cycle 9,", "cycle 20", "7ffffffc", "00000004"];
    let svg = drawn(&rt, rt.alloc(), &INTERRUPTS, None);
    check_parts(&rt, svg.as_str(), &ROWS);
    check_parts(&rt, svg.as_str(), &FRAME);
    check_none(&rt, svg.as_str(), &OUTSIDE);
}

fn check_box(
    rt: &impl Abort,
    alloc: Global,
    svg: &str,
    (class, column, name, cycle, letter): (&str, u32, &str, u32, &str),
) {
    let shown = format!(in alloc;
        "<g class='p {class}' transform='translate({column} 0)'><title>{name} in cycle {cycle}</title><rect width='14' height='18'/><text x='7' y='13'>{letter}</text></g>\n"
    ).expect(rt, "a text");
    check_part(rt, svg, shown.as_str());
}

fn check_meaning(
    rt: &impl Abort,
    alloc: Global,
    svg: &str,
    (place, class, letter, name): (&str, &str, &str, &str),
) {
    let meaning = format!(in alloc;
        "<g transform='translate({place})'><g class='p {class}'><rect width='14' height='18'/><text x='7' y='13'>{letter}</text></g><text x='20' y='13'>{name}</text></g>\n"
    ).expect(rt, "a text");
    check_part(rt, svg, meaning.as_str());
}

#[test]
fn each_kind_of_cell_has_a_box_and_a_meaning(rt: HostRuntime) {
    let svg = drawn(&rt, rt.alloc(), &INTERRUPTS, None);
    for kind in &BOXES {
        check_box(&rt, rt.alloc(), svg.as_str(), *kind);
    }
    for kind in &MEANINGS {
        check_meaning(&rt, rt.alloc(), svg.as_str(), *kind);
    }
}

// What a rule of the style says of a class's boxes.
fn colour_of<'a>(rt: &impl Abort, alloc: Global, svg: &'a str, class: &str) -> &'a str {
    let rule = format!(in alloc; "\n.{class} rect{{fill:").expect(rt, "a text");
    let (_, after) = svg
        .split_once(rule.as_str())
        .expect(rt, "a rule for the class");
    let (colour, _) = after.split_once("}").expect(rt, "the end of the rule");
    colour
}

#[test]
fn each_kind_of_cell_has_a_colour_of_its_own(rt: HostRuntime) -> Result<(), Fail> {
    let alloc = rt.alloc();
    let svg = drawn(&rt, alloc, &INTERRUPTS, None);
    let mut colours = Vec::new(alloc);
    for (class, ..) in &BOXES {
        let colour = colour_of(&rt, alloc, svg.as_str(), class);
        check(&rt, !colours.contains(&colour));
        colours.push(colour)?;
    }
    Ok(())
}
