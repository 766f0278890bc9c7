ghost use Rattle.std.specs.Prelude.{◌≡◌, ◌++◌, OnOk};
ghost use Rattle.rv_refusal.specs.Place.{line_place, place_line, shown_line};

use crate::text::{add_all, add_plain};
use itoa::Buffer;
use rv_asm::AsmFault;
use rv_job::without_return;
use std::alloc::AllocError;

/// Appends where a line stands of a part of the job, which has this name, and that so many lines of the job stand before.
#[tactic(auto, unfolding(crate::specs::Place::line_place))]
pub(crate) fn add_line_place(
    out: &mut Vec<u8>,
    part: &[u8],
    before: usize,
    number: usize,
) -> Result<(), AllocError>
    ensures { OnOk result (out.new.items ≡ out.old.items ++ line_place part.now before number) }
{
    let mut whole = Buffer::new();
    let in_job = whole.format(before as u128 + number as u128).as_bytes();
    let mut own = Buffer::new();
    let in_part = own.format(number).as_bytes();
    add_all(
        out,
        &[
            b"line ",
            in_job,
            b" of the job, line ",
            in_part,
            b" of its ",
            part,
        ],
    )
}

/// Appends where a line of the assembly stands that so many lines of the job stand before, and its fault.
#[tactic(auto, unfolding(crate::specs::Place::place_line))]
pub(crate) fn add_place(
    out: &mut Vec<u8>,
    before: usize,
    number: usize,
    fault: AsmFault,
) -> Result<(), AllocError>
    ensures { OnOk result (out.new.items ≡ out.old.items ++ place_line before number fault) }
{
    add_line_place(out, b"assembly", before, number)?;
    add_all(out, &[b": ", fault.name().as_bytes(), b"\n"])
}

/// Appends a line in printing characters, without the carriage return that may end it.
#[tactic(auto, unfolding(crate::specs::Place::shown_line))]
pub(crate) fn add_line(out: &mut Vec<u8>, line: &[u8]) -> Result<(), AllocError>
    ensures { OnOk result (out.new.items ≡ out.old.items ++ shown_line line.now) }
{
    out.extend_from_slice(b"    ")?;
    add_plain(out, without_return(line))?;
    out.extend_from_slice(b"\n")
}
