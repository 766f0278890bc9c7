ghost use Rattle.std.specs.Prelude.{◌≡◌, ◌++◌, IfOk, OnOk, map};
ghost use Rattle.std.specs.List.{filter};
ghost use Rattle.rv_describe.specs.Near.{is_near};
ghost use Rattle.rv_refusal.specs.Near.{names_line, nearest, other_names, spelling_line};

use crate::key_line::is_among;
use crate::names::add_name;
use crate::text::{add_all, add_text};
use rv_describe::is_near;
use std::alloc::{AllocError, Global};

// Adds the known names that are so many edits away from an unknown one.
fn add_near<'a>(
    alloc: Global,
    found: &mut Vec<&'a [u8]>,
    distance: usize,
    name: &[u8],
    known: &[&'a [u8]],
) -> Result<(), AllocError>
    ensures { OnOk result (map (λ other. other.now) found.new.items
        ≡ map (λ other. other.now) found.old.items
        ++ filter (is_near distance name.now) (map (λ other. other.now) known.now)) }
{
    for other in known {
        if is_near(alloc, distance, name, other)? {
            add_name(found, other)?;
        }
    }
    Ok(())
}

// The known names that are nearest to an unknown one.
#[tactic(auto, using(crate::proofs::Named::named_three))]
fn nearest<'a>(alloc: Global, name: &[u8], known: &[&'a [u8]]) -> Result<Vec<&'a [u8]>, AllocError>
    ensures { IfOk result (λ found. map (λ other. other.now) found.items
        ≡ nearest name.now (map (λ other. other.now) known.now)) }
{
    let mut found = Vec::new(alloc);
    add_near(alloc, &mut found, 1, name, known)?;
    if found.is_empty() {
        add_near(alloc, &mut found, 2, name, known)?;
    }
    found.truncate(3);
    Ok(found)
}

// Appends names, each after a comma and a blank.
fn add_others(out: &mut Vec<u8>, names: &[&[u8]]) -> Result<(), AllocError>
    ensures { OnOk result (out.new.items ≡ out.old.items ++ other_names (map (λ name. name.now) names.now)) }
{
    for name in names {
        add_all(out, &[b", ", name])?;
    }
    Ok(())
}

/// Appends the line on some names, if there are any.
#[tactic(auto, unfolding(crate::specs::Near::names_line))]
pub(crate) fn add_names_line(out: &mut Vec<u8>, names: &[&[u8]]) -> Result<(), AllocError>
    ensures { OnOk result (out.new.items ≡ out.old.items ++ names_line (map (λ name. name.now) names.now)) }
{
    let [first, others @ ..] = names else {
        return Ok(());
    };
    add_all(out, &[b"nearest: ", first])?;
    add_others(out, others)?;
    add_text(out, b"\n")
}

/// Appends the line on the known names that are nearest to an unknown one, if some are near.
pub(crate) fn add_nearest(
    alloc: Global,
    out: &mut Vec<u8>,
    name: &[u8],
    known: &[&[u8]],
) -> Result<(), AllocError>
    ensures { OnOk result (out.new.items
        ≡ out.old.items ++ names_line (nearest name.now (map (λ other. other.now) known.now))) }
{
    let names = nearest(alloc, name, known)?;
    add_names_line(out, names.as_slice())
}

/// Appends the line on an unknown name: that it is known in small letters, or else the known names that are nearest to
/// it; nothing of a known one.
#[tactic(auto, unfolding(crate::specs::Near::spelling_line))]
pub(crate) fn add_spelling_line(
    alloc: Global,
    out: &mut Vec<u8>,
    name: &[u8],
    known: &[&[u8]],
) -> Result<(), AllocError>
    ensures { OnOk result (out.new.items
        ≡ out.old.items ++ spelling_line name.now (map (λ other. other.now) known.now)) }
{
    if is_among(name, known) {
        return Ok(());
    }
    let small = name.to_ascii_lowercase(alloc)?;
    if is_among(small.as_slice(), known) {
        return add_all(
            out,
            &[
                b"names are written in small letters: ",
                small.as_slice(),
                b"\n",
            ],
        );
    }
    add_nearest(alloc, out, name, known)
}
