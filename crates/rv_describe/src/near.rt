ghost use Rattle.std.specs.Prelude.{◌≡◌, ◌++◌, IfOk, OnOk};
ghost use Rattle.rv_describe.specs.Near.{is_near, near_keys, nearest_keys};

use rv_isa::{Key, all_keys};
use std::alloc::{AllocError, Global};
use strsim::generic_levenshtein;

/// Whether a known name is so many edits away from an unknown one. The only error is out of memory.
pub fn is_near(
    alloc: Global,
    distance: usize,
    name: &[u8],
    other: &[u8],
) -> Result<bool, AllocError>
    ensures { IfOk result (λ near. near ≡ is_near distance name.now other.now) }
{
    if distance >= name.len() || name.len() > 64 {
        return Ok(false);
    }
    if other.len().saturating_sub(distance) > name.len() {
        return Ok(false);
    }
    let edits = generic_levenshtein(alloc, name, other)?;
    Ok(edits == distance)
}

// Adds those of some keys that are so many edits away from an unknown name.
fn add_near(
    alloc: Global,
    found: &mut Vec<Key>,
    distance: usize,
    name: &[u8],
    keys: &[Key],
) -> Result<(), AllocError>
    ensures { OnOk result (found.new.items ≡ found.old.items ++ near_keys distance name.now keys.now) }
{
    for key in keys {
        if is_near(alloc, distance, name, key.place().text.as_bytes())? {
            found.push(*key)?;
        }
    }
    Ok(())
}

/// The keys whose names are nearest to an unknown one, at most three. The only error is out of memory.
pub fn nearest_keys(alloc: Global, name: &[u8]) -> Result<Vec<Key>, AllocError>
    ensures { IfOk result (λ found. found.items ≡ nearest_keys name.now) }
{
    let mut found = Vec::new(alloc);
    add_near(alloc, &mut found, 1, name, all_keys())?;
    add_near(alloc, &mut found, 2, name, all_keys())?;
    found.truncate(3);
    Ok(found)
}
