ghost use Rattle.std.specs.Prelude.{◌≡◌, ◌++◌, IfOk, map};
ghost use Rattle.std.specs.List.{filter_map};
ghost use Rattle.rv_sensitivity.specs.Neighbours.{legal_machine, neighbour_of, neighbours_of};
ghost use Rattle.rv_sensitivity.specs.Trials.{tried, trials};

use crate::change::{Change, changed, is_new};
use crate::trials::{all_trials, tried};
use rv_isa::{Description, Values};
use std::alloc::{AllocError, Global};

/// A machine that is one change away from another.
#[derive(Clone, Copy)]
pub struct Neighbour {
    /// What is changed of that one.
    pub change: Change,
    /// The machine with the change.
    pub machine: Description,
}

// The machine with these values, if they are in their ranges.
fn legal_machine(values: Values) -> Option<Description>
    ensures { result ≡ legal_machine values }
{
    Description::new(values)
}

// The machine that a change makes of one, if it is another one and in the ranges of the keys.
fn made_neighbour(machine: &Description, change: Change) -> Option<Neighbour>
    ensures { result ≡ neighbour_of machine.now change }
{
    let values = machine.values();
    if !is_new(&values, change) {
        return None;
    }
    match legal_machine(changed(&values, change)) {
        Some(machine) => Some(Neighbour { change, machine }),
        None => None,
    }
}

// What is tried of a machine.
fn tried_changes(alloc: Global, values: &Values) -> Result<Vec<Change>, AllocError>
    ensures { IfOk result (λ changes. changes.items ≡ map (tried values.now) trials) }
{
    all_trials()
        .iter()
        .map(|trial| tried(values, *trial))
        .collect(alloc)
}

// What is tried of a machine, and then the changes of a user's own.
fn changes_of(alloc: Global, values: &Values, own: &[Change]) -> Result<Vec<Change>, AllocError>
    ensures { IfOk result (λ changes. changes.items ≡ map (tried values.now) trials ++ own.now) }
{
    let mut changes = tried_changes(alloc, values)?;
    changes.extend_from_slice(own)?;
    Ok(changes)
}

// The machines that changes make of one, in their order.
fn made_by(
    alloc: Global,
    machine: &Description,
    changes: &[Change],
) -> Result<Vec<Neighbour>, AllocError>
    ensures { IfOk result (λ found. found.items ≡ filter_map (neighbour_of machine.now) changes.now) }
{
    changes
        .iter()
        .filter_map(|change| made_neighbour(machine, *change))
        .collect(alloc)
}

/// The machines that are one change away from a described one, in the order of the keys, and then those that changes of a
/// user's own make of it. One that is the same machine, or has a value out of its range, is left out. The only error is out of
/// memory.
#[tactic(auto, unfolding(crate::specs::Neighbours::neighbours_of))]
pub fn neighbours(
    alloc: Global,
    machine: &Description,
    own: &[Change],
) -> Result<Vec<Neighbour>, AllocError>
    ensures { IfOk result (λ found. found.items ≡ neighbours_of machine.now own.now) }
{
    let values = machine.values();
    let changes = changes_of(alloc, &values, own)?;
    made_by(alloc, machine, changes.as_slice())
}
