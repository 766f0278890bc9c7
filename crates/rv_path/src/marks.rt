ghost use Rattle.std.specs.Prelude.{◌≡◌, ◌+◌, ◌<◌, ◌≤◌, ◌++◌, ◌∷◌, [], length, vec_capacity, IfOk};
ghost use Rattle.rv_causes.specs.Numbering.{number_by};
ghost use Rattle.rv_path.specs.Marking.{mark_of, marks_of};

use rv_causes::{Event, Numbering, is_marked};
use rv_drawing::Mark;
use std::alloc::{AllocError, Global};

// The mark of an event.
fn mark_of(from: u64, numbering: &Numbering, event: &Event) -> Mark
    ensures { result ≡ mark_of from (number_by numbering.now.numbers.items numbering.now.fetched) event.now }
{
    Mark {
        number: numbering.number_of(event.at.number),
        column: event.cycle.saturating_sub(from),
    }
}

// Appends the mark of an event, if it is marked.
fn push_mark(from: u64, numbering: &Numbering, event: &Event, marks: &mut Vec<Mark>)
    requires room { length marks.old.items < vec_capacity marks.old }
    ensures items { marks.new.items
        ≡ marks.old.items
        ++ marks_of from (number_by numbering.now.numbers.items numbering.now.fetched) (event.now ∷ []) }
    ensures few { length marks.new.items ≤ length marks.old.items + 1 }
    ensures capacity { vec_capacity marks.old ≤ vec_capacity marks.new }
{
    if is_marked(from, event) {
        marks.push(mark_of(from, numbering, event)).unwrap();
    }
}

/// The marks of a path in the window after so many cycles. The only error is out of memory.
#[tactic(auto, using(crate::proofs::MarksKept::marks_append))]
pub fn marks_of(
    alloc: Global,
    from: u64,
    numbering: &Numbering,
    path: &[Event],
) -> Result<Vec<Mark>, AllocError>
    ensures { IfOk result (λ marks. marks.items
        ≡ marks_of from (number_by numbering.now.numbers.items numbering.now.fetched) path.now) }
{
    let mut marks = Vec::with_capacity(alloc, path.len())?;
    for event in path {
        push_mark(from, numbering, event, &mut marks);
    }
    Ok(marks)
}
