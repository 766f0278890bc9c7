ghost use Rattle.std.specs.Prelude.{◌≡◌, option_copied};
ghost use Rattle.rv_drawing.specs.Marked.{is_mark, is_marked, marks_in};

/// An event on the critical path, which a picture marks: the instruction's number in the picture, and the column of its
/// cycle, from 0.
#[derive(Clone, Copy)]
pub struct Mark {
    /// The instruction's number, from 0.
    pub number: u64,
    /// The column, from 0.
    pub column: u64,
}

// Whether a mark is of an instruction's cell in a column.
fn is_mark(mark: &Mark, number: u64, column: u64) -> bool
    ensures { result ≡ is_mark number column mark.now }
{
    mark.number == number && mark.column == column
}

/// Whether an instruction's cell in a column is marked.
pub(crate) fn is_marked(marks: &[Mark], number: u64, column: u64) -> bool
    ensures { result ≡ is_marked marks.now number column }
{
    marks.iter().any(|mark| is_mark(mark, number, column))
}

// The marks from the first of an instruction on.
fn from_first(marks: &[Mark], number: u64) -> &[Mark]
    ensures { is_marked result.now number ≡ is_marked marks.now number }
{
    let mut rest = marks;
    while let [first, others @ ..] = rest {
        if first.number == number {
            break;
        }
        rest = others;
    }
    rest
}

// The marks up to the last of an instruction.
fn up_to_last(marks: &[Mark], number: u64) -> &[Mark]
    ensures { is_marked result.now number ≡ is_marked marks.now number }
{
    let mut rest = marks;
    while let [others @ .., last] = rest {
        if last.number == number {
            break;
        }
        rest = others;
    }
    rest
}

/// The marks from the first to the last of an instruction: few, where those of an instruction stand together, as on a path.
pub(crate) fn marks_of(marks: &[Mark], number: u64) -> &[Mark]
    ensures { is_marked result.now number ≡ is_marked marks.now number }
{
    up_to_last(from_first(marks, number), number)
}

/// The marks of a picture, if it has some.
pub(crate) fn marks_in(marks: Option<&[Mark]>) -> &[Mark]
    ensures { result.now ≡ marks_in (option_copied marks.entry) }
{
    match marks {
        Some(marks) => marks,
        None => &[],
    }
}
