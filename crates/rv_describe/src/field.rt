ghost use Rattle.std.specs.Prelude.{◌≡◌};
ghost use Rattle.toml.specs.View.{view};
ghost use Rattle.rv_describe.specs.Field.{HasField, field_fault, field_with};

use crate::entry::{cycle_in, level_in, line_in};
use crate::faults::{ValueFault, choice_fault, is_fault};
use toml::Value;

/// A field of an entry of a list of arrivals.
#[derive(Clone, Copy, Debug, PartialEq, Eq)]
pub enum Field {
    /// `cycle`, from which on the line has its level.
    Cycle,
    /// `line`, the interrupt line.
    Line,
    /// `level`, which the line has from then on.
    Level,
}

// What is wrong with a field of an entry.
#[tactic(auto, unfolding(crate::specs::Field::field_fault))]
fn field_fault(field: Field, entry: &Value) -> Option<ValueFault>
    ensures { result ≡ field_fault field (view entry.now) }
{
    match field {
        Field::Cycle => choice_fault(cycle_in(entry)),
        Field::Line => choice_fault(line_in(entry)),
        Field::Level => choice_fault(level_in(entry)),
    }
}

/// The first field of an entry with a fault.
pub(crate) fn field_with(fault: ValueFault, entry: &Value) -> Option<Field>
    ensures first { result ≡ field_with fault (view entry.now) }
    ensures read { HasField fault (view entry.now) result }
{
    if is_fault(field_fault(Field::Cycle, entry), fault) {
        return Some(Field::Cycle);
    }
    if is_fault(field_fault(Field::Line, entry), fault) {
        return Some(Field::Line);
    }
    if is_fault(field_fault(Field::Level, entry), fault) {
        return Some(Field::Level);
    }
    None
}
