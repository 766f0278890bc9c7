ghost use Rattle.std.specs.Prelude.{codes, map};
ghost use Rattle.rv_states.specs.Json.{also, array, begins};
ghost use Rattle.rv_states.specs.Units.{start_json, units_json};
ghost use Rattle.rv_text.specs.Said.{Says};

use crate::array::{Values, write_array, write_array_member};
use crate::json::{Member, write_key, write_object};
use rv_isa::{Issue, Kind};
use rv_text::Sink;
use rv_units::Units;
use std::io::Write;

/// The starts of a kind that the units remember, as an array has them.
#[derive(Drop)]
struct Starts<'a> {
    units: &'a Units,
    kind: Kind,
}

impl Values for Starts<'_> {
    ghost use Rattle.std.specs.Prelude.{map};
    ghost use Rattle.rv_isa.specs.PerKind.{at_kind};
    ghost use Rattle.rv_states.specs.Units.{start_json};

    ghost values = { λ s. map start_json (at_kind s.kind s.units.now).starts };

    fn count(&self) -> usize {
        self.units.start_count(self.kind)
    }

    fn write_value<W: Write>(&self, out: &mut Sink<'_, W>, place: usize) {
        match self.units.start_at(self.kind, place) {
            Some(start) => write_start(out, start),
            None => {}
        }
    }
}

#[tactic(auto, unfolding(crate::specs::Units::start_json))]
fn write_start<W: Write>(out: &mut Sink<'_, W>, start: Issue)
    ensures { Says W.contents out.old out.new (start_json start) }
{
    write_object(
        out,
        "since",
        start.cycle,
        &[Member::word("cycles", start.cost)],
    )
}

// Those of the first kind.
#[tactic(auto, using(rv_text::proofs::Saying::says_both), unfolding(crate::specs::Json::begins, crate::specs::Json::opens))]
fn write_first<W: Write>(out: &mut Sink<'_, W>, units: &Units)
    ensures { Says W.contents out.old out.new (begins (codes "alu") (array (map start_json units.now.alu.starts))) }
{
    out.put(b"{\"alu\":");
    write_array(
        out,
        &Starts {
            units,
            kind: Kind::Alu,
        },
    )
}

fn write_kinds<W: Write>(out: &mut Sink<'_, W>, units: &Units)
    ensures { Says W.contents out.old out.new (units_json units.now) }
{
    write_first(out, units);
    write_array_member(
        out,
        "mul",
        &Starts {
            units,
            kind: Kind::Mul,
        },
    );
    write_array_member(
        out,
        "div",
        &Starts {
            units,
            kind: Kind::Div,
        },
    );
    write_array_member(
        out,
        "mem",
        &Starts {
            units,
            kind: Kind::Mem,
        },
    );
    out.put(b"}")
}

/// Writes the member that has the units.
#[tactic(auto, using(rv_text::proofs::Saying::says_both), unfolding(crate::specs::Json::also))]
pub fn write_units<W: Write>(out: &mut Sink<'_, W>, units: &Units)
    ensures { Says W.contents out.old out.new (also (codes "units") (units_json units.now)) }
{
    write_key(out, "units");
    write_kinds(out, units)
}
