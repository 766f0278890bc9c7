ghost use Rattle.std.specs.Prelude.{codes};
ghost use Rattle.rv_isa.specs.Key.{kind_name};
ghost use Rattle.rv_states.specs.Json.{also};
ghost use Rattle.rv_states.specs.Machine.{buffers_text, cache_json, header_line, kind_json, kinds_text, machine_json};
ghost use Rattle.rv_states.specs.Machine.{numbers_text, predictor_json, recovery_text, sizes_text, widths_text};
ghost use Rattle.rv_text.specs.Said.{Says};

use crate::json::{
    Member, Value, write_front, write_key, write_members, write_name, write_object_member,
};
use rv_isa::{CacheValues, Kind, KindValues, PredictorValues, Recovery, Values};
use rv_text::Sink;
use std::io::Write;

#[tactic(auto, unfolding(crate::specs::Machine::sizes_text))]
fn write_sizes<W: Write>(out: &mut Sink<'_, W>, values: &Values)
    ensures { Says W.contents out.old out.new (sizes_text values.now) }
{
    write_front(
        out,
        "ram_base",
        u64::from(values.ram_base),
        &[
            Member::word("ram_size", values.ram_size),
            Member::word("rom_bytes", values.rom_bytes),
        ],
    )
}

#[tactic(auto, unfolding(crate::specs::Machine::widths_text))]
fn write_widths<W: Write>(out: &mut Sink<'_, W>, values: &Values)
    ensures { Says W.contents out.old out.new (widths_text values.now) }
{
    write_members(
        out,
        &[
            Member::word("fetch_width", values.fetch_width),
            Member::word("dispatch_width", values.dispatch_width),
            Member::word("commit_width", values.commit_width),
            Member::word("bus_width", values.bus_width),
        ],
    )
}

#[tactic(auto, unfolding(crate::specs::Machine::buffers_text))]
fn write_buffers<W: Write>(out: &mut Sink<'_, W>, values: &Values)
    ensures { Says W.contents out.old out.new (buffers_text values.now) }
{
    write_members(
        out,
        &[
            Member::word("fetch_buffer", values.fetch_buffer),
            Member::word("rob", values.rob),
            Member::word("store_queue", values.store_queue),
            Member::word("forward", values.forward),
        ],
    )
}

#[tactic(auto, unfolding(crate::specs::Machine::recovery_text))]
fn write_recovery<W: Write>(out: &mut Sink<'_, W>, recovery: Recovery)
    ensures { Says W.contents out.old out.new (recovery_text recovery) }
{
    write_name(out, "recovery", recovery.name())
}

#[tactic(auto, using(rv_text::proofs::Saying::says_both), unfolding(crate::specs::Machine::numbers_text))]
fn write_numbers<W: Write>(out: &mut Sink<'_, W>, values: &Values)
    ensures { Says W.contents out.old out.new (numbers_text values.now) }
{
    write_sizes(out, values);
    write_widths(out, values);
    write_buffers(out, values);
    write_recovery(out, values.recovery)
}

#[tactic(auto, unfolding(crate::specs::Machine::kind_json))]
fn write_kind<W: Write>(out: &mut Sink<'_, W>, kind: Kind, values: KindValues)
    ensures { Says W.contents out.old out.new (also (kind_name kind) (kind_json values)) }
{
    write_object_member(
        out,
        kind.name(),
        "stations",
        u64::from(values.stations),
        &[
            Member::word("units", values.units),
            Member::word("latency", values.latency),
            Member {
                name: "pipelined",
                value: Value::Truth(values.pipelined),
            },
        ],
    )
}

#[tactic(auto, using(rv_text::proofs::Saying::says_both), unfolding(crate::specs::Machine::kinds_text))]
fn write_kinds<W: Write>(out: &mut Sink<'_, W>, values: &Values)
    ensures { Says W.contents out.old out.new (kinds_text values.now) }
{
    write_kind(out, Kind::Alu, values.kinds.alu);
    write_kind(out, Kind::Mul, values.kinds.mul);
    write_kind(out, Kind::Div, values.kinds.div);
    write_kind(out, Kind::Mem, values.kinds.mem)
}

#[tactic(auto, unfolding(crate::specs::Machine::cache_json))]
fn write_cache<W: Write>(out: &mut Sink<'_, W>, values: CacheValues)
    ensures { Says W.contents out.old out.new (also (codes "cache") (cache_json values)) }
{
    write_object_member(
        out,
        "cache",
        "sets",
        u64::from(values.sets),
        &[
            Member::word("ways", values.ways),
            Member::word("line", values.line),
            Member::word("hit", values.hit),
            Member::word("miss", values.miss),
            Member::word("write_back", values.write_back),
        ],
    )
}

#[tactic(auto, unfolding(crate::specs::Machine::predictor_json))]
fn write_predictor<W: Write>(out: &mut Sink<'_, W>, values: PredictorValues)
    ensures { Says W.contents out.old out.new (also (codes "predictor") (predictor_json values)) }
{
    write_object_member(
        out,
        "predictor",
        "entries",
        u64::from(values.entries),
        &[Member {
            name: "kind",
            value: Value::Name(values.kind.name()),
        }],
    )
}

#[tactic(auto, using(rv_text::proofs::Saying::says_both), unfolding(crate::specs::Machine::machine_json))]
fn write_machine<W: Write>(out: &mut Sink<'_, W>, values: &Values)
    ensures { Says W.contents out.old out.new (machine_json values.now) }
{
    write_numbers(out, values);
    write_kinds(out, values);
    write_cache(out, values.cache);
    write_predictor(out, values.predictor);
    out.put(b"}")
}

/// Writes the first line: the format, the number of the window's first cycle, and the machine's values.
#[tactic(auto, using(rv_text::proofs::Saying::says_both), unfolding(crate::specs::Machine::format_text, crate::specs::Machine::header_line))]
pub fn write_header<W: Write>(out: &mut Sink<'_, W>, first: u64, values: &Values)
    ensures { Says W.contents out.old out.new (header_line first values.now) }
{
    write_front(
        out,
        "first",
        first,
        &[Member {
            name: "format",
            value: Value::Name("rv_sim states 1"),
        }],
    );
    write_key(out, "machine");
    write_machine(out, values);
    out.put(b"}\n")
}
