ghost use Rattle.std.specs.Prelude.{◌≡◌};
ghost use Rattle.rv_states.specs.Stop.{stop_line, stop_name};
ghost use Rattle.rv_text.specs.Said.{Says};

use crate::json::{Member, Value, write_object};
use rv_arch::Stop;
use rv_text::Sink;
use std::io::Write;

fn stop_name(stop: Stop) -> &'static str
    ensures { result.now ≡ stop_name stop }
{
    match stop {
        Stop::Limit => "limit",
        Stop::Breakpoint => "breakpoint",
        Stop::Stale(_) => "stale",
        Stop::Exhausted => "exhausted",
    }
}

/// Writes the line that says after how many cycles a run ended, and why.
#[tactic(auto, using(rv_text::proofs::Saying::says_both), unfolding(crate::specs::Stop::stop_json, crate::specs::Stop::stop_line))]
pub fn write_stop<W: Write>(out: &mut Sink<'_, W>, cycles: u64, stop: Stop)
    ensures { Says W.contents out.old out.new (stop_line cycles stop) }
{
    write_object(
        out,
        "cycles",
        cycles,
        &[Member {
            name: "stop",
            value: Value::Name(stop_name(stop)),
        }],
    );
    out.put(b"\n")
}
