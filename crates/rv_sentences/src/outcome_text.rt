ghost use Rattle.std.specs.Prelude.{◌≡◌};
ghost use Rattle.rv_sentences.specs.OutcomeText.{forwarded_text, has_any, loads_aside};
ghost use Rattle.rv_sentences.specs.OutcomeText.{outcomes_aside, outcomes_text, stores_aside};
ghost use Rattle.rv_text.specs.Said.{Says};

use crate::outcomes::Outcomes;
use rv_text::Sink;
use std::io::Write;

/// Whether there is one.
pub(crate) fn has_any(outcomes: &Outcomes) -> bool
    ensures { result ≡ has_any outcomes.now }
{
    !(outcomes.hits == 0 && outcomes.misses == 0)
}

// Writes how many of the hits were forwarded at another cost, if any were.
#[tactic(auto, using(rv_text::proofs::Saying::saying), unfolding(crate::specs::OutcomeText::forwarded_text))]
fn write_forwarded<W: Write>(out: &mut Sink<'_, W>, forwarded: u64)
    ensures { Says W.contents out.old out.new (forwarded_text forwarded) }
{
    if forwarded != 0 {
        out.put(b", of them forwarded ");
        out.put_decimal(forwarded);
    }
}

/// Writes how many hit and missed, after what they are.
pub(crate) fn write_outcomes<W: Write>(out: &mut Sink<'_, W>, name: &[u8], outcomes: &Outcomes)
    ensures { Says W.contents out.old out.new (outcomes_text name.now outcomes.now) }
{
    out.put(name);
    out.put(b": hits ");
    out.put_decimal(outcomes.hits);
    write_forwarded(out, outcomes.forwarded);
    out.put(b", misses ");
    out.put_decimal(outcomes.misses);
    out.put(b", write-backs ");
    out.put_decimal(outcomes.write_backs);
}

// Writes the same in brackets, where there is one.
#[tactic(auto, using(rv_text::proofs::Saying::saying), unfolding(crate::specs::OutcomeText::outcomes_aside))]
fn write_outcomes_aside<W: Write>(out: &mut Sink<'_, W>, name: &[u8], outcomes: &Outcomes)
    ensures { Says W.contents out.old out.new (outcomes_aside name.now outcomes.now) }
{
    if has_any(outcomes) {
        write_outcomes(out, name, outcomes);
        out.put(b")");
    }
}

/// Writes the loads in a word in brackets, by what they cost.
#[tactic(auto, unfolding(crate::specs::OutcomeText::loads_aside))]
pub(crate) fn write_loads_aside<W: Write>(out: &mut Sink<'_, W>, outcomes: Option<Outcomes>)
    ensures { Says W.contents out.old out.new (loads_aside outcomes) }
{
    if let Some(outcomes) = outcomes {
        write_outcomes_aside(out, b" (its loads", &outcomes);
    }
}

/// Writes the drains of the stores in a word in brackets, by what they cost.
#[tactic(auto, unfolding(crate::specs::OutcomeText::stores_aside))]
pub(crate) fn write_stores_aside<W: Write>(out: &mut Sink<'_, W>, outcomes: &Outcomes)
    ensures { Says W.contents out.old out.new (stores_aside outcomes.now) }
{
    write_outcomes_aside(out, b" (its stores", outcomes);
}
