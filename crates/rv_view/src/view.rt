use crate::shown_cycle::ShownCycle;
use rv_text::Sink;
use std::io::Write;

/// What is shown a run, cycle by cycle, with what becomes of its instructions, and says its text of them.
pub trait View: Drop {
    ghost use Rattle.std.specs.Prelude.{◌≡◌, [], IfOk};
    ghost use Rattle.rv_hardware.specs.Hardware.{Hardware};
    ghost use Rattle.rv_view.specs.Viewing.{HasSeenStill, IsShownNext, SaysNext, Saying, SeesNext, Seeing};

    /// Why it can be shown no further cycle, if that may be.
    type Refusal: Drop;

    // What it has seen since it was such a view.
    ghost has_seen: { Seeing Self };

    // What one that began so says of some cycles, from some hardware on.
    ghost text: { Saying Self };

    // It has room for what one more cycle may show.
    ghost has_room: { Self → Type 0 };

    /// Makes room for what the next cycle may show.
    fn make_room(&mut self) -> Result<(), Self::Refusal>
        ensures kept { HasSeenStill has_seen self.old self.new }
        ensures room { IfOk result (λ done. has_room self.new) };

    /// Is shown the next cycle, and says what its text has more with it. Asks for no memory.
    fn see<W: Write>(&mut self, cycle: &ShownCycle<'_>, out: &mut Sink<'_, W>)
        requires room { has_room self.old }
        requires shown { IsShownNext has_seen self.old cycle.now }
        ensures seen { SeesNext has_seen self.old self.new cycle.now }
        ensures said { SaysNext has_seen text W.contents self.old cycle.now out.old out.new };

    // Of no cycle it says nothing.
    ghost nothing_said: { (view : Self) (first : Hardware) → text view first [] ≡ [] };
}
