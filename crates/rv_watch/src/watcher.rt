use crate::progress::Progress;
use crate::shown_hardware::ShownHardware;
use rv_hardware::Step;
use std::io::Write;

/// What is shown a run, cycle by cycle, and writes what it says of it.
pub trait Watcher: Drop {
    ghost use Rattle.std.specs.Prelude.{IfOk};
    ghost use Rattle.rv_watch.specs.Watching.{IsNextShown, SeesNext, SeesTheSame, Sight};

    /// Why it can be shown no further cycle, if that may be.
    type Refusal: Drop;

    // What it has seen since it was such a watcher, with what a writer held before and holds now.
    ghost has_seen: { Sight Self };

    // It has room for what one more cycle may show.
    ghost has_room: { Self → Type 0 };

    /// Makes room for what the next cycle may show.
    fn make_room(&mut self) -> Result<(), Self::Refusal>
        ensures kept { SeesTheSame has_seen self.old self.new }
        ensures room { IfOk result (λ done. has_room self.new) };

    /// Is shown the next cycle, by its number, its steps, the hardware after it, and the counts of the cycles so far
    /// with it. Asks for no memory.
    fn see<W: Write>(
        &mut self,
        cycle: u64,
        steps: &[Step],
        hardware: &ShownHardware<'_>,
        progress: &Progress,
        output: &mut W,
    )
        requires room { has_room self.old }
        requires shown { IsNextShown has_seen self.old cycle steps.now hardware.now progress.now
            (W.contents output.old) }
        ensures { SeesNext has_seen self.old self.new cycle steps.now hardware.now progress.now
            (W.contents output.old) (W.contents output.new) };
}
