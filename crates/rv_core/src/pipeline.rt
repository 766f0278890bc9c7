ghost use Rattle.std.specs.Prelude.{◌≡◌, ◌+◌, ◌^◌, ◌<◌, ◌≤◌, ◌↔◌, ◌==◌, false, None};
ghost use Rattle.std.specs.Prelude.{is_some, length, nat_le, IsTrue, IfOk, IfErr};
ghost use Rattle.rv_isa.specs.Description.{IsLegal};
ghost use Rattle.rv_hardware.specs.Headline.{IsTrueCycle};
ghost use Rattle.rv_hardware.specs.Run.{Reachable};
ghost use Rattle.rv_hardware.specs.Reset.{IsLoadable, reset_hardware};
ghost use Rattle.rv_hardware.specs.Seen.{layout_of, seen};
ghost use Rattle.rv_core.specs.Steps.{HasRoom};
ghost use Rattle.rv_core.specs.Reported.{DoesCycle, TakesCycle, TakesDue, exhausted_report, report_of_cycle};
ghost use Rattle.rv_watch.specs.Progress.{IsCommitStop};
ghost use Rattle.rv_core.specs.declared.errors.NewError.TheVariants as refusal;

use crate::errors::NewError;
use crate::outcome::{CycleEnd, CycleReport};
use crate::parts::Parts;
use crate::steps::Steps;
use arrayvec::ArrayVec;
use rv_arch::Stop;
use rv_front::Predictor;
use rv_hardware::Step;
use rv_isa::{Description, Image, Lines};
use rv_watch::ShownHardware;
use std::alloc::Global;
use std::marker::Model;

/// The most cycles that a pipeline counts.
const LAST_CYCLE: u64 = 1 << 40;

/// The core with its memory, but for the branch predictor that guides it. Each cycle is lent that, and says what it was asked
/// and taught; nothing is asked of it but that its calls return.
#[derive(Drop)]
pub struct Pipeline {
    // In a box, so that each owner drops it by one call.
    parts: Box<Parts>,
    // The steps of a cycle, with room for as many as can retire.
    steps: Steps,
}

impl Model for Pipeline {
    ghost use Rattle.rv_hardware.specs.Hardware.{Hardware};
    ghost use Rattle.rv_hardware.proofs.HardwareCode.{hardware_code};

    ghost Value = { Hardware };

    ghost coded = { hardware_code };

    ghost view = { λ pipeline. pipeline.parts.value };

    ghost use Rattle.rv_core.specs.Reached.{IsReached};

    ghost invariant = { λ pipeline. IsReached pipeline.parts.value pipeline.steps };
}

impl Pipeline {
    /// The described pipeline at reset, with an image at the front of its RAM.
    ///
    /// # Errors
    ///
    /// `ImageDoesNotFit` where the image's base is not that of RAM, its bytes are longer than RAM, or its start is no
    /// multiple of 4; this is decided before memory is asked for. `Memory` when out of memory. No other call but `run`
    /// asks for any.
    pub fn new(
        alloc: Global,
        description: &Description,
        image: &Image,
    ) -> Result<Pipeline, NewError>
        ensures made { IfOk result (λ pipeline. pipeline
            ≡ reset_hardware description.now image.now.bytes image.now.start) }
        ensures fits { IfOk result (λ pipeline. IsLoadable description.now image.now.base image.now.bytes
            image.now.start) }
        ensures refused { IfErr result (λ error. (error ≡ refusal.ImageDoesNotFit)
            ↔ (IsLoadable description.now image.now.base image.now.bytes image.now.start → ⊥)) }
    {
        if !fits(description, image) {
            return Err(NewError::ImageDoesNotFit);
        }
        let parts = Parts::new(alloc, description, image)?;
        let list = Vec::with_capacity(alloc, 8)?;
        Ok(Pipeline {
            parts,
            steps: Steps::listing(list),
        })
    }

    /// Does one cycle with these levels of the interrupt lines, guided by this predictor, and takes no memory. A pipeline
    /// that has done 2^40 cycles does nothing, and stops as exhausted.
    pub fn cycle(&mut self, predictor: &mut dyn Predictor, lines: Lines) -> CycleReport
        ensures cycled { self.old.cycle < 2 ^ 40 →
            DoesCycle lines self.old (known predictor.old) (report_of_cycle result)
            self.new (known predictor.new) }
        ensures exhausted { self.old.cycle ≡ 2 ^ 40 →
            (self.new ≡ self.old) × (report_of_cycle result ≡ exhausted_report)
            × (known predictor.new ≡ known predictor.old) }
        ensures true_cycle { self.old.cycle < 2 ^ 40 →
            IsTrueCycle (layout_of self.old.values) lines self.old.cycle
            (seen self.old) result.steps.items result.stop (seen self.new) }
        ensures due_interrupt { self.old.cycle < 2 ^ 40 →
            TakesDue lines self.old.cycle (seen self.old) result.steps.items }
        ensures stall { self.old.cycle < 2 ^ 40 → is_some result.stall ≡ (result.dispatched == 0) }
    {
        if self.is_exhausted() {
            return CycleReport {
                steps: ArrayVec::new(),
                dispatched: 0,
                stall: None,
                stop: Some(Stop::Exhausted),
            };
        }
        self.next_cycle(predictor, lines)
    }

    // One of the cycles that are counted, of hardware that a reset and cycles lead to.
    fn next_cycle(&mut self, predictor: &mut dyn Predictor, lines: Lines) -> CycleReport
        requires { self.old.cycle < 2 ^ 40 }
        ensures cycled { DoesCycle lines self.old (known predictor.old) (report_of_cycle result)
            self.new (known predictor.new) }
        ensures reached { Reachable self.old }
    {
        self.steps.clear();
        let end = self.parts.advance(lines, predictor, &mut self.steps);
        CycleReport {
            steps: listed(self.steps.as_slice()),
            dispatched: end.dispatched,
            stall: end.stall,
            stop: end.stop,
        }
    }

    /// Does one cycle, whose steps are taken by what has room for eight.
    pub(crate) fn advance(
        &mut self,
        predictor: &mut dyn Predictor,
        lines: Lines,
        steps: &mut Steps,
    ) -> CycleEnd
        requires cycles { self.old.cycle < 2 ^ 40 }
        requires room { HasRoom steps.old 8 }
        ensures stop { IsCommitStop result.stop }
        ensures cycle { TakesCycle lines self.old (known predictor.old) self.new (known predictor.new)
            steps.old steps.new result }
    {
        self.parts.advance(lines, predictor, steps)
    }

    /// Whether all the cycles that are counted are done.
    pub fn is_exhausted(&self) -> bool
        ensures exhausted { result ≡ nat_le (2 ^ 40) self.now.cycle }
        ensures within { self.now.cycle ≤ 2 ^ 40 }
    {
        self.parts.cycle >= LAST_CYCLE
    }

    /// How many cycles are done, which is the number of the next one.
    pub fn cycles_done(&self) -> u64
        ensures number { result ≡ self.now.cycle }
        ensures reached { Reachable self.now }
    {
        self.parts.cycle
    }

    /// Lends what it shows.
    pub(crate) fn lent(&self) -> ShownHardware<'_>
        ensures { result ≡ self.now }
    {
        self.parts.lent()
    }
}

// Whether the described RAM can hold an image.
fn fits(description: &Description, image: &Image) -> bool
    ensures legal { IsLegal description.now }
    ensures fits { IsTrue result ↔ IsLoadable description.now image.now.base image.now.bytes image.now.start }
{
    let values = description.values();
    image.base == values.ram_base
        && image.bytes.len() <= values.ram_size as usize
        && image.start % 4 == 0
}

// The steps of a cycle.
fn listed(steps: &[Step]) -> ArrayVec<Step, 8>
    requires { length steps.now ≤ 8 }
    ensures { result.items ≡ steps.now }
{
    let mut listed = ArrayVec::new();
    for step in steps {
        listed.push(*step);
    }
    listed
}
