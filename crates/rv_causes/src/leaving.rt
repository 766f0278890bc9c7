ghost use Rattle.std.specs.Prelude.{◌≡◌};
ghost use Rattle.rv_causes.specs.Leaving.{HasAllThatLeft, cause_of_flush, flushes_late};
ghost use Rattle.rv_causes.specs.Leaving.{interrupt_event, is_interrupted};
ghost use Rattle.rv_causes.specs.Leaving.{is_retired_store, leaving_event, leaving_wait, lines_event};
ghost use Rattle.rv_causes.specs.Leaving.{lines_wait, newly_left, with_event, with_left, with_row, with_rows};
ghost use Rattle.rv_causes.specs.Leaving.{after_own_lines, after_left, first_to_leave};
ghost use Rattle.rv_causes.specs.Leaving.{flush_by, known_in, leaves_after, left_by};
ghost use Rattle.rv_isa.specs.Instruction.{is_branch_or_jump};
ghost use Rattle.rv_hardware.specs.Broadcast.{mends_early};
ghost use Rattle.rv_passage.specs.Prediction.{differ};
ghost use Rattle.rv_causes.specs.Setting.{setting_of};

use crate::before::{Holder, Left};
use crate::cause::Cause;
use crate::event::{Event, Waited};
use crate::point::{Point, Reason, Stage};
use crate::scene::{Scene, since_left};
use crate::sought::{Sought, count, is_end, is_fence_i, is_just_before};
use crate::way::Way;
use rv_hardware::Step;
use rv_isa::Recovery;
use rv_passage::{Ending, Passage};

/// The events of the instructions that leave the hardware in a cycle.
#[derive(Clone, Copy)]
pub(crate) struct Leaving {
    pub(crate) first: Option<Event>,
    pub(crate) last: Option<Event>,
    /// That of the first store.
    pub(crate) store: Option<Event>,
    /// Why the fetch begins anew at the last, if it does.
    pub(crate) refill: Option<Reason>,
}

fn known_in(row: &Passage) -> Option<u64>
    ensures { result ≡ known_in row.now }
{
    row.broadcast.or(row.dispatched)
}

fn after_own_lines<'a>(scene: &'a Scene<'_>, row: &Passage) -> Option<Waited<'a>>
    ensures { result ≡ after_own_lines (setting_of scene.now) row.now }
{
    if !scene.has_held(Holder::Lines, row.number) {
        return None;
    }
    match scene.port_ended() {
        Some(hold) => Some(Waited::after(&hold.event, Cause::LinesWritten)),
        None => None,
    }
}

fn after_left<'a>(scene: &Scene<'_>, left: &'a Left) -> Waited<'a>
    ensures { result ≡ after_left (setting_of scene.now) left.now }
{
    let cause = if left.count == scene.values.commit_width as usize {
        Cause::CommitWidth
    } else {
        Cause::CommitInOrder
    };
    Waited::after(&left.event, cause)
}

fn first_to_leave<'a>(scene: &'a Scene<'_>, row: &Passage) -> Option<Waited<'a>>
    ensures { result ≡ first_to_leave (setting_of scene.now) row.now }
{
    if is_fence_i(row.instruction.instruction()) {
        if let Some(event) = after_own_lines(scene, row) {
            return Some(event);
        }
        return scene.after_stores();
    }
    match scene.left_before() {
        Some(left) => Some(after_left(scene, left)),
        None => None,
    }
}

fn leaves_after<'a>(
    scene: &'a Scene<'_>,
    earlier: &'a Option<Event>,
    row: &Passage,
    way: &'a Way,
) -> Waited<'a>
    ensures { result ≡ leaves_after (setting_of scene.now) earlier.now row.now way.now }
{
    if let Some(event) = earlier {
        return Waited::again(event);
    }
    match first_to_leave(scene, row) {
        Some(waited) => waited,
        None => Waited::after(way.dispatched(), Cause::Other),
    }
}

// What an instruction waited for that leaves the hardware, after the one before it in the cycle.
fn leaving_wait<'a>(
    scene: &'a Scene<'_>,
    earlier: &'a Leaving,
    row: &Passage,
    way: &'a Way,
) -> Waited<'a>
    ensures { result ≡ leaving_wait (setting_of scene.now) earlier.now.last row.now way.now }
{
    if is_just_before(scene.number, known_in(row)) {
        Waited::after(way.broadcast(), Cause::Commit)
    } else {
        leaves_after(scene, &earlier.last, row, way)
    }
}

fn is_retired_store(row: &Passage) -> bool
    ensures { result ≡ is_retired_store row.now }
{
    matches!(row.ending, Ending::Retired { .. }) && row.instruction.is_store()
}

/// Whether a wrong prediction is put right at its broadcast.
pub(crate) fn mends_early(scene: &Scene<'_>) -> bool
    ensures { result ≡ mends_early (setting_of scene.now).values.recovery }
{
    scene.values.recovery == Recovery::Early
}

/// Whether the prediction was another one.
pub(crate) fn differ(predicted: Option<u32>, next: Option<u32>) -> bool
    ensures { result ≡ differ predicted next }
{
    match (predicted, next) {
        (Some(predicted), Some(next)) => next != predicted,
        _ => false,
    }
}

fn flushes_late(scene: &Scene<'_>, row: &Passage) -> bool
    ensures { result ≡ flushes_late (setting_of scene.now) row.now }
{
    differ(row.predicted, row.ending.next())
        && !(mends_early(scene) && row.instruction.is_branch_or_jump())
}

// Why the fetch begins anew where an instruction leaves, if it does.
fn cause_of_flush(scene: &Scene<'_>, row: &Passage) -> Option<Cause>
    ensures { result ≡ cause_of_flush (setting_of scene.now) row.now row.now.ending }
{
    match row.ending {
        Ending::InFlight | Ending::Squashed { .. } => None,
        Ending::Trapped { .. } => Some(Cause::RefillTrap),
        Ending::Retired { .. } => {
            if row.instruction.is_serialising() {
                Some(Cause::RefillSerialising)
            } else if flushes_late(scene, row) {
                Some(Cause::RefillPrediction)
            } else {
                None
            }
        }
    }
}

// On its account.
fn flush_by(row: &Passage, cause: Option<Cause>) -> Option<Reason>
    ensures { result ≡ flush_by row.now cause }
{
    match cause {
        Some(cause) => Some(Reason {
            cause,
            address: Some(row.pc),
        }),
        None => None,
    }
}

impl Leaving {
    /// Those of none.
    pub(crate) const NONE: Leaving = Leaving {
        first: None,
        last: None,
        store: None,
        refill: None,
    };

    // One more instruction leaves by an event.
    fn add_event(&mut self, scene: &Scene<'_>, event: Event, row: &Passage)
        ensures { self.new ≡ with_event (setting_of scene.now) event row.now self.old }
    {
        if is_retired_store(row) && self.store.is_none() {
            self.store = Some(event);
        }
        if self.first.is_none() {
            self.first = Some(event);
        }
        self.last = Some(event);
        self.refill = flush_by(row, cause_of_flush(scene, row));
    }

    // The event by which one more leaves.
    fn next_event(&self, scene: &Scene<'_>, row: &Passage, way: &Way) -> Event
        ensures { result ≡ leaving_event (setting_of scene.now) self.now.last row.now way.now }
    {
        scene.made_of(Stage::Commit, row, &leaving_wait(scene, self, row, way))
    }

    // One more instruction that left.
    #[inline(never)]
    fn add_left(&mut self, scene: &Scene<'_>, row: &Passage, way: &Way)
        ensures { self.new ≡ with_left (setting_of scene.now) row.now way.now self.old }
    {
        let event = self.next_event(scene, row, way);
        self.add_event(scene, event, row);
    }

    // One more instruction, if it left.
    #[inline(always)]
    fn add_row(&mut self, scene: &Scene<'_>, row: &Passage, way: &Way)
        ensures { self.new ≡ with_row (setting_of scene.now) row.now way.now self.old }
    {
        if is_end(row.ending) {
            self.add_left(scene, row, way);
        }
    }

    /// Those that left of some instructions, after these.
    #[tactic(auto, using(crate::proofs::Nothing::with_rows_nothing))]
    pub(crate) fn add_rows(&mut self, scene: &Scene<'_>, rows: &[Passage], ways: &[Way])
        ensures { self.new ≡ with_rows (setting_of scene.now) rows.now ways.now self.old }
    {
        let [row, other_rows @ ..] = rows else {
            return;
        };
        let [way, other_ways @ ..] = ways else {
            return;
        };
        self.add_row(scene, row, way);
        self.add_rows(scene, other_rows, other_ways);
    }
}

/// An interrupt, which came so long after the last step.
pub(crate) fn interrupt_event(scene: &Scene<'_>) -> Event
    ensures { result ≡ interrupt_event (setting_of scene.now) }
{
    let at = Point {
        stage: Stage::Interrupt,
        number: scene.elapsed,
    };
    let waited = since_left(Cause::UntilInterrupt, &scene.before.left);
    scene.made(at, None, &waited)
}

/// Whether an interrupt was taken in a cycle.
pub(crate) fn is_interrupted(steps: &[Step]) -> bool
    ensures { result ≡ is_interrupted steps.now }
{
    match steps {
        [] => false,
        [Step::Interrupt { .. }, ..] => true,
        [_, rest @ ..] => is_interrupted(rest),
    }
}

// What leaves in the cycle, where so many instructions leave, the last by this event.
fn left_by(scene: &Scene<'_>, count: usize, event: Option<Event>) -> Option<Left>
    ensures { result ≡ left_by (setting_of scene.now) count event }
{
    match event {
        Some(event) => Some(Left {
            cycle: scene.number,
            count,
            event,
        }),
        None => None,
    }
}

/// What leaves in the cycle, in which all that leave are among some.
pub(crate) fn newly_left(
    scene: &Scene<'_>,
    interrupted: bool,
    leaving: &Leaving,
    left: &[Passage],
) -> Option<Left>
    requires left { HasAllThatLeft (setting_of scene.now).rows left.now }
    ensures { result ≡ newly_left (setting_of scene.now) interrupted leaving.now }
{
    if interrupted {
        return left_by(scene, 0, Some(interrupt_event(scene)));
    }
    if leaving.last.is_none() {
        return None;
    }
    left_by(scene, count(Sought::Ended, left), leaving.last)
}

fn lines_wait<'a>(
    scene: &'a Scene<'_>,
    leaving: &'a Leaving,
    row: &Passage,
    way: &'a Way,
) -> Waited<'a>
    ensures { result ≡ lines_wait (setting_of scene.now) leaving.now row.now way.now }
{
    if is_just_before(scene.number, row.dispatched) {
        return Waited::after(way.dispatched(), Cause::Commit);
    }
    if let Some(event) = &leaving.last {
        return Waited::again(event);
    }
    match scene.after_stores() {
        Some(waited) => waited,
        None => Waited::after(way.dispatched(), Cause::Other),
    }
}

/// The oldest instruction begins to write lines back.
pub(crate) fn lines_event(scene: &Scene<'_>, leaving: &Leaving, row: &Passage, way: &Way) -> Event
    ensures { result ≡ lines_event (setting_of scene.now) leaving.now row.now way.now }
{
    scene.made_of(Stage::Lines, row, &lines_wait(scene, leaving, row, way))
}
