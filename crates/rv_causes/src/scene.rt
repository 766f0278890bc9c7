ghost use Rattle.std.specs.Prelude.{◌≡◌, option_copied};
ghost use Rattle.std.specs.List.{list_any};
ghost use Rattle.rv_causes.specs.Setting.{ends_refill, is_hold_of, is_refilled, last_left, since_left};

use crate::before::{Before, Holder, Left, PortHold, UnitHold};
use crate::cause::Cause;
use crate::event::{Anew, BEGIN, Event, Waited};
use crate::point::{Point, Stage};
use crate::sought::{is_at, is_end, is_just_before};
use rv_isa::Values;
use rv_passage::Passage;

/// What stands when a cycle begins, with what its instructions came to by its end.
#[derive(Clone, Copy)]
pub(crate) struct Scene<'a> {
    /// The number of the cycle.
    pub(crate) number: u64,
    /// How many there were before it in the run.
    pub(crate) elapsed: u64,
    pub(crate) values: &'a Values,
    /// The instructions that were in flight before it or fetched in it, as they stand at its end.
    pub(crate) rows: &'a [Passage],
    /// Who holds units that are not pipelined.
    pub(crate) holds: &'a [UnitHold],
    pub(crate) before: &'a Before,
    /// Whether by its end an instruction was issued or left the hardware since fetch began anew.
    pub(crate) refilled: bool,
}

// Whether one of some instructions is issued in a cycle, or leaves the hardware.
fn ends_refill(number: u64, rows: &[Passage]) -> bool
    ensures { result ≡ list_any (ends_refill number) rows.now }
{
    match rows {
        [] => false,
        [row, rest @ ..] => {
            is_at(number, row.issued()) || is_end(row.ending) || ends_refill(number, rest)
        }
    }
}

/// Whether by the end of a cycle one was issued or left since fetch began anew.
pub(crate) fn is_refilled(number: u64, rows: &[Passage], before: &Before) -> bool
    ensures { result ≡ is_refilled number rows.now before.now }
{
    before.refilled || ends_refill(number, rows)
}

// Whether a hold is that of an instruction.
fn is_hold_of(holder: Holder, number: u64, hold: Option<&PortHold>) -> bool
    ensures { result ≡ is_hold_of holder number (option_copied hold.entry) }
{
    match hold {
        Some(hold) => hold.holder.is(holder) && hold.number == number,
        None => false,
    }
}

impl<'a> Scene<'a> {
    ghost use Rattle.std.specs.Prelude.{◌∷◌, []};
    ghost use Rattle.rv_causes.specs.Setting.{after_drain_at, after_drain_before, after_leaving};
    ghost use Rattle.rv_causes.specs.Setting.{after_port, after_stores, is_hold_of, left_before};
    ghost use Rattle.rv_causes.specs.Setting.{made, made_of, new_of, port_ended, setting_of};

    /// The event of the cycle at a point, of an address, by what it waited for.
    #[inline(never)]
    pub(crate) fn made(&self, at: Point, address: Option<u32>, waited: &Waited<'_>) -> Event
        ensures { result ≡ made (setting_of self.now) at address waited.now }
    {
        waited.event(self.refilled, at, self.elapsed, address)
    }

    /// That of an instruction.
    #[inline(always)]
    pub(crate) fn made_of(&self, stage: Stage, row: &Passage, waited: &Waited<'_>) -> Event
        ensures { result ≡ made_of (setting_of self.now) stage row.now waited.now }
    {
        let number = row.number;
        waited.event(
            self.refilled,
            Point { stage, number },
            self.elapsed,
            Some(row.pc),
        )
    }

    /// The fetch of the first word with which fetch began anew.
    pub(crate) fn fetched_anew(&self, first: &Passage, waited: &Anew<'_>) -> Event
        ensures is { result ≡ made_of (setting_of self.now) Stage.Fetch first.now waited.now }
        ensures new { result ∷ [] ≡ new_of (setting_of self.now) Stage.Fetch first.now waited.now }
    {
        let at = Point {
            stage: Stage::Fetch,
            number: first.number,
        };
        let reason = waited.reason;
        Event {
            at,
            cycle: self.elapsed,
            before: Some(waited.event.at),
            reason: waited.event.named(at, self.elapsed, reason),
            refill: Some(reason),
        }
    }

    /// The hold of the port, if it ended when the cycle began.
    pub(crate) fn port_ended(&self) -> Option<&PortHold>
        ensures { option_copied result ≡ port_ended (setting_of self.now) }
    {
        match &self.before.port {
            Some(hold) if hold.until == self.number => Some(hold),
            _ => None,
        }
    }

    /// An event that came when the port was free again.
    pub(crate) fn after_port(&self) -> Option<Waited<'_>>
        ensures { result ≡ after_port (setting_of self.now) }
    {
        match self.port_ended() {
            Some(hold) => Some(Waited::after(&hold.event, hold.holder.cause())),
            None => None,
        }
    }

    /// Whether the hold of the port that ended when the cycle began was that of an instruction.
    pub(crate) fn has_held(&self, holder: Holder, number: u64) -> bool
        ensures { result ≡ is_hold_of holder number (port_ended (setting_of self.now)) }
    {
        is_hold_of(holder, number, self.port_ended())
    }

    /// The instructions that left the hardware in the cycle just before, if some did.
    pub(crate) fn left_before(&self) -> Option<&Left>
        ensures { option_copied result ≡ left_before (setting_of self.now) }
    {
        match &self.before.left {
            Some(left) if is_just_before(self.number, Some(left.cycle)) && left.count != 0 => {
                Some(left)
            }
            _ => None,
        }
    }

    fn after_leaving(&self) -> Option<Waited<'_>>
        ensures { result ≡ after_leaving (left_before (setting_of self.now)) }
    {
        match self.left_before() {
            Some(left) => Some(Waited::after(&left.event, Cause::CommitInOrder)),
            None => None,
        }
    }

    /// An event that came when a store had drained, in this cycle.
    pub(crate) fn after_drain(&self, cause: Cause) -> Option<Waited<'_>>
        ensures { result ≡ after_drain_at (setting_of self.now) cause self.now.number self.now.before.now.drain }
    {
        match &self.before.drain {
            Some(drain) if drain.until == self.number => Some(Waited::after(&drain.event, cause)),
            _ => None,
        }
    }

    fn after_drain_before(&self) -> Option<Waited<'_>>
        ensures { result ≡ after_drain_before (setting_of self.now) self.now.before.now.drain }
    {
        match &self.before.drain {
            Some(drain) if is_just_before(self.number, Some(drain.until)) => {
                Some(Waited::after(&drain.event, Cause::PortStore))
            }
            _ => None,
        }
    }

    /// What a FENCE.I waits for that is the oldest: the older stores, the port, or to be the oldest.
    pub(crate) fn after_stores(&self) -> Option<Waited<'_>>
        ensures { result ≡ after_stores (setting_of self.now) }
    {
        if let Some(event) = self.after_drain_before() {
            return Some(event);
        }
        if let Some(event) = self.after_port() {
            return Some(event);
        }
        self.after_leaving()
    }
}

/// The last event that left the hardware, or the beginning of the run.
pub(crate) fn last_left(left: &Option<Left>) -> &Event
    ensures { result.now ≡ last_left left.now }
{
    match left {
        Some(left) => &left.event,
        None => &BEGIN,
    }
}

/// A wait for that, or of the first event of all.
pub(crate) fn since_left(cause: Cause, left: &Option<Left>) -> Waited<'_>
    ensures { result ≡ since_left cause left.now }
{
    match left {
        Some(left) => Waited::after(&left.event, cause),
        None => Waited::after(&BEGIN, Cause::BeforeFirst),
    }
}
