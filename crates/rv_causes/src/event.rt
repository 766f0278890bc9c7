ghost use Rattle.std.specs.Prelude.{◌≡◌, ◌+◌, ◌≤◌, ◌++◌, is_some, length, vec_capacity};
ghost use Rattle.std.specs.Option.{option_to_list};
ghost use Rattle.rv_causes.specs.Event.{again, anew, ends_with, event_after, event_from, event_if, goes_on_through};
ghost use Rattle.rv_causes.specs.Event.{named_after, refill_of, refill_past, refilled_after, waits};

use crate::cause::Cause;
use crate::claim::is_so_of;
use crate::point::{Point, Reason, Stage};
use std::marker::Model;

/// An event of a run.
#[derive(Clone, Copy)]
pub struct Event {
    /// Which one it is.
    pub at: Point,
    /// The cycles of the run before it.
    pub cycle: u64,
    /// The event that it waited for last; none for the beginning of the run.
    pub(crate) before: Option<Point>,
    /// On whose account the cycles between the two are.
    pub(crate) reason: Reason,
    /// Why the fetch began anew, while no instruction was issued and none left the hardware since.
    pub(crate) refill: Option<Reason>,
}

/// The beginning of a run.
pub(crate) static BEGIN: Event = Event::BEGIN;

/// What an event of a cycle waited for last, and why; or which event it is again.
#[derive(Drop)]
pub(crate) struct Waited<'a> {
    event: &'a Event,
    cause: Option<Cause>,
}

impl<'a> Model for Waited<'a> {
    ghost use Rattle.std.specs.Prelude.{None};
    ghost use Rattle.rv_causes.specs.Event.{Wait};

    ghost Value = { Wait };

    ghost view = { λ waited. record { event = waited.event.now; anew = None; cause = waited.cause } };
}

/// An event with which fetch began anew, and why.
#[derive(Drop)]
pub(crate) struct Anew<'a> {
    pub(crate) event: &'a Event,
    pub(crate) reason: Reason,
}

impl<'a> Model for Anew<'a> {
    ghost use Rattle.rv_causes.specs.Event.{Wait, anew};

    ghost Value = { Wait };

    ghost view = { λ waited. anew waited.reason waited.event.now };
}

// A refill goes on with the fetch and the dispatch of words.
#[inline(always)]
fn goes_on_through(stage: Stage) -> bool
    ensures { result ≡ goes_on_through stage }
{
    matches!(stage, Stage::Fetch | Stage::Dispatch)
}

// A wait of an issue or a commit may be one, too.
#[inline(always)]
fn ends_with(stage: Stage) -> bool
    ensures { result ≡ ends_with stage }
{
    matches!(
        stage,
        Stage::Fetch | Stage::Dispatch | Stage::Issue | Stage::Commit
    )
}

impl Event {
    /// The beginning of a run.
    pub(crate) const BEGIN: Event = Event {
        at: Point {
            stage: Stage::Begin,
            number: 0,
        },
        cycle: 0,
        before: None,
        reason: Reason {
            cause: Cause::BeforeFirst,
            address: None,
        },
        refill: None,
    };

    // A reason to wait for this one, of one at a point after so many cycles: its cause is named where it is so of the two.
    #[inline(always)]
    #[tactic(auto, unfolding(crate::specs::Event::named_after))]
    pub(crate) fn named(&self, at: Point, cycle: u64, reason: Reason) -> Reason
        ensures { result ≡ named_after self.now at cycle reason }
    {
        let is = is_so_of(reason.cause, &self.at, self.cycle, &at, cycle);
        let cause = if is { reason.cause } else { Cause::Other };
        Reason { cause, ..reason }
    }
}

impl<'a> Waited<'a> {
    /// An event waited for another one.
    pub(crate) fn after(event: &'a Event, cause: Cause) -> Waited<'a>
        ensures { result ≡ waits cause event.now }
    {
        Waited {
            event,
            cause: Some(cause),
        }
    }

    /// It is another one again.
    pub(crate) fn again(event: &'a Event) -> Waited<'a>
        ensures { result ≡ again event.now }
    {
        Waited { event, cause: None }
    }

    /// Whether it is new.
    pub(crate) fn is_new(&self) -> bool
        ensures { result ≡ is_some self.now.cause }
    {
        self.cause.is_some()
    }

    // The refill in which it waited.
    #[inline(always)]
    fn refill(&self) -> Option<Reason>
        ensures { result ≡ refill_of self.now }
    {
        self.event.refill
    }

    // The one that goes on past it.
    #[inline(always)]
    fn refill_past(&self, refilled: bool, stage: Stage) -> Option<Reason>
        ensures { result ≡ refill_past refilled stage self.now }
    {
        let refill = self.event.refill;
        if goes_on_through(stage) && !refilled {
            refill
        } else {
            None
        }
    }

    // The event at a point after so many cycles, of an address, that waited for this cause.
    #[inline(never)]
    fn then(
        &self,
        refilled: bool,
        at: Point,
        cycle: u64,
        address: Option<u32>,
        cause: Cause,
    ) -> Event
        ensures { result ≡ event_after refilled at cycle address cause self.now }
    {
        let own = Reason { cause, address };
        let reason = match self.refill() {
            Some(refill) if ends_with(at.stage) => refill,
            _ => own,
        };
        Event {
            at,
            cycle,
            before: Some(self.event.at),
            reason: self.event.named(at, cycle, reason),
            refill: self.refill_past(refilled, at.stage),
        }
    }

    /// The same, or the one that it is again. By the end of the cycle an instruction was issued or left since fetch
    /// began anew, or none.
    #[inline(always)]
    pub(crate) fn event(&self, refilled: bool, at: Point, cycle: u64, address: Option<u32>) -> Event
        ensures { result ≡ event_from refilled at cycle address self.now }
    {
        match self.cause {
            Some(cause) => self.then(refilled, at, cycle, address, cause),
            None => *self.event,
        }
    }
}

impl<'a> Anew<'a> {
    /// Fetch began anew with an event.
    pub(crate) fn new(reason: Reason, event: &'a Event) -> Anew<'a>
        ensures { result ≡ anew reason event.now }
    {
        Anew { event, reason }
    }
}

/// Whether an instruction was issued or left since fetch began anew, after a cycle in which words were fetched by an
/// event, if some were.
pub(crate) fn refilled_after(refilled: bool, fetch: &Option<Event>) -> bool
    ensures { result ≡ refilled_after refilled fetch.now }
{
    match fetch {
        Some(fetch) => refilled && fetch.refill.is_none(),
        None => refilled,
    }
}

/// Appends an event, if there is one.
#[inline(always)]
pub(crate) fn push_event(event: &Option<Event>, events: &mut Vec<Event>)
    requires room { length events.old.items + 1 ≤ vec_capacity events.old }
    ensures items { events.new.items ≡ events.old.items ++ option_to_list event.now }
    ensures few { length events.new.items ≤ length events.old.items + 1 }
    ensures capacity { vec_capacity events.old ≤ vec_capacity events.new }
{
    if let Some(event) = event {
        events.push_reserved(*event);
    }
}

/// Appends an event, where something is so.
#[inline(always)]
pub(crate) fn push_event_if(is: bool, event: &Event, events: &mut Vec<Event>)
    requires room { length events.old.items + 1 ≤ vec_capacity events.old }
    ensures items { events.new.items ≡ events.old.items ++ event_if is event.now }
    ensures few { length events.new.items ≤ length events.old.items + 1 }
    ensures capacity { vec_capacity events.old ≤ vec_capacity events.new }
{
    if is {
        events.push_reserved(*event);
    }
}
