ghost use Rattle.std.specs.Prelude.{◌≡◌, ◌+◌, ◌<◌, ◌^◌, ◌≤◌, [], length, replicate, vec_capacity, IfOk, IfSome, IsTrue};
ghost use Rattle.rv_causes.specs.Event.{nothing_yet};
ghost use Rattle.rv_causes.specs.Path.{AreForgotten, end_of, still_in_flight};
ghost use Rattle.rv_causes.specs.Way.{way_from};

use crate::account::Account;
use crate::before::{Before, Facts, UnitHold};
use crate::cause::Cause;
use crate::cycle::Cycle;
use crate::ended::{count_in_order, push_fetched, push_in_flight, with_all_left};
use crate::event::{Event, Waited};
use crate::holding::{begins_drain, drop_ended, push_holds, take_drain, take_port};
use crate::live::gather;
use crate::point::{Point, Stage};
use crate::scene::last_left;
use crate::seeing::{Seen, see_shown};
use crate::waiting_stores::WaitingStores;
use crate::way::Way;
use crate::window::Window;
use rv_hardware::Step;
use rv_passage::Passage;
use rv_stores::StoreQueue;
use std::alloc::{AllocError, Global};
use std::mem::swap;

/// The most instructions of a cycle: those that were in flight before it, and those that were fetched in it.
const MOST_IN_CYCLE: usize = 576;

/// How many events a window has room for at first: it drops what all paths share where it is full.
const WINDOW: usize = 2048;

/// The most new events of a cycle beside one of each instruction that was in flight before it.
const MOST_BESIDE: usize = 6;

/// What is known of the path that leads to each event of a run, between two cycles.
#[derive(Drop)]
pub struct Path {
    // The events of the instructions in flight, oldest first. Those of the first `dropped` are forgotten: they lie
    // there until their room is wanted, so that the others stay.
    ways: Vec<Way>,
    dropped: usize,
    // Room for the others then.
    next: Vec<Way>,
    holds: Vec<UnitHold>,
    before: Before,
    // Room for what a cycle brings.
    seen: Seen,
    window: Window,
    // Room for the points of the events for which one of a later cycle may wait.
    live: Vec<Point>,
    ghost within: { dropped ≤ length ways.items },
}

impl Path {
    ghost use Rattle.rv_causes.specs.Keeping.{AreSameBeside, AreSameButBefore, AreSameButHolds};
    ghost use Rattle.rv_causes.specs.Keeping.{AreSameButLive, AreSameButWays, AreSameButWindow};
    ghost use Rattle.rv_causes.specs.Keeping.{ArePathsKept, HasRoom, HasRoomForWays, IsFollowed};
    ghost use Rattle.rv_causes.specs.Keeping.{before_with, forgotten_in, holds_shown};
    ghost use Rattle.rv_causes.specs.Keeping.{known_brought, known_of_path, known_shown};
    ghost use Rattle.rv_causes.specs.Keeping.{last_point, live_of, made_shown, ways_of};
    ghost use Rattle.std.specs.Prelude.{List, ◌++◌};
    ghost use Rattle.std.specs.Prelude.{◌∷◌, OnOk, Some};
    ghost use Rattle.rv_causes.specs.Account.{account_of};
    ghost use Rattle.rv_causes.specs.Event.{with_events};
    ghost use Rattle.rv_causes.specs.Reading.{cycle_of};
    ghost use Rattle.rv_causes.specs.Walk.{path_to};
    ghost use Rattle.rv_causes.specs.Window.{HasRoomForEvents, IsWindow, Passes, accounted, kept_events};
    ghost use Rattle.rv_causes.specs.Path.{before_at, path_of, with_fetched};
    ghost use Rattle.rv_causes.specs.declared.event.Event.{Event};

    /// That of hardware which shows this and has this store queue, in which so many instructions are in flight, before
    /// the first cycle. The only error is out of memory.
    pub fn begin(
        alloc: Global,
        facts: Facts,
        stores: &StoreQueue,
        in_flight: usize,
    ) -> Result<Path, AllocError>
        requires few { in_flight ≤ 576 }
        ensures ways { IfOk result (λ path. ways_of path ≡ replicate in_flight (way_from nothing_yet)) }
        ensures holds { IfOk result (λ path. path.holds.items ≡ []) }
        ensures before { IfOk result (λ path. path.before ≡ before_at facts stores.now.stores) }
        ensures window { IfOk result (λ path. IsWindow path.window (nothing_yet ∷ [])) }
        ensures passes { IfOk result (λ path. Passes path.window (Some nothing_yet.at)) }
    {
        let mut ways = Vec::with_capacity(alloc, 2 * MOST_IN_CYCLE)?;
        push_fetched(in_flight, &Some(Event::BEGIN), &mut ways);
        let next = Vec::with_capacity(alloc, 2 * MOST_IN_CYCLE)?;
        let holds = Vec::with_capacity(alloc, MOST_IN_CYCLE)?;
        let mut window = Window::begin(alloc, WINDOW)?;
        window.push(Event::BEGIN);
        Ok(Path {
            ways,
            dropped: 0,
            next,
            holds,
            before: Before {
                left: None,
                port: None,
                drain: None,
                facts,
                waiting: WaitingStores::of(stores),
                refilled: true,
            },
            seen: Seen::nothing(facts),
            window,
            live: Vec::new(alloc),
        })
    }

    /// Makes room for what a further cycle may add. The only error is out of memory, which changes nothing that is known.
    pub fn make_room(&mut self) -> Result<(), AllocError>
        ensures same { (events : List Event) → known_of_path self.new events ≡ known_of_path self.old events }
        ensures kept { ArePathsKept self.old self.new }
        ensures room { IfOk result (λ done. HasRoom self.new) }
    {
        self.ways.reserve(MOST_IN_CYCLE)?;
        self.next.reserve(MOST_IN_CYCLE)?;
        self.holds.reserve(MOST_IN_CYCLE)?;
        self.make_window_room()
    }

    // The same, which drops no event.
    fn make_room_for_all(&mut self) -> Result<(), AllocError>
        ensures same { (events : List Event) → known_of_path self.new events ≡ known_of_path self.old events }
        ensures kept { ArePathsKept self.old self.new }
        ensures all { self.new.window.events.items ≡ self.old.window.events.items }
        ensures room { IfOk result (λ done. HasRoom self.new) }
    {
        self.ways.reserve(MOST_IN_CYCLE)?;
        self.next.reserve(MOST_IN_CYCLE)?;
        self.holds.reserve(MOST_IN_CYCLE)?;
        let more = self.ways.len() - self.dropped + MOST_BESIDE;
        if self.window.has_room(more) {
            return Ok(());
        }
        self.window.reserve(more)
    }

    /// Makes room for what a further cycle may add, and drops no event where all are kept. The only error is out of
    /// memory, which changes nothing that is known.
    pub fn make_room_keeping(&mut self, keeps_all: bool) -> Result<(), AllocError>
        ensures same { (events : List Event) → known_of_path self.new events ≡ known_of_path self.old events }
        ensures kept { ArePathsKept self.old self.new }
        ensures all { IsTrue keeps_all → self.new.window.events.items ≡ self.old.window.events.items }
        ensures room { IfOk result (λ done. HasRoom self.new) }
    {
        if keeps_all {
            self.make_room_for_all()
        } else {
            self.make_room()
        }
    }

    // Makes room for the events of a further cycle.
    fn make_window_room(&mut self) -> Result<(), AllocError>
        ensures others { AreSameButWindow self.old self.new }
        ensures kept { ArePathsKept self.old self.new }
        ensures room { IfOk result (λ done. HasRoomForEvents (length (ways_of self.new) + 6) self.new.window) }
    {
        let more = self.ways.len() - self.dropped + MOST_BESIDE;
        if self.window.has_room(more) {
            return Ok(());
        }
        self.gather_live()?;
        self.window.make_room(more, &mut self.live)
    }

    // The points of the events for which one of a later cycle may wait.
    fn gather_live(&mut self) -> Result<(), AllocError>
        ensures others { AreSameButLive self.old self.new }
        ensures live { OnOk result (self.new.live.items ≡ live_of self.old) }
    {
        gather(
            &self.ways.as_slice()[self.dropped..],
            self.holds.as_slice(),
            &self.before,
            &mut self.live,
        )
    }

    /// Follows the path through one more cycle. Asks for no memory.
    pub fn follow(&mut self, cycle: &Cycle<'_>)
        requires room { HasRoom self.old }
        requires few { length cycle.now.rows.now ≤ 576 }
        requires cycles { cycle.now.number < 2 ^ 40 }
        ensures known { (events : List Event)
            → known_of_path self.new
            (with_events (made_shown (cycle_of cycle.now) (known_of_path self.old events)) events)
            ≡ known_shown (cycle_of cycle.now) (known_of_path self.old events) }
        ensures made { IsFollowed (made_shown (cycle_of cycle.now) (known_of_path self.old []))
            self.old.window self.new.window }
    {
        let ended = count_in_order(cycle.rows);
        see_shown(
            cycle,
            with_all_left(cycle.rows, ended),
            self.holds.as_slice(),
            &self.before,
            self.dropped,
            self.ways.as_mut_slice(),
            &mut self.seen,
            &mut self.window.events,
        );
        self.take(cycle, ended);
    }

    // What was seen of a cycle is known after it.
    fn take(&mut self, cycle: &Cycle<'_>, ended: Option<usize>)
        requires ended { ended ≡ forgotten_in cycle.now.rows.now }
        requires room { HasRoomForWays self.old }
        requires few { length cycle.now.rows.now ≤ 576 }
        requires cycles { cycle.now.number < 2 ^ 40 }
        ensures known { (events : List Event)
            → known_of_path self.new events
            ≡ known_brought (cycle_of cycle.now) self.old.seen (known_of_path self.old events) }
        ensures window { self.new.window ≡ self.old.window }
    {
        self.take_holds(cycle);
        self.take_fetched(cycle.rows);
        self.take_before(cycle.number, cycle.steps);
        self.drop_ended(cycle.rows, ended);
    }

    // Who holds units after a cycle.
    fn take_holds(&mut self, cycle: &Cycle<'_>)
        requires room { length self.old.holds.items + length cycle.now.rows.now ≤ vec_capacity self.old.holds }
        requires cycles { cycle.now.number < 2 ^ 40 }
        ensures holds { self.new.holds.items ≡ holds_shown (cycle_of cycle.now) (known_of_path self.old []) }
        ensures others { AreSameButHolds self.old self.new }
    {
        drop_ended(cycle.number, &mut self.holds);
        push_holds(
            cycle.number,
            cycle.values,
            cycle.rows,
            &self.ways.as_slice()[self.dropped..],
            &mut self.holds,
        );
    }

    // The words that were fetched in a cycle are in flight.
    fn take_fetched(&mut self, rows: &[Passage])
        requires room { length self.old.ways.items + length rows.now ≤ vec_capacity self.old.ways }
        ensures ways { ways_of self.new ≡ with_fetched self.old.seen.fetch rows.now (ways_of self.old) }
        ensures others { AreSameButWays self.old self.new }
    {
        let fetched = rows.len().saturating_sub(self.ways.len() - self.dropped);
        push_fetched(fetched, &self.seen.fetch, &mut self.ways);
    }

    // All else that is known after a cycle.
    fn take_before(&mut self, number: u64, steps: &[Step])
        ensures before { self.new.before ≡ before_with number steps.now self.old.seen self.old.before }
        ensures others { AreSameButBefore self.old self.new }
    {
        if self.seen.left.is_some() {
            self.before.left = self.seen.left;
        }
        take_port(number, &self.seen.port, &mut self.before.port);
        take_drain(number, &self.seen.port, &mut self.before.drain);
        self.before.facts = self.seen.facts;
        let drains = begins_drain(&self.seen.port);
        self.before.waiting.follow(steps, drains);
        self.before.refilled = self.seen.refilled;
    }

    // How many at the front are forgotten with those that left the hardware, if the others may stay where they are.
    fn forgotten(&self, rows: &[Passage], ended: Option<usize>) -> Option<usize>
        requires ended { ended ≡ forgotten_in rows.now }
        ensures { IfSome result (AreForgotten rows.now (ways_of self.now)) }
    {
        if self.ways.len() - self.dropped != rows.len() {
            return None;
        }
        if self.ways.capacity() - self.ways.len() < MOST_IN_CYCLE {
            return None;
        }
        ended
    }

    // Forgets the events of the instructions that left the hardware.
    fn drop_ended(&mut self, rows: &[Passage], ended: Option<usize>)
        requires ended { ended ≡ forgotten_in rows.now }
        requires room { length rows.now ≤ vec_capacity self.old.next }
        ensures ways { ways_of self.new ≡ still_in_flight rows.now (ways_of self.old) }
        ensures others { AreSameBeside self.old self.new }
    {
        match self.forgotten(rows, ended) {
            Some(count) => self.dropped += count,
            None => self.move_to_next(rows),
        }
    }

    // Moves the events of those that are in flight to where there is room.
    fn move_to_next(&mut self, rows: &[Passage])
        requires room { length rows.now ≤ vec_capacity self.old.next }
        ensures ways { ways_of self.new ≡ still_in_flight rows.now (ways_of self.old) }
        ensures others { AreSameBeside self.old self.new }
    {
        self.next.clear();
        push_in_flight(rows, &self.ways.as_slice()[self.dropped..], &mut self.next);
        swap(&mut self.ways, &mut self.next);
        self.next.clear();
        self.dropped = 0;
    }

    /// The account of the path to the end of a run of so many cycles. The only error is out of memory.
    pub fn into_account(self, cycles: u64) -> Result<Account, AllocError>
        ensures { IfOk result (λ account. (all : List Event) → IsWindow self.window all →
            Passes self.window (last_point self)
            → accounted account ≡ account_of (path_of cycles (known_of_path self all))) }
    {
        let Path {
            ways: _,
            dropped: _,
            next: _,
            holds: _,
            before,
            seen: _,
            window,
            live: _,
        } = self;
        window.into_account(&end_of(cycles, &before))
    }

    /// The path to the last event of the cycles so far, as far as it lies in the window, the newest event first. The
    /// only error is out of memory.
    pub fn into_path(self) -> Result<Vec<Event>, AllocError>
        ensures { IfOk result (λ path. path.items ≡ path_to (kept_events self.window) (last_point self)) }
    {
        let Path {
            ways: _,
            dropped: _,
            next: _,
            holds: _,
            before,
            seen: _,
            window,
            live: _,
        } = self;
        window.into_path(Some(last_left(&before.left).at))
    }
}

// The end of a run of so many cycles, which comes after the last event.
fn end_of(cycles: u64, before: &Before) -> Event
    ensures { result ≡ end_of cycles before.now }
{
    let at = Point {
        stage: Stage::End,
        number: 0,
    };
    Waited::after(last_left(&before.left), Cause::AfterLast).event(true, at, cycles, None)
}
