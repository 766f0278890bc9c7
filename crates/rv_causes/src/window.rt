ghost use Rattle.std.specs.Prelude.{◌≡◌, ◌+◌, ◌≤◌, ◌∷◌, [], List, drop, length, reverse, slice_get};
ghost use Rattle.std.specs.Prelude.{take, vec_capacity, ℕ, IfOk, IsTrue, OnErr, OnOk, Option, Some};
ghost use Rattle.rv_causes.specs.Account.{account_of};
ghost use Rattle.rv_causes.specs.Walk.{path_to};
ghost use Rattle.rv_causes.specs.Window.{AllPass, AreAlike, AreSameButAccount, HasRoomFor, HasRoomForEvents};
ghost use Rattle.rv_causes.specs.Window.{IsMoved, IsWindow, Passes, account_at, account_to, accounted, kept_events};
ghost use Rattle.rv_causes.specs.declared.{point.Point.Point, event.Event.Event};

use crate::account::Account;
use crate::event::Event;
use crate::meeting::{meet, walk};
use crate::point::Point;
use std::alloc::{AllocError, Global};

/// The events of a run from some one on, and the account of the path to that one, the root, through which all paths go
/// that may be asked for.
#[derive(Drop)]
pub(crate) struct Window {
    /// The newest is the last.
    pub(crate) events: Vec<Event>,
    root: Option<Point>,
    account: Account,
    // Room for a path through the window.
    path: Vec<Event>,
}

// Drops so many from the front.
fn drop_front(count: usize, events: &mut Vec<Event>)
    requires within { count ≤ length events.old.items }
    ensures items { events.new.items ≡ drop count events.old.items }
    ensures capacity { vec_capacity events.old ≤ vec_capacity events.new }
{
    let length = events.len();
    events.copy_within(count..length, 0);
    events.truncate(length - count);
}

// Makes an account that of the path to what a walk wants beyond a window.
fn begin_at(beyond: Option<Point>, account: &mut Account)
    ensures account { accounted account.new ≡ account_at beyond (accounted account.old) }
    ensures room { (more : ℕ) → HasRoomFor more account.old → HasRoomFor more account.new }
{
    if beyond.is_none() {
        account.clear();
    }
}

// The point that is left of some, if one is.
fn only(points: &[Point]) -> Option<Point>
    requires few { length points.now ≤ 1 }
    ensures { result ≡ slice_get points.now 0 }
{
    points.first().copied()
}

impl Window {
    /// One on no event yet, with room for so many. The only error is out of memory.
    pub(crate) fn begin(alloc: Global, events: usize) -> Result<Window, AllocError>
        ensures window { IfOk result (λ window. IsWindow window []) }
        ensures room { IfOk result (λ window. HasRoomForEvents events window) }
    {
        Ok(Window {
            events: Vec::with_capacity(alloc, events)?,
            root: None,
            account: Account::new(alloc),
            path: Vec::new(alloc),
        })
    }

    /// Whether there is room for so many events more.
    pub(crate) fn has_room(&self, events: usize) -> bool
        ensures { IsTrue result → HasRoomForEvents events self.now }
    {
        events <= self.events.capacity() - self.events.len()
    }

    /// One event more of the run.
    pub(crate) fn push(&mut self, event: Event)
        requires room { HasRoomForEvents 1 self.old }
        ensures window { (all : List Event) → IsWindow self.old all → IsWindow self.new (event ∷ all) }
        ensures passes { Passes self.old event.before → (wanted : Option Point) → Passes self.old wanted →
            Passes self.new wanted }
        ensures new { Passes self.old event.before → Passes self.new (Some event.at) }
        ensures room { (more : ℕ) → HasRoomForEvents (more + 1) self.old → HasRoomForEvents more self.new }
    {
        self.events.push_reserved(event);
    }

    // Makes the account that of the path to a point, of so many of the oldest events, with room for a word more. The
    // only error is out of memory, which changes nothing that is accounted.
    fn account_to(&mut self, count: usize, wanted: Option<Point>) -> Result<(), AllocError>
        requires within { count ≤ length self.old.events.items }
        ensures others { AreSameButAccount self.old self.new }
        ensures account { OnOk result (accounted self.new.account
            ≡ account_to (reverse (take count self.old.events.items)) wanted (accounted self.old.account)) }
        ensures room { OnOk result (HasRoomFor 1 self.new.account) }
        ensures failed { OnErr result (accounted self.new.account ≡ accounted self.old.account) }
    {
        self.path.clear();
        self.path.reserve(count)?;
        let beyond = walk(&self.events.as_slice()[..count], wanted, &mut self.path);
        self.account.reserve(self.path.len() + 1)?;
        begin_at(beyond, &mut self.account);
        self.account.add_path(&mut self.path);
        Ok(())
    }

    // Makes a point the root, that all paths want beyond the events from a place on. The only error is out of memory, which changes
    // nothing.
    fn move_root(&mut self, place: usize, root: Option<Point>) -> Result<(), AllocError>
        requires within { place ≤ length self.old.events.items }
        ensures moved { OnOk result (IsMoved place root self.old self.new) }
        ensures failed { OnErr result (AreAlike self.old self.new) }
    {
        self.account_to(place, root)?;
        drop_front(place, &mut self.events);
        self.root = root;
        Ok(())
    }

    /// Makes room for so many events, and for as many as there are. The only error is out of memory, which changes nothing.
    pub(crate) fn reserve(&mut self, events: usize) -> Result<(), AllocError>
        ensures alike { AreAlike self.old self.new }
        ensures room { OnOk result (HasRoomForEvents events self.new) }
    {
        let length = self.events.len();
        self.events
            .reserve(if events < length { length } else { events })
    }

    /// Makes room for so many events more, where the paths to some points may be asked for still, that are used up.
    /// Drops the events that come before all of those paths meet, and doubles the room where that leaves too little.
    /// The only error is out of memory: then less room may be left than there was, and no path is another.
    pub(crate) fn make_room(
        &mut self,
        events: usize,
        live: &mut Vec<Point>,
    ) -> Result<(), AllocError>
        ensures window { AllPass self.old live.old.items → (all : List Event) → IsWindow self.old all →
            IsWindow self.new all }
        ensures pass { AllPass self.old live.old.items → AllPass self.new live.old.items }
        ensures room { OnOk result (HasRoomForEvents events self.new) }
        ensures few { length self.new.events.items ≤ length self.old.events.items }
    {
        let place = meet(self.events.as_slice(), live);
        if live.len() <= 1 {
            self.move_root(place, only(live.as_slice()))?;
        }
        self.reserve(events)
    }

    /// The account of the path to the end of the run. The only error is out of memory.
    pub(crate) fn into_account(self, end: &Event) -> Result<Account, AllocError>
        ensures { IfOk result (λ account. (all : List Event) → IsWindow self all → Passes self end.now.before →
            accounted account ≡ account_of (end.now ∷ path_to all end.now.before)) }
    {
        let mut window = self;
        let count = window.events.len();
        window.account_to(count, end.before)?;
        let Window {
            events: _,
            root: _,
            account,
            path: _,
        } = window;
        let mut account = account;
        account.add(end);
        Ok(account)
    }

    /// The path to a point, as far as it lies in the window, the newest event first. The only error is out of memory.
    pub(crate) fn into_path(self, wanted: Option<Point>) -> Result<Vec<Event>, AllocError>
        ensures { IfOk result (λ path. path.items ≡ path_to (kept_events self) wanted) }
    {
        let Window {
            events,
            root: _,
            account: _,
            path,
        } = self;
        let mut path = path;
        path.clear();
        path.reserve(events.len())?;
        walk(events.as_slice(), wanted, &mut path);
        Ok(path)
    }
}
