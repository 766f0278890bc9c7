use crate::event::Event;
use crate::point::Stage;
use rv_passage::Passage;
use std::marker::Model;

/// The events of an instruction so far. One that did not come yet stands for the latest before it, and so the broadcast of an
/// instruction that uses no unit is its dispatch.
#[derive(Clone, Copy)]
pub(crate) struct Way {
    pub(crate) fetch: Event,
    pub(crate) dispatch: Option<Event>,
    pub(crate) issue: Option<Event>,
    pub(crate) broadcast: Option<Event>,
}

impl Way {
    ghost use Rattle.std.specs.Prelude.{◌≡◌};
    ghost use Rattle.rv_causes.specs.Way.{broadcast_by, dispatched_by, issued_by, way_from, with_stage};

    /// That of an instruction that was fetched by this event.
    pub(crate) fn from(fetch: Event) -> Way
        ensures { result ≡ way_from fetch }
    {
        Way {
            fetch,
            dispatch: None,
            issue: None,
            broadcast: None,
        }
    }

    /// It has an event at a stage.
    pub(crate) fn set(&mut self, stage: Stage, event: &Event)
        ensures { self.new ≡ with_stage stage event.now self.old }
    {
        match stage {
            Stage::Dispatch => self.dispatch = Some(*event),
            Stage::Issue => self.issue = Some(*event),
            Stage::Broadcast => self.broadcast = Some(*event),
            _ => {}
        }
    }

    /// The event by which it was dispatched, or the latest before that.
    pub(crate) fn dispatched(&self) -> &Event
        ensures { result.now ≡ dispatched_by self.now }
    {
        match &self.dispatch {
            Some(event) => event,
            None => &self.fetch,
        }
    }

    /// By which it was issued, or the latest before that.
    pub(crate) fn issued(&self) -> &Event
        ensures { result.now ≡ issued_by self.now }
    {
        match &self.issue {
            Some(event) => event,
            None => self.dispatched(),
        }
    }

    /// By which its result was broadcast, or the latest before that.
    pub(crate) fn broadcast(&self) -> &Event
        ensures { result.now ≡ broadcast_by self.now }
    {
        match &self.broadcast {
            Some(event) => event,
            None => self.issued(),
        }
    }
}

/// An instruction that is found, with its events.
#[derive(Drop)]
pub(crate) struct Found<'a> {
    row: &'a Passage,
    way: &'a Way,
}

impl<'a> Model for Found<'a> {
    ghost use Rattle.rv_causes.specs.Lookup.{Journey};

    ghost Value = { Journey };

    ghost view = { λ found. record { row = found.row.now; way = found.way.now } };
}

impl<'a> Found<'a> {
    ghost use Rattle.std.specs.Prelude.{◌≡◌};

    pub(crate) fn new(row: &'a Passage, way: &'a Way) -> Found<'a>
        ensures { result ≡ record { row = row.now; way = way.now } }
    {
        Found { row, way }
    }

    pub(crate) fn row(&self) -> &'a Passage
        ensures { result.now ≡ self.now.row }
    {
        self.row
    }

    pub(crate) fn way(&self) -> &'a Way
        ensures { result.now ≡ self.now.way }
    {
        self.way
    }
}
