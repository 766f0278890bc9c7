ghost use Rattle.std.specs.Prelude.{◌≡◌, ◌+◌, ◌<◌, ◌^◌};
ghost use Rattle.rv_drawing.specs.Cell.{is_at, is_dispatch_wait, is_issue_wait, is_past, mark_of, wait_of, phase_of};
ghost use Rattle.rv_drawing.specs.Cell.{cell_of, has_cell, letter_by, letter_of, marked_letter_of, name_of, class_of};

use crate::window::Window;
use rv_passage::{Ending, Passage};

/// What the hardware did with an instruction in a cycle.
#[derive(Clone, Copy)]
pub(crate) enum Cell {
    Fetch,
    Dispatch,
    Issue,
    /// Between issue and the cycle in which the result is ready.
    Execution,
    /// Between that and the broadcast.
    BusWait,
    Broadcast,
    Retirement,
    Trap,
    Squash,
    /// It waits in the fetch buffer, for room or for older ones.
    DispatchWait,
    /// It waits for operands or a unit, or, where it uses none, for the head.
    IssueWait,
    /// Its result was broadcast, and older instructions did not retire yet.
    HeadWait,
}

impl Cell {
    /// The letter of a cell.
    #[tactic(auto, unfolding(crate::specs::Cell::letter_of))]
    pub(crate) fn letter(self) -> &'static [u8]
        ensures { result.now ≡ letter_of self }
    {
        match self {
            Cell::Fetch => b"F",
            Cell::Dispatch => b"D",
            Cell::Issue => b"I",
            Cell::Execution => b"=",
            Cell::BusWait => b"~",
            Cell::Broadcast => b"B",
            Cell::Retirement => b"C",
            Cell::Trap => b"T",
            Cell::Squash => b"x",
            Cell::DispatchWait | Cell::IssueWait | Cell::HeadWait => b".",
        }
    }

    /// The letter of a cell that is marked.
    #[tactic(auto, unfolding(crate::specs::Cell::marked_letter_of))]
    fn marked_letter(self) -> &'static [u8]
        ensures { result.now ≡ marked_letter_of self }
    {
        match self {
            Cell::Fetch => b"f",
            Cell::Dispatch => b"d",
            Cell::Issue => b"i",
            Cell::Broadcast => b"b",
            Cell::Retirement => b"c",
            Cell::Trap => b"t",
            Cell::Execution
            | Cell::BusWait
            | Cell::Squash
            | Cell::DispatchWait
            | Cell::IssueWait
            | Cell::HeadWait => b"*",
        }
    }

    /// The letter of a cell that may be marked.
    pub(crate) fn letter_by(self, is_marked: bool) -> &'static [u8]
        ensures { result.now ≡ letter_by is_marked self }
    {
        if is_marked {
            self.marked_letter()
        } else {
            self.letter()
        }
    }

    /// What a cell is called.
    #[tactic(auto, unfolding(crate::specs::Cell::name_of))]
    pub(crate) fn name(self) -> &'static [u8]
        ensures { result.now ≡ name_of self }
    {
        match self {
            Cell::Fetch => b"fetch",
            Cell::Dispatch => b"dispatch",
            Cell::Issue => b"issue",
            Cell::Execution => b"execution",
            Cell::BusWait => b"wait for the bus",
            Cell::Broadcast => b"broadcast",
            Cell::Retirement => b"retirement",
            Cell::Trap => b"trap",
            Cell::Squash => b"squash",
            Cell::DispatchWait => b"wait for room or its turn to dispatch",
            Cell::IssueWait => b"wait for operands, a unit or the head",
            Cell::HeadWait => b"wait for the head",
        }
    }

    /// Whether a dispatched instruction waits to be issued.
    pub(crate) fn is_issue_wait(self) -> bool
        ensures { result ≡ is_issue_wait self }
    {
        matches!(self, Cell::IssueWait)
    }

    /// Whether a fetched word waits to be dispatched.
    pub(crate) fn is_dispatch_wait(self) -> bool
        ensures { result ≡ is_dispatch_wait self }
    {
        matches!(self, Cell::DispatchWait)
    }

    /// The class of a cell in the style of an SVG.
    #[tactic(auto, unfolding(crate::specs::Cell::class_of))]
    pub(crate) fn class(self) -> &'static [u8]
        ensures { result.now ≡ class_of self }
    {
        match self {
            Cell::Fetch => b"f",
            Cell::Dispatch => b"d",
            Cell::Issue => b"i",
            Cell::Execution => b"e",
            Cell::BusWait => b"r",
            Cell::Broadcast => b"b",
            Cell::Retirement => b"c",
            Cell::Trap => b"t",
            Cell::Squash => b"x",
            Cell::DispatchWait | Cell::IssueWait | Cell::HeadWait => b"w",
        }
    }
}

fn is_at(stamp: Option<u64>, cycle: u64) -> bool
    ensures { result ≡ is_at cycle stamp }
{
    match stamp {
        Some(stamp) => stamp == cycle,
        None => false,
    }
}

/// Whether a stamp came before a cycle.
pub(crate) fn is_past(stamp: Option<u64>, cycle: u64) -> bool
    ensures { result ≡ is_past cycle stamp }
{
    match stamp {
        Some(stamp) => stamp < cycle,
        None => false,
    }
}

fn mark(ending: Ending) -> Cell
    ensures { result ≡ mark_of ending }
{
    match ending {
        Ending::Retired { .. } => Cell::Retirement,
        Ending::Trapped { .. } => Cell::Trap,
        Ending::Squashed { .. } => Cell::Squash,
        Ending::InFlight => Cell::DispatchWait,
    }
}

// What an instruction waits for.
fn wait_of(row: &Passage, cycle: u64) -> Cell
    ensures { result ≡ wait_of row.now cycle }
{
    if is_past(row.broadcast, cycle) {
        Cell::HeadWait
    } else if is_past(row.dispatched, cycle) {
        Cell::IssueWait
    } else {
        Cell::DispatchWait
    }
}

#[tactic(auto, unfolding(crate::specs::Cell::phase_of))]
fn phase(row: &Passage, cycle: u64) -> Cell
    ensures { result ≡ phase_of row.now cycle }
{
    if is_at(row.broadcast, cycle) {
        Cell::Broadcast
    } else if is_at(row.issued(), cycle) {
        Cell::Issue
    } else if is_at(row.dispatched, cycle) {
        Cell::Dispatch
    } else if row.fetched == cycle {
        Cell::Fetch
    } else if row.waits_for_bus(cycle) {
        Cell::BusWait
    } else if is_past(row.issued(), cycle) && !is_past(row.broadcast, cycle) {
        Cell::Execution
    } else {
        wait_of(row, cycle)
    }
}

/// What a row shows in a cycle, if anything.
#[tactic(auto, unfolding(crate::specs::Cell::cell_of))]
pub(crate) fn cell_in(row: &Passage, cycle: u64) -> Option<Cell>
    ensures { result ≡ cell_of row.now cycle }
{
    let left = row.ending.left();
    if cycle < row.fetched || is_past(left, cycle) {
        None
    } else if is_at(left, cycle) {
        Some(mark(row.ending))
    } else {
        Some(phase(row, cycle))
    }
}

/// Whether a row shows something in a window.
#[tactic(auto, unfolding(crate::specs::Cell::has_cell))]
pub(crate) fn has_cell(window: Window, row: &Passage) -> bool
    requires { window.first + window.cycles < 2 ^ 64 }
    ensures { result ≡ has_cell window row.now }
{
    0 < window.cycles
        && row.fetched < window.first + window.cycles
        && !is_past(row.ending.left(), window.first)
}
