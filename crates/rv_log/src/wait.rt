ghost use Rattle.std.specs.Prelude.{◌≡◌, ◌+◌};
ghost use Rattle.rv_log.specs.Waited.{after_or_left, cycles_of, is_later, issue_awaited};
ghost use Rattle.rv_log.specs.Waited.{last_of, operand_wait, or_left, wait};
ghost use Rattle.rv_drawing.specs.Cell.{is_past};
ghost use Rattle.rv_passage.specs.Result.{issued_in, ready_in};

use rv_isa::Kind;
use rv_passage::{Passage, Producer};

/// What an instruction waits for.
#[derive(Clone, Copy)]
pub(crate) enum Awaited {
    /// Its dispatch, for room or its turn.
    Dispatch,
    /// A result.
    Operand(Producer),
    /// A unit of its kind; of no kind, the head.
    Unit(Option<Kind>),
    /// Operands, a unit or the head.
    Unknown,
    /// The common data bus, for its result.
    Bus,
    /// The head of the reorder buffer, once its result was broadcast.
    Head,
}

/// A wait of an instruction.
#[derive(Clone, Copy)]
pub(crate) struct Wait {
    /// The first cycle of the wait.
    pub(crate) from: u128,
    /// The first cycle after it.
    pub(crate) until: u128,
    pub(crate) awaited: Awaited,
}

impl Wait {
    /// How many cycles it lasts.
    pub(crate) fn cycles(&self) -> u128
        ensures { result ≡ cycles_of self.now }
    {
        self.until.saturating_sub(self.from)
    }
}

// Whether a stamp came before a cycle.
fn is_past(stamp: Option<u64>, cycle: u64) -> bool
    ensures { result ≡ is_past cycle stamp }
{
    match stamp {
        Some(stamp) => stamp < cycle,
        None => false,
    }
}

// A stamp; where it did not come, the cycle in which the instruction left.
fn or_left(stamp: Option<u64>, left: u64) -> u128
    ensures { result ≡ or_left left stamp }
{
    match stamp {
        Some(stamp) => u128::from(stamp),
        None => u128::from(left),
    }
}

// The cycle after a stamp; where it did not come, the cycle in which the instruction left.
fn after_or_left(stamp: Option<u64>, left: u64) -> u128
    ensures { result ≡ after_or_left left stamp }
{
    match stamp {
        Some(stamp) => u128::from(stamp) + 1,
        None => u128::from(left),
    }
}

// The first cycle in which its result can be broadcast; where its execution did not begin, the cycle in which it left.
fn ready_or_left(row: &Passage, left: u64) -> u128
    ensures { result ≡ or_left left (ready_in row.now) }
{
    match row.ready() {
        Some(ready) => ready,
        None => u128::from(left),
    }
}

// Whether a broadcast came after another one, or did not come where that came.
fn is_later(broadcast: Option<u64>, other: Option<u64>) -> bool
    ensures { result ≡ is_later broadcast other }
{
    match (broadcast, other) {
        (Some(broadcast), Some(other)) => other < broadcast,
        (None, Some(_)) => true,
        (_, None) => false,
    }
}

// The producer whose broadcast came last.
fn last_of(first: Option<Producer>, second: Option<Producer>) -> Option<Producer>
    ensures { result ≡ last_of first second }
{
    match (first, second) {
        (Some(first), Some(second)) => {
            if is_later(second.broadcast, first.broadcast) {
                Some(second)
            } else {
                Some(first)
            }
        }
        (Some(first), None) => Some(first),
        (None, second) => second,
    }
}

// From a cycle on the wait for a result, if any.
fn operand_wait(from: u128, left: u64, last: Option<Producer>) -> Wait
    ensures { result ≡ operand_wait from left last }
{
    match last {
        Some(producer) => Wait {
            from,
            until: after_or_left(producer.broadcast, left),
            awaited: Awaited::Operand(producer),
        },
        None => Wait {
            from,
            until: from,
            awaited: Awaited::Unknown,
        },
    }
}

// What an instruction waits for until its issue in a log from a cycle on, once its operands came.
fn issue_awaited(row: &Passage, first: u64) -> Awaited
    ensures { result ≡ issue_awaited first row.now }
{
    if is_past(row.dispatched, first) {
        Awaited::Unknown
    } else {
        Awaited::Unit(row.instruction.kind())
    }
}

/// The wait between fetch and dispatch of an instruction that left the hardware in a cycle.
#[inline(always)]
pub(crate) fn dispatch_wait(row: &Passage, left: u64) -> Wait
    ensures { result ≡ wait (row.now.fetched + 1) (or_left left row.now.dispatched) Awaited.Dispatch }
{
    Wait {
        from: u128::from(row.fetched) + 1,
        until: or_left(row.dispatched, left),
        awaited: Awaited::Dispatch,
    }
}

/// Its wait for its operands after that.
#[inline(always)]
pub(crate) fn result_wait(row: &Passage, left: u64) -> Wait
    ensures { result ≡ operand_wait (after_or_left left row.now.dispatched) left
        (last_of row.now.producers.first row.now.producers.second) }
{
    let last = last_of(row.producers.first, row.producers.second);
    operand_wait(after_or_left(row.dispatched, left), left, last)
}

/// Its wait from a cycle on until its issue, in a log from a first cycle on.
#[inline(always)]
pub(crate) fn issue_wait(row: &Passage, first: u64, left: u64, from: u128) -> Wait
    ensures { result ≡ wait from (or_left left (issued_in row.now)) (issue_awaited first row.now) }
{
    Wait {
        from,
        until: or_left(row.issued(), left),
        awaited: issue_awaited(row, first),
    }
}

/// Its wait for the common data bus.
#[inline(always)]
pub(crate) fn bus_wait(row: &Passage, left: u64) -> Wait
    ensures { result ≡ wait (or_left left (ready_in row.now)) (or_left left row.now.broadcast) Awaited.Bus }
{
    Wait {
        from: ready_or_left(row, left),
        until: or_left(row.broadcast, left),
        awaited: Awaited::Bus,
    }
}

/// Its wait for the head of the reorder buffer.
#[inline(always)]
pub(crate) fn head_wait(row: &Passage, left: u64) -> Wait
    ensures { result ≡ wait (after_or_left left row.now.broadcast) left Awaited.Head }
{
    Wait {
        from: after_or_left(row.broadcast, left),
        until: u128::from(left),
        awaited: Awaited::Head,
    }
}
