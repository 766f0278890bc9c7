ghost use Rattle.std.specs.Prelude.{◌≡◌};
ghost use Rattle.rv_causes.specs.Claims.{claim, claim_of, comes, has_stage, is_of, is_so};

use crate::cause::Cause;
use crate::point::{Point, Stage};
use crate::sought::comes_after;

/// Some stages, at one of which an event is.
#[derive(Clone, Copy)]
pub(crate) enum Stages {
    Any,
    Begin,
    Fetch,
    Dispatch,
    Issue,
    Broadcast,
    Commit,
    Interrupt,
    End,
    /// A fetch, or what made room for one.
    Fetched,
    /// A dispatch, or what made room for one.
    Dispatched,
    /// A broadcast, or the dispatch of what uses no unit.
    Known,
    /// What the oldest does: it leaves, or begins to write lines back.
    Head,
    /// What asks for the port of the cache.
    Port,
    /// The start of a drain, which may be the store's retirement.
    Draining,
    /// The start of a write-back of lines, which may be the retirement of the one before.
    Writing,
    /// What leaves the hardware, or the beginning of the run.
    Left,
}

/// How much later than one event another one came.
#[derive(Clone, Copy)]
pub(crate) enum When {
    NotBefore,
    Later,
    /// In the next cycle.
    CycleAfter,
}

/// Whose event one waited for.
#[derive(Clone, Copy)]
pub(crate) enum Whose {
    Any,
    /// Of the same instruction.
    Same,
    Another,
    Older,
    /// Of the same instruction, or one that an older one shares with it.
    Own,
}

/// What a cause says of two events.
#[derive(Clone, Copy)]
pub(crate) struct Claim {
    /// Which ones wait.
    pub(crate) waits: Stages,
    /// For which.
    pub(crate) waited: Stages,
    pub(crate) when: When,
    pub(crate) whose: Whose,
}

impl Stages {
    #[inline(always)]
    fn has(self, stage: Stage) -> bool
        ensures { result ≡ has_stage self stage }
    {
        match self {
            Stages::Any => true,
            Stages::Begin => matches!(stage, Stage::Begin),
            Stages::Fetch => matches!(stage, Stage::Fetch),
            Stages::Dispatch => matches!(stage, Stage::Dispatch),
            Stages::Issue => matches!(stage, Stage::Issue),
            Stages::Broadcast => matches!(stage, Stage::Broadcast),
            Stages::Commit => matches!(stage, Stage::Commit),
            Stages::Interrupt => matches!(stage, Stage::Interrupt),
            Stages::End => matches!(stage, Stage::End),
            Stages::Fetched => matches!(
                stage,
                Stage::Fetch | Stage::Dispatch | Stage::Issue | Stage::Commit
            ),
            Stages::Dispatched => matches!(stage, Stage::Dispatch | Stage::Issue | Stage::Commit),
            Stages::Known => matches!(
                stage,
                Stage::Broadcast | Stage::Dispatch | Stage::Issue | Stage::Commit
            ),
            Stages::Head => matches!(stage, Stage::Commit | Stage::Lines),
            Stages::Port => matches!(
                stage,
                Stage::Issue | Stage::Commit | Stage::Lines | Stage::Drain
            ),
            Stages::Draining => matches!(stage, Stage::Drain | Stage::Commit),
            Stages::Writing => matches!(stage, Stage::Lines | Stage::Commit),
            Stages::Left => matches!(stage, Stage::Begin | Stage::Commit | Stage::Interrupt),
        }
    }
}

impl When {
    #[inline(always)]
    fn is(self, first: u64, second: u64) -> bool
        ensures { result ≡ comes self first second }
    {
        match self {
            When::NotBefore => true,
            When::Later => first < second,
            When::CycleAfter => comes_after(first, second),
        }
    }
}

impl Whose {
    #[inline(always)]
    fn is(self, waited: &Point, waits: &Point) -> bool
        ensures { result ≡ is_of self waited.now waits.now }
    {
        match self {
            Whose::Any => true,
            Whose::Same => waited.number == waits.number,
            Whose::Another => waited.number != waits.number,
            Whose::Older => waited.number < waits.number,
            Whose::Own => {
                waited.number == waits.number
                    || !matches!(waited.stage, Stage::Broadcast) && waited.number < waits.number
            }
        }
    }
}

impl Claim {
    #[inline(always)]
    fn new(waits: Stages, waited: Stages, when: When, whose: Whose) -> Claim
        ensures { result ≡ claim waits waited when whose }
    {
        Claim {
            waits,
            waited,
            when,
            whose,
        }
    }

    // Whether it is so of two events, after so many cycles each.
    #[inline(always)]
    fn is_so(self, waited: &Point, first: u64, waits: &Point, second: u64) -> bool
        ensures { result ≡ is_so self waited.now first waits.now second }
    {
        self.waits.has(waits.stage)
            && self.waited.has(waited.stage)
            && self.when.is(first, second)
            && self.whose.is(waited, waits)
    }
}

/// Whether what a cause says is so of two events, after so many cycles each. A claim stands where it is tested,
/// so that none is made when it runs.
#[inline(always)]
pub(crate) fn is_so_of(cause: Cause, waited: &Point, first: u64, waits: &Point, second: u64) -> bool
    ensures { result ≡ is_so (claim_of cause) waited.now first waits.now second }
{
    match cause {
        Cause::BeforeFirst => Claim::new(
            Stages::Any,
            Stages::Begin,
            When::NotBefore,
            Whose::Any,
        ).is_so(waited, first, waits, second),
        Cause::AfterLast => Claim::new(
            Stages::End,
            Stages::Left,
            When::NotBefore,
            Whose::Any,
        ).is_so(waited, first, waits, second),
        Cause::RefillPrediction
        | Cause::RefillTrap
        | Cause::RefillInterrupt
        | Cause::RefillSerialising => Claim::new(
            Stages::Fetched,
            Stages::Any,
            When::NotBefore,
            Whose::Any,
        ).is_so(waited, first, waits, second),
        Cause::FetchWidth | Cause::FetchJump => Claim::new(
            Stages::Fetch,
            Stages::Fetched,
            When::CycleAfter,
            Whose::Older,
        )
        .is_so(waited, first, waits, second),
        Cause::FrontEnd => Claim::new(
            Stages::Dispatch,
            Stages::Fetched,
            When::CycleAfter,
            Whose::Own,
        )
        .is_so(waited, first, waits, second),
        Cause::DispatchWidth => Claim::new(
            Stages::Dispatch,
            Stages::Dispatched,
            When::CycleAfter,
            Whose::Older,
        )
        .is_so(waited, first, waits, second),
        Cause::StoreQueueFull => Claim::new(
            Stages::Dispatch,
            Stages::Draining,
            When::Later,
            Whose::Any,
        ).is_so(waited, first, waits, second),
        Cause::DispatchToIssue => Claim::new(
            Stages::Issue,
            Stages::Dispatched,
            When::CycleAfter,
            Whose::Own,
        )
        .is_so(waited, first, waits, second),
        Cause::Operand | Cause::StoreAddress => Claim::new(
            Stages::Issue,
            Stages::Broadcast,
            When::CycleAfter,
            Whose::Older,
        )
        .is_so(waited, first, waits, second),
        Cause::AluBusy | Cause::MulBusy | Cause::DivBusy | Cause::MemBusy => Claim::new(
            Stages::Issue,
            Stages::Issue,
            When::Later,
            Whose::Another,
        ).is_so(waited, first, waits, second),
        Cause::PortStore => Claim::new(
            Stages::Port,
            Stages::Draining,
            When::Later,
            Whose::Any,
        ).is_so(waited, first, waits, second),
        Cause::PortLoad => Claim::new(Stages::Port, Stages::Issue, When::Later, Whose::Any).is_so(
            waited, first, waits, second,
        ),
        Cause::PortLines => Claim::new(
            Stages::Port,
            Stages::Writing,
            When::Later,
            Whose::Any,
        ).is_so(waited, first, waits, second),
        Cause::AluExecution
        | Cause::MulExecution
        | Cause::DivExecution
        | Cause::MemExecution
        | Cause::LoadForwarded
        | Cause::LoadHit
        | Cause::LoadMiss => Claim::new(
            Stages::Broadcast,
            Stages::Issue,
            When::Later,
            Whose::Same,
        ).is_so(waited, first, waits, second),
        Cause::BusFull => Claim::new(
            Stages::Broadcast,
            Stages::Broadcast,
            When::CycleAfter,
            Whose::Another,
        )
        .is_so(waited, first, waits, second),
        Cause::Commit => Claim::new(
            Stages::Head,
            Stages::Known,
            When::CycleAfter,
            Whose::Own,
        ).is_so(waited, first, waits, second),
        Cause::CommitInOrder => Claim::new(
            Stages::Head,
            Stages::Commit,
            When::CycleAfter,
            Whose::Older,
        ).is_so(waited, first, waits, second),
        Cause::CommitWidth => Claim::new(
            Stages::Commit,
            Stages::Commit,
            When::CycleAfter,
            Whose::Older,
        )
        .is_so(waited, first, waits, second),
        Cause::LinesWritten => Claim::new(
            Stages::Commit,
            Stages::Writing,
            When::Later,
            Whose::Own,
        ).is_so(waited, first, waits, second),
        Cause::UntilInterrupt => Claim::new(
            Stages::Interrupt,
            Stages::Left,
            When::Later,
            Whose::Any,
        ).is_so(waited, first, waits, second),
        Cause::Other => Claim::new(Stages::Any, Stages::Any, When::NotBefore, Whose::Any).is_so(
            waited, first, waits, second,
        ),
    }
}
