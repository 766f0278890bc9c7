ghost use Rattle.std.specs.Prelude.{◌≡◌, ◌<◌};
ghost use Rattle.rv_causes.specs.Cause.{busy_of, cause_name, execution_of, place_of};

use rv_isa::Kind;

/// How many causes there are.
pub const CAUSES: usize = 35;

/// What an event of a run waited for.
#[derive(Clone, Copy)]
pub enum Cause {
    /// Nothing of the run came before it.
    BeforeFirst,
    /// The run's end, after the last retirement, trap or interrupt.
    AfterLast,
    /// The words after a wrong prediction, from the redirection of fetch to the first issue or commit among them.
    RefillPrediction,
    /// Those after a trap.
    RefillTrap,
    /// Those after an interrupt.
    RefillInterrupt,
    /// Those after a serialising instruction.
    RefillSerialising,
    /// As many words as the fetch width were fetched in the cycle before.
    FetchWidth,
    /// The cycle before ended its fetches at a jump that was predicted.
    FetchJump,
    /// The word was fetched in the cycle before.
    FrontEnd,
    /// As many words as the dispatch width were dispatched in the cycle before.
    DispatchWidth,
    /// The store queue was full until a store had drained.
    StoreQueueFull,
    /// The instruction was dispatched in the cycle before.
    DispatchToIssue,
    /// A register's value was broadcast in the cycle before.
    Operand,
    /// The address of an older store was broadcast in the cycle before.
    StoreAddress,
    /// The units of its kind were held.
    AluBusy,
    MulBusy,
    DivBusy,
    MemBusy,
    /// The cache's port was held by the drain of a store.
    PortStore,
    /// By a load.
    PortLoad,
    /// By the lines that a FENCE.I wrote back.
    PortLines,
    /// A unit executed it.
    AluExecution,
    MulExecution,
    DivExecution,
    MemExecution,
    /// A load executed that took no byte from the cache.
    LoadForwarded,
    /// One at the cost of a hit.
    LoadHit,
    /// One at any other cost.
    LoadMiss,
    /// As many results as the bus is wide were broadcast in the cycle before.
    BusFull,
    /// The result was known in the cycle before.
    Commit,
    /// An older instruction left the hardware in the cycle before.
    CommitInOrder,
    /// As many as the commit width left it in the cycle before.
    CommitWidth,
    /// The lines that the FENCE.I itself wrote back.
    LinesWritten,
    /// The interrupt came so long after the last step.
    UntilInterrupt,
    /// None of these.
    Other,
}

/// The causes between the first event and the last.
pub(crate) static INNER_CAUSES: [Cause; 33] = [
    Cause::RefillPrediction,
    Cause::RefillTrap,
    Cause::RefillInterrupt,
    Cause::RefillSerialising,
    Cause::FetchWidth,
    Cause::FetchJump,
    Cause::FrontEnd,
    Cause::DispatchWidth,
    Cause::StoreQueueFull,
    Cause::DispatchToIssue,
    Cause::Operand,
    Cause::StoreAddress,
    Cause::AluBusy,
    Cause::MulBusy,
    Cause::DivBusy,
    Cause::MemBusy,
    Cause::PortStore,
    Cause::PortLoad,
    Cause::PortLines,
    Cause::AluExecution,
    Cause::MulExecution,
    Cause::DivExecution,
    Cause::MemExecution,
    Cause::LoadForwarded,
    Cause::LoadHit,
    Cause::LoadMiss,
    Cause::BusFull,
    Cause::Commit,
    Cause::CommitInOrder,
    Cause::CommitWidth,
    Cause::LinesWritten,
    Cause::UntilInterrupt,
    Cause::Other,
];

impl Cause {
    /// Its place in an account.
    pub(crate) fn place(self) -> usize
        ensures place { result ≡ place_of self }
        ensures within { result < 35 }
    {
        match self {
            Cause::BeforeFirst => 0,
            Cause::AfterLast => 1,
            Cause::RefillPrediction => 2,
            Cause::RefillTrap => 3,
            Cause::RefillInterrupt => 4,
            Cause::RefillSerialising => 5,
            Cause::FetchWidth => 6,
            Cause::FetchJump => 7,
            Cause::FrontEnd => 8,
            Cause::DispatchWidth => 9,
            Cause::StoreQueueFull => 10,
            Cause::DispatchToIssue => 11,
            Cause::Operand => 12,
            Cause::StoreAddress => 13,
            Cause::AluBusy => 14,
            Cause::MulBusy => 15,
            Cause::DivBusy => 16,
            Cause::MemBusy => 17,
            Cause::PortStore => 18,
            Cause::PortLoad => 19,
            Cause::PortLines => 20,
            Cause::AluExecution => 21,
            Cause::MulExecution => 22,
            Cause::DivExecution => 23,
            Cause::MemExecution => 24,
            Cause::LoadForwarded => 25,
            Cause::LoadHit => 26,
            Cause::LoadMiss => 27,
            Cause::BusFull => 28,
            Cause::Commit => 29,
            Cause::CommitInOrder => 30,
            Cause::CommitWidth => 31,
            Cause::LinesWritten => 32,
            Cause::UntilInterrupt => 33,
            Cause::Other => 34,
        }
    }

    /// That the units of a kind were held.
    pub(crate) fn busy(kind: Kind) -> Cause
        ensures { result ≡ busy_of kind }
    {
        match kind {
            Kind::Alu => Cause::AluBusy,
            Kind::Mul => Cause::MulBusy,
            Kind::Div => Cause::DivBusy,
            Kind::Mem => Cause::MemBusy,
        }
    }

    /// That a unit of a kind executed it.
    pub(crate) fn execution(kind: Kind) -> Cause
        ensures { result ≡ execution_of kind }
    {
        match kind {
            Kind::Alu => Cause::AluExecution,
            Kind::Mul => Cause::MulExecution,
            Kind::Div => Cause::DivExecution,
            Kind::Mem => Cause::MemExecution,
        }
    }

    /// Its name.
    #[tactic(auto, unfolding(crate::specs::Cause::cause_name))]
    pub fn name(self) -> &'static [u8]
        ensures { result.now ≡ cause_name self }
    {
        match self {
            Cause::BeforeFirst => b"before the first event",
            Cause::AfterLast => b"after the last step",
            Cause::RefillPrediction => b"refill: wrong prediction",
            Cause::RefillTrap => b"refill: trap",
            Cause::RefillInterrupt => b"refill: interrupt",
            Cause::RefillSerialising => b"refill: serialising instruction",
            Cause::FetchWidth => b"fetch width",
            Cause::FetchJump => b"fetch ends at a predicted jump",
            Cause::FrontEnd => b"front end",
            Cause::DispatchWidth => b"dispatch width",
            Cause::StoreQueueFull => b"store queue full",
            Cause::DispatchToIssue => b"dispatch to issue",
            Cause::Operand => b"operand",
            Cause::StoreAddress => b"address of an older store",
            Cause::AluBusy => b"alu units busy",
            Cause::MulBusy => b"mul units busy",
            Cause::DivBusy => b"div units busy",
            Cause::MemBusy => b"mem units busy",
            Cause::PortStore => b"port: a store",
            Cause::PortLoad => b"port: a load",
            Cause::PortLines => b"port: lines written back",
            Cause::AluExecution => b"execution: alu",
            Cause::MulExecution => b"execution: mul",
            Cause::DivExecution => b"execution: div",
            Cause::MemExecution => b"execution: mem",
            Cause::LoadForwarded => b"load: forwarded, or faulted",
            Cause::LoadHit => b"load: hit",
            Cause::LoadMiss => b"load: miss",
            Cause::BusFull => b"common data bus full",
            Cause::Commit => b"commit",
            Cause::CommitInOrder => b"commit in order",
            Cause::CommitWidth => b"commit width",
            Cause::LinesWritten => b"lines written back",
            Cause::UntilInterrupt => b"until the interrupt",
            Cause::Other => b"another cause",
        }
    }
}
