ghost use Rattle.std.specs.Prelude.{◌≡◌, IsTrue, false, None};
ghost use Rattle.std.specs.Option.{unwrap_or};
ghost use Rattle.rv_isa.specs.Instruction.{is_serialising};
ghost use Rattle.rv_hardware.specs.InFlight.{broadcast_of};
ghost use Rattle.rv_hardware.specs.Retirement.{execution_of, row_of};
ghost use Rattle.rv_core.specs.HeadTurn.{role_of};

use rv_arch::Stop;
use rv_hardware::{Execution, Row, Step};
use rv_isa::{Cause, CsrAddress, CsrOp, CsrSource, Fault, Instr, Message, Reg};
use rv_rob::{Entry, Stage};

/// What a turn of the commit phase came to.
pub(crate) enum HeadTurn {
    /// The phase goes on.
    GoesOn,
    /// The phase ends, and the run for the reason given, if there is one.
    Ends(Option<Stop>),
}

/// What a head does when its turn comes.
#[derive(Clone, Copy)]
pub(crate) enum Role {
    FenceInstructions,
    CsrAccess(CsrAccess),
    TrapReturn,
    WaitsForResult,
}

/// A CSR instruction.
#[derive(Clone, Copy)]
pub(crate) struct CsrAccess {
    pub(crate) op: CsrOp,
    pub(crate) rd: Reg,
    pub(crate) csr: CsrAddress,
    pub(crate) source: CsrSource,
}

pub(crate) fn role_of(instruction: &Option<Instr>) -> Role
    ensures { result ≡ role_of instruction.now }
{
    match instruction {
        Some(Instr::FenceI) => Role::FenceInstructions,
        Some(
            Instr::Csr {
                op,
                rd,
                csr,
                source,
            },
        ) => Role::CsrAccess(CsrAccess {
            op: *op,
            rd: *rd,
            csr: *csr,
            source: *source,
        }),
        Some(Instr::Mret) => Role::TrapReturn,
        _ => Role::WaitsForResult,
    }
}

/// Whether a head's turn ends at once, since it waits for a result that is not known yet.
pub(crate) fn waits_for_result(entry: &Entry) -> bool
    ensures role { IsTrue result → is_serialising entry.now.instruction ≡ false }
    ensures unknown { IsTrue result → broadcast_of entry.now.stage ≡ None }
{
    match entry.stage {
        Stage::Finished { .. } => false,
        _ => !entry.instruction.is_serialising(),
    }
}

pub(crate) fn message_of(stage: &Stage) -> Option<Message>
    ensures { result ≡ broadcast_of stage.now }
{
    match stage {
        Stage::Finished { message, .. } => Some(*message),
        _ => None,
    }
}

pub(crate) fn illegal(entry: &Entry) -> Fault
    ensures cause { result.cause ≡ Cause.IllegalInstruction }
    ensures value { result.value ≡ unwrap_or entry.now.word 0 }
{
    Fault {
        cause: Cause::IllegalInstruction,
        value: entry.word.unwrap_or(0),
    }
}

fn execution_of(stage: &Stage) -> Option<Execution>
    ensures { result ≡ execution_of stage.now }
{
    match *stage {
        Stage::Finished {
            issue: Some(issue),
            cycle,
            ..
        } => Some(Execution {
            issued: issue.cycle,
            cost: issue.cost,
            broadcast: cycle,
        }),
        _ => None,
    }
}

pub(crate) fn row_of(entry: &Entry, written: Option<(Reg, u32)>, cycle: u64) -> Step
    ensures { result ≡ row_of entry.now written cycle }
{
    Step::Retired(Row {
        pc: entry.pc,
        word: entry.word.unwrap_or(0),
        written,
        fetched: entry.fetched,
        dispatched: entry.dispatched,
        execution: execution_of(&entry.stage),
        retired: cycle,
    })
}
