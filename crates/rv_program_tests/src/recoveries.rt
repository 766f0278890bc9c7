//! Early recovery, seen in the cycles of a trace, with predictors that miss what the described ones never do.

use crate::checks::check_lines;
use crate::guesses::Guesses;
use rv_job::read_job;
use rv_program::BoxedPredictor;
use rv_program::simulate::simulate;
use rv_report::Options;
use std::alloc::Global;
use std::test::Fail;

const OPTIONS: Options = Options {
    trace: true,
    limit: 1_000,
    dump_address: 0,
    dump_words: 0,
};

// The report of a program with early recovery, however its predictor guesses.
fn mended_early(alloc: Global, program: &str, guesses: Guesses) -> Result<Vec<u8>, Fail> {
    let text = format!(in alloc; "recovery = \"early\"\n%%\n{program}")?;
    let job = read_job(alloc, text.as_bytes())?;
    let predictor = BoxedPredictor {
        predictor: Box::new(alloc, guesses)?,
    };
    let mut report = Vec::new(alloc);
    simulate(alloc, &job, predictor, &OPTIONS, &mut report)?;
    Ok(report)
}

// A jump that is predicted to go on at the next word is mended when its result is broadcast, in cycle 3.
#[test]
fn early_recovery_mends_each_jump_at_its_broadcast(rt: HostRuntime) -> Result<(), Fail> {
    const PROGRAM: &str = "j over\nnop\nover: ebreak\n";
    static ROWS: [&str; 2] = [
        "R 80000000 0080006f F0 D1 I2 B3 C4 -",
        "T 80000008 00000003 00000000 C5",
    ];
    let report = mended_early(rt.alloc(), PROGRAM, Guesses::Ahead)?;
    check_lines(&rt, report.as_slice(), &ROWS);
    Ok(())
}

// An addition that is predicted to be followed by itself is mended when it retires, in cycle 4.
#[test]
fn early_recovery_leaves_what_is_no_jump_to_its_retirement(rt: HostRuntime) -> Result<(), Fail> {
    const PROGRAM: &str = "addi x1,x0,5\nebreak\n";
    static ROWS: [&str; 2] = [
        "R 80000000 00500093 F0 D1 I2 B3 C4 x1=00000005",
        "T 80000004 00000003 00000000 C6",
    ];
    let report = mended_early(rt.alloc(), PROGRAM, Guesses::Itself)?;
    check_lines(&rt, report.as_slice(), &ROWS);
    Ok(())
}
