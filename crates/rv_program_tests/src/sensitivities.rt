use crate::checks::{check_full, check_lines, check_status};
use crate::helpers::{Narrow, run_text};
use rv_command::Command;
use rv_isa::NumberKey;
use rv_job::read_job;
use rv_program::sensitivity::sensitivity;
use rv_report::{Columns, TableOptions};
use rv_sensitivity::{Change, KeyValue, Setting, Settings};
use std::test::Fail;

// Two instructions that the standard machine fetches in its first cycle: the second traps in the fifth.
const TEXT: &[u8] = b"addi x1,x0,5
ebreak
";

const NOTHING_SET: Settings = Settings {
    first: None,
    second: None,
    third: None,
    fourth: None,
};

const OPTIONS: TableOptions = TableOptions {
    limit: 100_000,
    shown: Columns {
        first: None,
        second: None,
        third: None,
        fourth: None,
    },
};

#[test]
fn the_machine_as_it_is_stands_first(rt: HostRuntime) {
    static LINES: [&str; 3] = [
        "widths\t2,2,2,2\t4,4,4,4\t5\t0\tbreakpoint",
        "predictor.kind\tbimodal\tnot_taken\t5\t0\tbreakpoint",
        "predictor.kind\tbimodal\tbackward_taken\t5\t0\tbreakpoint",
    ];
    let command = Command::Sensitivity {
        also: NOTHING_SET,
        limit: 100_000,
    };
    let ended = run_text(rt.alloc(), command, TEXT);
    check_status(&rt, &ended, 0);
    let table = ended.output.as_slice();
    let beginning = b"key\tfrom\tto\tcycles\tchange\tstop\n-\t-\t-\t5\t0\tbreakpoint\n";
    assert!(&rt; table.starts_with(beginning));
    check_lines(&rt, table, &LINES);
}

// Three cycles are fewer than the program needs.
#[test]
fn a_run_that_the_limit_ends_says_so(rt: HostRuntime) {
    static LINES: [&str; 3] = [
        "-\t-\t-\t3\t0\tlimit",
        "rob\t16\t32\t3\t0\tlimit",
        "fetch_width\t2\t1\t3\t0\tlimit",
    ];
    let also = Settings {
        second: Some(Setting {
            index: 3,
            value: KeyValue::Number(1),
        }),
        ..NOTHING_SET
    };
    let command = Command::Sensitivity { also, limit: 3 };
    let ended = run_text(rt.alloc(), command, TEXT);
    check_status(&rt, &ended, 0);
    check_lines(&rt, ended.output.as_slice(), &LINES);
}

#[test]
fn a_job_that_is_refused_has_no_table(rt: HostRuntime) {
    let command = Command::Sensitivity {
        also: NOTHING_SET,
        limit: 3,
    };
    let ended = run_text(rt.alloc(), command, b"rob = 0\n%%\nebreak\n");
    check_status(&rt, &ended, 1);
    assert!(&rt; ended.output.is_empty());
}

#[test]
fn an_output_that_is_full_has_a_beginning_of_the_table(rt: HostRuntime) -> Result<(), Fail> {
    let job = read_job(rt.alloc(), TEXT)?;
    let own = [Change::Number(NumberKey::Rob, 1)];
    let mut whole = Vec::new(rt.alloc());
    sensitivity(rt.alloc(), &job, &own, &OPTIONS, &mut whole)?;
    for room in [0, 1, 70, 100] {
        let mut output = Narrow {
            width: 9,
            room,
            taken: Vec::new(rt.alloc()),
        };
        let ended = sensitivity(rt.alloc(), &job, &own, &OPTIONS, &mut output);
        check_full(&rt, ended.err(), &output, room, whole.as_slice());
    }
    Ok(())
}
