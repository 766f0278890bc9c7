use crate::checks::{check_bytes, check_fine, check_full, check_lines};
use crate::helpers::{Narrow, run_text};
use rv_command::{Command, Shown, ShownColumns};
use rv_isa::Reg;
use rv_job::read_comparison;
use rv_program::compare::compare;
use rv_report::{Columns, TableOptions};
use std::test::Fail;

// The same program on machines that differ in their predictors alone, of which it asks nothing. Two have names, one with a tab in it.
const TEXT: &[u8] = b"# name: not taken
predictor.kind = \"not_taken\"
%%
predictor.kind = \"backward_taken\"
%%
# name: two\tbits
predictor.kind = \"bimodal\"
%%
addi x1,x0,5
ebreak
";

// Each fetches two words in each of its five cycles but in the last, in which the ebreak traps: what stands after it is squashed.
const TABLE: &str = "\
number\tcycles\tretired\tcpi\ttraps\tinterrupts\tbusy\tstall_fetch\tstall_serial\tstall_rob\tstall_station\tstall_store\t\
mispredicted\tsquashed\tmisses\tname\tstop\tipc\tlongest_gap\tbranches\tloads\tdrains\thits\twrite_backs
1\t5\t1\t5.000\t1\t0\t3\t2\t0\t0\t0\t0\t0\t6\t0\tnot taken\tbreakpoint\t0.200\t4\t0\t0\t0\t0\t0
2\t5\t1\t5.000\t1\t0\t3\t2\t0\t0\t0\t0\t0\t6\t0\t-\tbreakpoint\t0.200\t4\t0\t0\t0\t0\t0
3\t5\t1\t5.000\t1\t0\t3\t2\t0\t0\t0\t0\t0\t6\t0\ttwo bits\tbreakpoint\t0.200\t4\t0\t0\t0\t0\t0
";

const OPTIONS: TableOptions = TableOptions {
    limit: 100_000,
    shown: Columns {
        first: None,
        second: None,
        third: None,
        fourth: None,
    },
};

#[test]
fn a_comparison_has_a_line_for_each_machine(rt: HostRuntime) -> Result<(), Fail> {
    let comparison = read_comparison(rt.alloc(), TEXT)?;
    let mut table = Vec::new(rt.alloc());
    compare(rt.alloc(), &comparison, &OPTIONS, &mut table)?;
    check_bytes(&rt, table.as_slice(), TABLE.as_bytes());
    Ok(())
}

#[test]
fn an_output_that_is_full_has_a_beginning_of_the_table(rt: HostRuntime) -> Result<(), Fail> {
    let comparison = read_comparison(rt.alloc(), TEXT)?;
    for room in [0, 1, 70, 100] {
        let mut output = Narrow {
            width: 9,
            room,
            taken: Vec::new(rt.alloc()),
        };
        let ended = compare(rt.alloc(), &comparison, &OPTIONS, &mut output);
        check_full(&rt, ended.err(), &output, room, TABLE.as_bytes());
    }
    Ok(())
}

#[test]
fn a_comparison_shows_what_is_asked_for(rt: HostRuntime) {
    static LINES: [&str; 2] = [
        "1\t5\t1\t5.000\t1\t0\t3\t2\t0\t0\t0\t0\t0\t6\t0\tnot taken\tbreakpoint\t0.200\t4\t0\t0\t0\t0\t0\t00000005\t00100073",
        "2\t5\t1\t5.000\t1\t0\t3\t2\t0\t0\t0\t0\t0\t6\t0\t-\tbreakpoint\t0.200\t4\t0\t0\t0\t0\t0\t00000005\t00100073",
    ];
    let shown = ShownColumns {
        first: Some(Shown::Register(Reg::new(1).expect(&rt, "a register"))),
        second: Some(Shown::Word(0x8000_0004)),
        third: None,
        fourth: None,
    };
    let command = Command::Compare {
        shown,
        limit: 100_000,
    };
    let ended = run_text(rt.alloc(), command, TEXT);
    check_fine(&rt, &ended);
    check_lines(&rt, ended.output.as_slice(), &LINES);
}
