use crate::checks::check_run;
use crate::helpers::{CORE, WHOLE, run_text};
use crate::programs::{STORE_AND_FENCE, STORE_INTO_CODE};
use rv_command::Command;

const SUM: &str = "addi x6,x0,10\nl: add x5,x5,x6\naddi x6,x6,-1\nbne x6,x0,l\nebreak\n";

#[test]
fn the_sum_of_one_to_ten_is_in_x5_after_32_steps(rt: HostRuntime) {
    static LINES: [&str; 7] = [
        "stop breakpoint",
        "steps 32",
        "retired 31",
        "traps 1",
        "x5 00000037",
        "x6 00000000",
        "mepc 80000010",
    ];
    check_run(&rt, rt.alloc(), WHOLE, SUM, 0, &LINES);
}

#[test]
fn a_limit_of_three_steps_ends_the_sum_there(rt: HostRuntime) {
    static LINES: [&str; 7] = [
        "stop limit",
        "steps 3",
        "retired 3",
        "traps 0",
        "pc 8000000c",
        "x5 0000000a",
        "x6 00000009",
    ];
    check_run(
        &rt,
        rt.alloc(),
        Command::Reference { limit: 3 },
        SUM,
        0,
        &LINES,
    );
}

#[test]
fn an_empty_text_traps_at_its_start_and_then_at_zero(rt: HostRuntime) {
    static LINES: [&str; 7] = [
        "stop limit",
        "steps 10",
        "retired 0",
        "traps 10",
        "pc 00000000",
        "mepc 00000000",
        "mcause 00000001",
    ];
    check_run(
        &rt,
        rt.alloc(),
        Command::Reference { limit: 10 },
        "",
        0,
        &LINES,
    );
}

#[test]
fn a_report_without_a_trace_begins_with_the_stop(rt: HostRuntime) {
    let ended = run_text(rt.alloc(), CORE, b"addi x1,x0,5\nebreak\n");
    let report = ended.output.as_slice();
    assert!(&rt; report.starts_with(b"stop breakpoint\ncycles 5\nretired 1\n"));
}

#[test]
fn a_stale_word_gives_status_3_and_the_report(rt: HostRuntime) {
    static STALE: [&str; 3] = ["stop stale 80000014", "pc 80000014", "x7 00000000"];
    static FENCED: [&str; 2] = ["stop breakpoint", "x7 00000001"];
    for command in &[WHOLE, CORE] {
        check_run(&rt, rt.alloc(), *command, STORE_INTO_CODE, 3, &STALE);
        check_run(&rt, rt.alloc(), *command, STORE_AND_FENCE, 0, &FENCED);
    }
}

#[test]
fn words_of_memory_follow_and_go_on_past_the_last_address(rt: HostRuntime) {
    static INSIDE: [&str; 2] = ["m 80000004 00100073", "m 80000008 00000000"];
    static WRAPPED: [&str; 2] = ["m fffffffc --------", "m 00000000 --------"];
    let inside =
        "report.dump_address = 0x80000004\nreport.dump_words = 2\n%%\naddi x1,x0,5\nebreak\n";
    let wrapped = "[report]\ndump_address = 0xfffffffc\ndump_words = 2\n%%\naddi x1,x0,5\nebreak\n";
    for command in &[WHOLE, CORE] {
        check_run(&rt, rt.alloc(), *command, inside, 0, &INSIDE);
        check_run(&rt, rt.alloc(), *command, wrapped, 0, &WRAPPED);
    }
}

#[test]
fn the_image_of_a_text_is_reported_by_its_size_and_start(rt: HostRuntime) {
    static CASES: [(&str, &str); 3] = [
        ("addi x1,x0,5\nebreak\n", "ok 8 bytes start 80000000"),
        ("nop\n_start: ebreak\n", "ok 8 bytes start 80000004"),
        ("ebreak\n.data\n.byte 1\n", "ok 17 bytes start 80000000"),
    ];
    for (text, line) in &CASES {
        check_run(&rt, rt.alloc(), Command::Check, text, 0, &[line]);
    }
}
