use super::{refused, words};
use rv_command::{Command, parse_words};
use std::alloc::Global;
use std::process::Abort;
use std::test::Fail;

// The words are refused with this exit status.
fn has_status(rt: &impl Abort, alloc: Global, texts: &[&str], status: i32) -> Result<(), Fail> {
    let found = refused(alloc, texts)?.exit_code();
    assert_eq!(rt; found, status);
    Ok(())
}

// The words are refused as a fault of usage.
pub(super) fn is_refused(rt: &impl Abort, alloc: Global, texts: &[&str]) -> Result<(), Fail> {
    has_status(rt, alloc, texts, 2)
}

// Each of the words is refused as a fault of usage.
pub(super) fn each_is_refused(
    rt: &impl Abort,
    alloc: Global,
    refused: &[&[&str]],
) -> Result<(), Fail> {
    for texts in refused {
        is_refused(rt, alloc, texts)?;
    }
    Ok(())
}

// The words ask for the command.
pub(super) fn is_taken(
    rt: &impl Abort,
    alloc: Global,
    texts: &[&str],
    command: Command,
) -> Result<(), Fail> {
    let given = words(alloc, texts)?;
    let taken = parse_words(alloc, given.as_slice()).ok();
    assert!(rt; taken == Some(command), "{texts:?}");
    Ok(())
}

#[test]
fn a_limit_is_one_to_a_million_and_else_a_usage_fault(rt: HostRuntime) -> Result<(), Fail> {
    static CASES: [(&[&str], u64); 3] = [
        (&["rv_sim", "reference"], 100_000),
        (&["rv_sim", "reference", "--limit", "1"], 1),
        (&["rv_sim", "reference", "--limit", "1000000"], 1_000_000),
    ];
    static REFUSED: [&str; 4] = ["0", "1000001", "x", "-1"];
    let alloc = rt.alloc();
    for (texts, limit) in &CASES {
        is_taken(&rt, alloc, texts, Command::Reference { limit: *limit })?;
    }
    for text in &REFUSED {
        is_refused(&rt, alloc, &["rv_sim", "reference", "--limit", text])?;
    }
    Ok(())
}

#[test]
fn a_run_has_a_trace_where_the_flag_is_given_once(rt: HostRuntime) -> Result<(), Fail> {
    static CASES: [(&[&str], bool, u64); 4] = [
        (&["rv_sim", "run"], false, 100_000),
        (&["rv_sim", "run", "--trace"], true, 100_000),
        (&["rv_sim", "run", "--limit", "7"], false, 7),
        (&["rv_sim", "run", "--limit=8", "--trace"], true, 8),
    ];
    static REFUSED: [&[&str]; 4] = [
        &["rv_sim", "run", "--trace", "--trace"],
        &["rv_sim", "run", "--trace=true"],
        &["rv_sim", "run", "--limit", "1000001"],
        &["rv_sim", "reference", "--trace"],
    ];
    let alloc = rt.alloc();
    for (texts, trace, limit) in &CASES {
        let (trace, limit) = (*trace, *limit);
        is_taken(&rt, alloc, texts, Command::Run { trace, limit })?;
    }
    each_is_refused(&rt, alloc, &REFUSED)
}

#[test]
fn a_picture_shows_sixty_cycles_from_the_first_on_unless_others_are_asked_for(
    rt: HostRuntime,
) -> Result<(), Fail> {
    // The words; whether --text, --retired and --path are given; the first cycle, and how many.
    static CASES: [(&[&str], bool, bool, bool, u64, u64); 10] = [
        (&["rv_sim", "picture"], false, false, false, 0, 60),
        (&["rv_sim", "picture", "--text"], true, false, false, 0, 60),
        (
            &["rv_sim", "picture", "--retired"],
            false,
            true,
            false,
            0,
            60,
        ),
        (&["rv_sim", "picture", "--path"], false, false, true, 0, 60),
        (
            &["rv_sim", "picture", "--retired", "--text"],
            true,
            true,
            false,
            0,
            60,
        ),
        (
            &["rv_sim", "picture", "--path", "--text", "--cycles=3"],
            true,
            false,
            true,
            0,
            3,
        ),
        (
            &["rv_sim", "picture", "--from", "7"],
            false,
            false,
            false,
            7,
            60,
        ),
        (
            &["rv_sim", "picture", "--cycles", "1"],
            false,
            false,
            false,
            0,
            1,
        ),
        (
            &["rv_sim", "picture", "--cycles=9", "--text", "--from=8"],
            true,
            false,
            false,
            8,
            9,
        ),
        (
            &["rv_sim", "picture", "--from=999999", "--cycles=1000"],
            false,
            false,
            false,
            999_999,
            1_000,
        ),
    ];
    static REFUSED: [&[&str]; 11] = [
        &["rv_sim", "picture", "--from", "1000000"],
        &["rv_sim", "picture", "--from", "-1"],
        &["rv_sim", "picture", "--cycles", "0"],
        &["rv_sim", "picture", "--cycles", "1001"],
        &["rv_sim", "picture", "--limit", "7"],
        &["rv_sim", "picture", "--text", "--text"],
        &["rv_sim", "picture", "--retired", "--retired"],
        &["rv_sim", "picture", "--path", "--path"],
        &["rv_sim", "picture", "--path=true"],
        &["rv_sim", "states", "--retired"],
        &["rv_sim", "page", "--path"],
    ];
    let alloc = rt.alloc();
    for (texts, text, retired, path, from, cycles) in &CASES {
        let asked = Command::Picture {
            text: *text,
            retired: *retired,
            path: *path,
            from: *from,
            cycles: *cycles,
        };
        is_taken(&rt, alloc, texts, asked)?;
    }
    each_is_refused(&rt, alloc, &REFUSED)
}

#[test]
fn states_and_page_show_two_hundred_cycles_unless_others_are_asked_for(
    rt: HostRuntime,
) -> Result<(), Fail> {
    const CASES: [(&[&str], Command); 4] = [
        (
            &["rv_sim", "states"],
            Command::States {
                from: 0,
                limit: 200,
            },
        ),
        (
            &["rv_sim", "states", "--from=999999", "--cycles=10000"],
            Command::States {
                from: 999_999,
                limit: 1_009_999,
            },
        ),
        (
            &["rv_sim", "page", "--from", "7"],
            Command::Page {
                from: 7,
                limit: 207,
            },
        ),
        (
            &["rv_sim", "page", "--cycles", "1"],
            Command::Page { from: 0, limit: 1 },
        ),
    ];
    static REFUSED: [&[&str]; 5] = [
        &["rv_sim", "states", "--from", "1000000"],
        &["rv_sim", "states", "--cycles", "0"],
        &["rv_sim", "page", "--cycles", "10001"],
        &["rv_sim", "page", "--limit", "7"],
        &["rv_sim", "states", "--text"],
    ];
    let alloc = rt.alloc();
    for (texts, command) in &CASES {
        is_taken(&rt, alloc, texts, *command)?;
    }
    each_is_refused(&rt, alloc, &REFUSED)
}

// The command has no other limit and no other word.
pub(super) fn has_a_limit_alone(rt: &impl Abort, alloc: Global, name: &str) -> Result<(), Fail> {
    let refused: [&[&str]; 4] = [
        &["rv_sim", name, "--limit", "0"],
        &["rv_sim", name, "--limit", "1000001"],
        &["rv_sim", name, "--trace"],
        &["rv_sim", name, "FILE"],
    ];
    each_is_refused(rt, alloc, &refused)
}

#[test]
fn a_log_has_a_limit_and_a_profile_and_an_explanation_have_flags_too(
    rt: HostRuntime,
) -> Result<(), Fail> {
    const CASES: [(&[&str], Command); 11] = [
        (&["rv_sim", "log"], Command::Log { limit: 100_000 }),
        (
            &["rv_sim", "log", "--limit", "7"],
            Command::Log { limit: 7 },
        ),
        (
            &["rv_sim", "explain"],
            Command::Explain {
                figures: false,
                path: false,
                limit: 100_000,
            },
        ),
        (
            &["rv_sim", "explain", "--limit=8", "--figures"],
            Command::Explain {
                figures: true,
                path: false,
                limit: 8,
            },
        ),
        (
            &["rv_sim", "explain", "--path"],
            Command::Explain {
                figures: false,
                path: true,
                limit: 100_000,
            },
        ),
        (
            &["rv_sim", "explain", "--path", "--limit=9", "--figures"],
            Command::Explain {
                figures: true,
                path: true,
                limit: 9,
            },
        ),
        (
            &["rv_sim", "profile"],
            Command::Profile {
                path: false,
                limit: 100_000,
            },
        ),
        (
            &["rv_sim", "profile", "--limit", "6"],
            Command::Profile {
                path: false,
                limit: 6,
            },
        ),
        (
            &["rv_sim", "profile", "--path", "--limit=4"],
            Command::Profile {
                path: true,
                limit: 4,
            },
        ),
        (&["rv_sim", "path"], Command::Path { limit: 100_000 }),
        (
            &["rv_sim", "path", "--limit", "5"],
            Command::Path { limit: 5 },
        ),
    ];
    static NAMES: [&str; 5] = ["log", "explain", "profile", "path", "compare"];
    let alloc = rt.alloc();
    for (texts, command) in &CASES {
        is_taken(&rt, alloc, texts, *command)?;
    }
    for name in &NAMES {
        has_a_limit_alone(&rt, alloc, name)?;
    }
    Ok(())
}

#[test]
fn check_and_help_are_known_and_other_words_are_not(rt: HostRuntime) -> Result<(), Fail> {
    let alloc = rt.alloc();
    static CASES: [(&str, i32); 7] = [
        ("--help", 0),
        ("help", 0),
        ("--version", 0),
        ("-V", 0),
        ("simulate", 2),
        ("--trace", 2),
        ("--", 2),
    ];
    is_taken(&rt, alloc, &["rv_sim", "check"], Command::Check)?;
    for (text, status) in &CASES {
        has_status(&rt, alloc, &["rv_sim", text], *status)?;
    }
    Ok(())
}

#[test]
fn a_limit_stands_after_an_equals_sign_or_a_space_and_once(rt: HostRuntime) -> Result<(), Fail> {
    static TAKEN: [&[&str]; 3] = [
        &["rv_sim", "reference", "--limit=7"],
        &["rv_sim", "reference", "--limit", "7"],
        &["rv_sim", "reference", "--limit", "007"],
    ];
    static REFUSED: [&[&str]; 5] = [
        &["rv_sim"],
        &["rv_sim", "check", "--limit", "7"],
        &["rv_sim", "reference", "--limit=7", "--limit=7"],
        &["rv_sim", "reference", "--limit"],
        &["rv_sim", "help", "simulate"],
    ];
    let alloc = rt.alloc();
    for texts in &TAKEN {
        is_taken(&rt, alloc, texts, Command::Reference { limit: 7 })?;
    }
    each_is_refused(&rt, alloc, &REFUSED)
}
