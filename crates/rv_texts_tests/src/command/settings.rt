use super::usage::each_is_shown;
use std::test::Fail;

// What is said of a value of an option of a command.
macro_rules! refused {
    ($command:literal, $option:literal, $text:literal, $why:literal) => {
        concat!(
            "error: invalid value '",
            $text,
            "' for '",
            $option,
            "': ",
            $why,
            "\n\nUsage: rv_sim ",
            $command,
            " [OPTIONS]\n\nFor more information, try '--help'.\n"
        )
    };
}

// What is said of a value of `--also`.
macro_rules! wrong {
    ($text:literal, $why:literal) => {
        refused!("sensitivity", "--also <KEY=VALUE>", $text, $why)
    };
}

// What is said of a value of `--show`.
macro_rules! not_shown {
    ($text:literal, $why:literal) => {
        refused!("compare", "--show <WHAT>", $text, $why)
    };
}

// A value of `--show` that names nothing, and what is said of it.
macro_rules! names_nothing {
    ($text:literal) => {
        (
            &["rv_sim", "compare", "--show", $text],
            not_shown!(
                $text,
                "WHAT is a register, as a0 or x10, the address of a word, as 0x80001000, or places"
            ),
        )
    };
}

// A value of `--also`, and what is said of it.
macro_rules! wrong_alone {
    ($text:literal, $why:literal) => {
        (
            &["rv_sim", "sensitivity", "--also", $text],
            wrong!($text, $why),
        )
    };
}

#[test]
fn a_wrong_value_of_a_users_own_is_reported_what_its_key_takes(
    rt: HostRuntime,
) -> Result<(), Fail> {
    static CASES: [(&[&str], &str); 23] = [
        wrong_alone!("rob=9999", "rob is a number from 1 to 256"),
        wrong_alone!("rob=", "rob is a number from 1 to 256"),
        wrong_alone!(
            "cache.line=48",
            "cache.line is a power of two from 4 to 128"
        ),
        wrong_alone!("div.pipelined=yes", "div.pipelined is true or false"),
        wrong_alone!("recovery=soon", "recovery is \"commit\" or \"early\""),
        wrong_alone!(
            "predictor.kind=perceptron",
            "predictor.kind is \"not_taken\", \"backward_taken\" or \"bimodal\""
        ),
        wrong_alone!(
            "ram_size=8192",
            "ram_size does not say how fast a program runs"
        ),
        wrong_alone!("rob", "a value is missing; rob is a number from 1 to 256"),
        wrong_alone!(
            "report.dump_words",
            "report.dump_words does not say how fast a program runs"
        ),
        wrong_alone!("robb=8", "no key has this name; nearest: rob"),
        wrong_alone!("robb", "no key has this name; nearest: rob"),
        wrong_alone!(
            "cache.mit=1",
            "no key has this name; nearest: cache.hit, cache.miss"
        ),
        wrong_alone!(
            "cache.lits=1",
            "no key has this name; nearest: cache.sets, cache.line, cache.hit"
        ),
        wrong_alone!(
            "",
            "no key has this name; keys are those of a description, as rob, cache.line or predictor.kind"
        ),
        (
            &[
                "rv_sim",
                "sensitivity",
                "--also=forward=2",
                "--also=rob=1",
                "--also=rob=2",
            ],
            wrong!("rob=2", "its key is set twice"),
        ),
        (
            &["rv_sim", "sensitivity", "--also=rob=1", "--also=rob=2"],
            wrong!("rob=2", "its key is set twice"),
        ),
        (
            &[
                "rv_sim",
                "sensitivity",
                "--also=rob=1",
                "--also=rob=2",
                "--also=rob=3",
            ],
            wrong!("rob=2", "its key is set twice"),
        ),
        (
            &[
                "rv_sim",
                "sensitivity",
                "--also=forward=2",
                "--also=rob=1",
                "--also=rob=2",
                "--also=rob=3",
            ],
            wrong!("rob=2", "its key is set twice"),
        ),
        (
            &[
                "rv_sim",
                "sensitivity",
                "--also=rob=1",
                "--also=forward=2",
                "--also=rob=2",
            ],
            wrong!("rob=2", "its key is set twice"),
        ),
        (
            &[
                "rv_sim",
                "sensitivity",
                "--also=rob=1",
                "--also=forward=2",
                "--also=bus_width=2",
                "--also=rob=2",
            ],
            wrong!("rob=2", "its key is set twice"),
        ),
        (
            &[
                "rv_sim",
                "sensitivity",
                "--also=forward=2",
                "--also=rob=1",
                "--also=bus_width=2",
                "--also=rob=2",
            ],
            wrong!("rob=2", "its key is set twice"),
        ),
        (
            &[
                "rv_sim",
                "sensitivity",
                "--also=forward=2",
                "--also=bus_width=2",
                "--also=rob=1",
                "--also=rob=2",
            ],
            wrong!("rob=2", "its key is set twice"),
        ),
        (
            &[
                "rv_sim",
                "sensitivity",
                "--also=rob=1",
                "--also=fetch_width=1",
                "--also=bus_width=1",
                "--also=commit_width=1",
                "--also=store_queue=1",
            ],
            wrong!("store_queue=1", "--also may be given four times"),
        ),
    ];
    each_is_shown(&rt, rt.alloc(), &CASES, 2)
}

#[test]
fn a_wrong_value_of_a_column_is_reported_what_a_table_shows(rt: HostRuntime) -> Result<(), Fail> {
    static CASES: [(&[&str], &str); 7] = [
        names_nothing!("x32"),
        names_nothing!("0x80001002"),
        names_nothing!("2k"),
        names_nothing!("a0 "),
        names_nothing!(""),
        (
            &["rv_sim", "compare", "--show=a0", "--show=q", "--show=r"],
            not_shown!(
                "q",
                "WHAT is a register, as a0 or x10, the address of a word, as 0x80001000, or places"
            ),
        ),
        (
            &[
                "rv_sim",
                "compare",
                "--show=q",
                "--show=a1",
                "--show=a2",
                "--show=a3",
                "--show=a4",
                "--show=a5",
            ],
            not_shown!("a4", "--show may be given four times"),
        ),
    ];
    each_is_shown(&rt, rt.alloc(), &CASES, 2)
}
