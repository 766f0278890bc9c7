use crate::checks::check_status;
use crate::helpers::run_text;
use rv_command::Command;
use std::alloc::Global;
use std::process::Abort;
use std::str;

const TABBED: &[u8] = b"alu.units = 1
%%
\taddi\tx1,x0,5
\tebreak
";

const COMMANDS: [Command; 4] = [
    Command::Picture {
        text: true,
        retired: false,
        path: false,
        from: 0,
        cycles: 9,
    },
    Command::Picture {
        text: false,
        retired: false,
        path: false,
        from: 0,
        cycles: 9,
    },
    Command::Log { limit: 9 },
    Command::Explain {
        figures: true,
        path: false,
        limit: 9,
    },
];

// Checks that what a command shows has the statement with a blank, and no other mark in place of the tab.
fn check_blank(rt: &impl Abort, alloc: Global, command: Command) {
    let ended = run_text(alloc, command, TABBED);
    check_status(rt, &ended, 0);
    let text = str::from_utf8(ended.output.as_slice()).expect(rt, "ASCII");
    assert!(rt; text.contains("addi x1,x0,5"));
    assert!(rt; !text.contains("?"));
}

#[test]
fn a_tab_in_a_statement_is_shown_as_a_blank(rt: HostRuntime) {
    for command in COMMANDS {
        check_blank(&rt, rt.alloc(), command);
    }
}
