use crate::refusal::{Refused, check_whole};
use std::test::Fail;

// Jobs with no description that are refused by their first line, which looks like one of a description or has a mark of one.
static FIRST_LINES: [Refused; 9] = [
    Refused {
        job: b"lui a0, %hi(x)",
        why: b"\
line 1 of the job, line 1 of its assembly: BadToken
    lui a0, %hi(x)
            ^
expected: names, numbers up to 4294967295, strings that end on their line, and the marks , : ( ) + -
hint: la loads the address of a symbol, without %hi and %lo
",
    },
    Refused {
        job: b"lw a0, [sp]",
        why: b"\
line 1 of the job, line 1 of its assembly: BadToken
    lw a0, [sp]
           ^
expected: names, numbers up to 4294967295, strings that end on their line, and the marks , : ( ) + -
hint: an address is written as offset(register), as in 8(sp)
",
    },
    Refused {
        job: b"li a0, 5 == 5",
        why: b"\
line 1 of the job, line 1 of its assembly: BadToken
    li a0, 5 == 5
             ^
expected: names, numbers up to 4294967295, strings that end on their line, and the marks , : ( ) + -
",
    },
    Refused {
        job: b"  cache.line=16 # bytes\nebreak\n",
        why: b"\
line 1 of the job, line 1 of its assembly: BadToken
      cache.line=16 # bytes
                ^
expected: names, numbers up to 4294967295, strings that end on their line, and the marks , : ( ) + -
is a line %% missing?
",
    },
    Refused {
        job: b"# a machine\n\t[ cache ]\nsets = 4\nebreak\n",
        why: b"\
line 2 of the job, line 2 of its assembly: BadToken
     [ cache ]
     ^
expected: names, numbers up to 4294967295, strings that end on their line, and the marks , : ( ) + -
is a line %% missing?
line 3 of the job, line 3 of its assembly: BadToken
",
    },
    Refused {
        job: b"[[arrival]]\n",
        why: b"\
line 1 of the job, line 1 of its assembly: BadToken
    [[arrival]]
    ^
expected: names, numbers up to 4294967295, strings that end on their line, and the marks , : ( ) + -
is a line %% missing?
",
    },
    Refused {
        job: b" %%\nebreak\n",
        why: b"\
line 1 of the job, line 1 of its assembly: BadToken
     %%
     ^
expected: names, numbers up to 4294967295, strings that end on their line, and the marks , : ( ) + -
hint: a line %% has nothing but these two bytes
",
    },
    Refused {
        job: b"%%# a program\nebreak\n",
        why: b"\
line 1 of the job, line 1 of its assembly: BadToken
    %%# a program
    ^
expected: names, numbers up to 4294967295, strings that end on their line, and the marks , : ( ) + -
hint: a line %% has nothing but these two bytes
",
    },
    Refused {
        job: b" % %\nebreak\n",
        why: b"\
line 1 of the job, line 1 of its assembly: BadToken
     % %
     ^
expected: names, numbers up to 4294967295, strings that end on their line, and the marks , : ( ) + -
is a line %% missing?
",
    },
];

// Jobs that are refused by a line of their assembly that looks like one of another part, or that was to be a separator.
static LATER_LINES: [Refused; 8] = [
    Refused {
        job: b"rob = 8\n%%\n[[arrival]]\ncycle = 5\nline = \"timer\"\nebreak\n",
        why: b"\
line 3 of the job, line 1 of its assembly: BadToken
    [[arrival]]
    ^
expected: names, numbers up to 4294967295, strings that end on their line, and the marks , : ( ) + -
hint: arrivals are the second of three parts, with a line %% after them
line 4 of the job, line 2 of its assembly: BadToken
line 5 of the job, line 3 of its assembly: BadToken
",
    },
    Refused {
        job: b"%%\n# one\n [ arrival ]\nebreak\n",
        why: b"\
line 3 of the job, line 2 of its assembly: BadToken
     [ arrival ]
     ^
expected: names, numbers up to 4294967295, strings that end on their line, and the marks , : ( ) + -
hint: arrivals are the second of three parts, with a line %% after them
",
    },
    Refused {
        job: b"%%\n[[arrivals]]\nebreak\n",
        why: b"\
line 2 of the job, line 1 of its assembly: BadToken
    [[arrivals]]
    ^
expected: names, numbers up to 4294967295, strings that end on their line, and the marks , : ( ) + -
",
    },
    Refused {
        job: b"rob = 8\n%%\n%%%\nebreak\n",
        why: b"\
line 3 of the job, line 1 of its assembly: BadToken
    %%%
    ^
expected: names, numbers up to 4294967295, strings that end on their line, and the marks , : ( ) + -
hint: a line %% has nothing but these two bytes
",
    },
    Refused {
        job: b"%%\n%%\n%%\nebreak\n",
        why: b"\
line 3 of the job, line 1 of its assembly: BadToken
    %%
    ^
expected: names, numbers up to 4294967295, strings that end on their line, and the marks , : ( ) + -
hint: at most two lines %% stand in a job, between its description, its arrivals and its assembly
",
    },
    Refused {
        job: b"# a machine\nrob = 8\n%% \nnop\n%%%\nebreak\n",
        why: b"\
line 2 of the job, line 2 of its assembly: BadToken
    rob = 8
        ^
expected: names, numbers up to 4294967295, strings that end on their line, and the marks , : ( ) + -
is a line %% missing?
line 3 of the job, line 3 of its assembly: BadToken
line 5 of the job, line 5 of its assembly: BadToken
hint: a line %% has nothing but these two bytes: see line 3 of the job, line 3 of its assembly
",
    },
    Refused {
        job: b"rob = 8\n%%\n[[arrival]]\nnop\n\t%%\nebreak\n",
        why: b"\
line 3 of the job, line 1 of its assembly: BadToken
    [[arrival]]
    ^
expected: names, numbers up to 4294967295, strings that end on their line, and the marks , : ( ) + -
hint: arrivals are the second of three parts, with a line %% after them
line 5 of the job, line 3 of its assembly: BadToken
hint: a line %% has nothing but these two bytes: see line 5 of the job, line 3 of its assembly
",
    },
    Refused {
        job: b"%%\r\n%%\r\n%%\r\nebreak\r\n",
        why: b"\
line 3 of the job, line 1 of its assembly: BadToken
    %%
    ^
expected: names, numbers up to 4294967295, strings that end on their line, and the marks , : ( ) + -
hint: at most two lines %% stand in a job, between its description, its arrivals and its assembly
",
    },
];

#[test]
fn a_separator_is_asked_for_where_a_line_looks_like_one_of_a_description(
    rt: HostRuntime,
) -> Result<(), Fail> {
    check_whole(&rt, rt.alloc(), &FIRST_LINES)
}

#[test]
fn a_line_of_another_part_is_told_where_the_assembly_has_it(rt: HostRuntime) -> Result<(), Fail> {
    check_whole(&rt, rt.alloc(), &LATER_LINES)
}
