use crate::checks::check_bytes;
use crate::describe::arrivals::{ENTRY, long_list};
use crate::refusal::{Refused, check_whole, shown};
use std::test::Fail;

// Lists of arrivals that are refused by a field of an entry that stands on a line, and why.
static FIELDS: [Refused; 8] = [
    Refused {
        job: b"%%\n\xef\xbb\xbf[[arrival]]\ncycle = 5\nline = \"timer\"\n[[arrival]]\ncycle = 6\nline = \"clock\"\n%%\nebreak\n",
        why: b"\
line 7 of the job, line 6 of its arrivals, entry 2
    line = \"clock\"
    ^
expected: line is \"software\", \"timer\" or \"external\"
",
    },
    Refused {
        job: b"rob = 8\n%%\n[[arrival]]\ncycle = 5\nline = \"timer\"\n\n[[arrival]]\n\tcycle = 1000001\nline = \"timer\"\n%%\nebreak\n",
        why: b"\
line 8 of the job, line 6 of its arrivals, entry 2
     cycle = 1000001
     ^
expected: cycle is a number from 0 to 1000000, no less than that of the entry before
",
    },
    Refused {
        job: b"%%\n[[arrival]]\nline = \"timer\"\ncycle = -1\n%%\nebreak\n",
        why: b"\
line 4 of the job, line 3 of its arrivals, entry 1
    cycle = -1
    ^
expected: cycle is a number from 0 to 1000000, no less than that of the entry before
",
    },
    Refused {
        job: b"%%\n[[arrival]]\ncycle = 7\nline = \"timer\"\n[[arrival]]\ncycle = 7\nline = \"timer\"\nlevel = 0\n[[arrival]]\ncycle = 6\nline = \"external\"\n%%\nebreak\n",
        why: b"\
line 10 of the job, line 9 of its arrivals, entry 3
    cycle = 6
    ^
expected: cycle is a number from 0 to 1000000, no less than that of the entry before
",
    },
    Refused {
        job: b"%%\n[[arrival]]\ncycle = \"5\"\nline = 3\n%%\nebreak\n",
        why: b"\
line 3 of the job, line 2 of its arrivals, entry 1
    cycle = \"5\"
    ^
expected: cycle is a number from 0 to 1000000, no less than that of the entry before
",
    },
    Refused {
        job: b"%%\n[[arrival]]\ncycle = 5\n  line  = \"uart\"\n%%\nebreak\n",
        why: b"\
line 4 of the job, line 3 of its arrivals, entry 1
      line  = \"uart\"
      ^
expected: line is \"software\", \"timer\" or \"external\"
",
    },
    Refused {
        job: b"%%\n[[arrival]]\ncycle = 5\nline = \"timer\"\nlevel = 2\n%%\nebreak\n",
        why: b"\
line 5 of the job, line 4 of its arrivals, entry 1
    level = 2
    ^
expected: level is 0 or 1, by default 1
",
    },
    Refused {
        job: b"%%\r\n[[arrival]]\r\ncycle = 5\r\nline = \"timer\"\r\nlevel = true\r\n%%\r\nebreak\r\n",
        why: b"\
line 5 of the job, line 4 of its arrivals, entry 1
    level = true
    ^
expected: level is 0 or 1, by default 1
",
    },
];

// Lists of arrivals that are refused by a field that is missing or stands on no line of its own, or by the list itself.
static MISSING: [Refused; 9] = [
    Refused {
        job: b"%%\n[[arrival]]\ncycle = 1\nline = \"timer\"\n [[ arrival ]] # the second\nline = \"timer\"\n%%\nebreak\n",
        why: b"\
line 5 of the job, line 4 of its arrivals, entry 2
     [[ arrival ]] # the second
        ^
expected: cycle is a number from 0 to 1000000, no less than that of the entry before
hint: this entry has no key cycle
",
    },
    Refused {
        job: b"%%\n[[arrival]]\ncycle = 1\n[[arrival]]\ncycle = 2\nline = \"timer\"\n%%\nebreak\n",
        why: b"\
line 2 of the job, line 1 of its arrivals, entry 1
    [[arrival]]
      ^
expected: line is \"software\", \"timer\" or \"external\"
hint: this entry has no key line
",
    },
    Refused {
        job: b"%%\narrival = [ { cycle = 1, line = \"timer\" }, { cycle = 2, line = \"timer\", level = 7 } ]\n%%\nebreak\n",
        why: b"\
entry 2 of the arrivals
expected: level is 0 or 1, by default 1
",
    },
    Refused {
        job: b"%%\narrival = [ 3 ]\n%%\nebreak\n",
        why: b"\
entry 1 of the arrivals
expected: cycle is a number from 0 to 1000000, no less than that of the entry before
",
    },
    Refused {
        job: b"%%\narrival = 3\n%%\nebreak\n",
        why: b"\
line 2 of the job, line 1 of its arrivals
    arrival = 3
    ^
expected: the heading of each entry is [[arrival]]
",
    },
    Refused {
        job: b"rob = 8\n%%\n# one\n[arrival]\ncycle = 5\nline = \"timer\"\n%%\nebreak\n",
        why: b"\
line 4 of the job, line 2 of its arrivals, entry 1
    [arrival]
     ^
expected: the heading of each entry is [[arrival]]
",
    },
    Refused {
        job: b"%%\narrival = [ { cycle = 5 ]\n%%\nebreak\n",
        why: b"\
line 2 of the job, line 1 of its arrivals
    arrival = [ { cycle = 5 ]
    ^
expected: TOML, as in '[[arrival]]': a value for each key, strings in quotes, brackets closed, whole numbers up to 9223372036854775807
",
    },
    Refused {
        job: b"%%\n[[arrival]]\ncycle 5\n%%\nebreak\n",
        why: b"\
line 3 of the job, line 2 of its arrivals
    cycle 5
    ^
expected: TOML, as in '[[arrival]]': a value for each key, strings in quotes, brackets closed, whole numbers up to 9223372036854775807
",
    },
    Refused {
        job: b"rob = 8\n%%\n[[arrival]]\ncycle = 5\nline = \"timer\"\n%%%\nnop\n%%\nebreak\n",
        why: b"\
line 6 of the job, line 4 of its arrivals
    %%%
    ^
expected: TOML, as in '[[arrival]]': a value for each key, strings in quotes, brackets closed, whole numbers up to 9223372036854775807
hint: a line %% has nothing but these two bytes
",
    },
];

// Lists of arrivals with names that are not known.
static NAMES: [Refused; 12] = [
    Refused {
        job: b"%%\ncycle=5\n%%\nebreak\n",
        why: b"\
line 2 of the job, line 1 of its arrivals
    cycle=5
    ^
expected: entries [[arrival]], each with cycle, line and level
",
    },
    Refused {
        job: b"%%\nLEVEL = 1\n[[arrival]]\ncycle = 5\n%%\nebreak\n",
        why: b"\
line 2 of the job, line 1 of its arrivals
    LEVEL = 1
    ^
expected: entries [[arrival]], each with cycle, line and level
names are written in small letters: level
",
    },
    Refused {
        job: b"%%\n[[arrival]]\ncycle = 5\narrival = 1\n%%\nebreak\n",
        why: b"\
line 4 of the job, line 3 of its arrivals, entry 1
    arrival = 1
    ^
expected: entries [[arrival]], each with cycle, line and level
",
    },
    Refused {
        job: b"%%\n[arrival]\ncycle = 5\n[arrivel]\ncycle = 6\n%%\nebreak\n",
        why: b"\
line 4 of the job, line 3 of its arrivals, entry 1
    [arrivel]
     ^
expected: entries [[arrival]], each with cycle, line and level
nearest: arrival
",
    },
    Refused {
        job: b"%%\n[[arrival]]\ncycle = 5\n[[cycle]]\nat = 6\n%%\nebreak\n",
        why: b"\
line 4 of the job, line 3 of its arrivals, entry 1
    [[cycle]]
      ^
expected: entries [[arrival]], each with cycle, line and level
",
    },
    Refused {
        job: b"rob = 8\n%%\n[[arrival]]\ncycle = 5\nline = \"timer\"\n[[arrival]]\ncycle = 6\nlevels = 1\n%%\nebreak\n",
        why: b"\
line 8 of the job, line 6 of its arrivals, entry 2
    levels = 1
    ^
expected: entries [[arrival]], each with cycle, line and level
nearest: level
",
    },
    Refused {
        job: b"%%\n[[arrivals]]\ncycle = 5\nline = \"timer\"\n%%\nebreak\n",
        why: b"\
line 2 of the job, line 1 of its arrivals
    [[arrivals]]
      ^
expected: entries [[arrival]], each with cycle, line and level
nearest: arrival
",
    },
    Refused {
        job: b"%%\nat = 5\n[[arrival]]\nwhen = 5\nline = \"timer\"\n%%\nebreak\n",
        why: b"\
line 2 of the job, line 1 of its arrivals
    at = 5
    ^
expected: entries [[arrival]], each with cycle, line and level
",
    },
    Refused {
        job: b"%%\n[[arrival]]\ncycle = \"x\"\nlime = \"timer\"\n%%\nebreak\n",
        why: b"\
line 4 of the job, line 3 of its arrivals, entry 1
    lime = \"timer\"
    ^
expected: entries [[arrival]], each with cycle, line and level
nearest: line
",
    },
    Refused {
        job: b"%%\nrob = 8\n%%\nebreak\n",
        why: b"\
line 2 of the job, line 1 of its arrivals
    rob = 8
    ^
expected: entries [[arrival]], each with cycle, line and level
hint: a description is the first of three parts, with no line %% before it; compare alone reads several
",
    },
    Refused {
        job: b"rob = 8\n%%\n[cache]\nsets = 4\n%%\nebreak\n",
        why: b"\
line 3 of the job, line 1 of its arrivals
    [cache]
     ^
expected: entries [[arrival]], each with cycle, line and level
hint: a description is the first of three parts, with no line %% before it; compare alone reads several
",
    },
    Refused {
        job: b"%%\narrival = [ { cycl = 1 } ]\n%%\nebreak\n",
        why: b"expected: entries [[arrival]], each with cycle, line and level\n",
    },
];

#[test]
fn a_refusal_shows_the_line_of_a_field_of_an_arrival(rt: HostRuntime) -> Result<(), Fail> {
    check_whole(&rt, rt.alloc(), &FIELDS)
}

#[test]
fn a_refusal_shows_the_arrival_that_lacks_a_field(rt: HostRuntime) -> Result<(), Fail> {
    check_whole(&rt, rt.alloc(), &MISSING)
}

#[test]
fn a_refusal_shows_the_line_of_an_unknown_name_of_an_arrival(rt: HostRuntime) -> Result<(), Fail> {
    check_whole(&rt, rt.alloc(), &NAMES)
}

// The list is refused as a whole: no line is shown.
#[test]
fn a_refusal_says_how_many_arrivals_there_may_be(rt: HostRuntime) -> Result<(), Fail> {
    let mut job = String::new(rt.alloc());
    job.push_str("%%\n")?;
    job.push_str(long_list(rt.alloc(), "", ENTRY, 100_001, "")?.as_str())?;
    job.push_str("\n%%\nebreak\n")?;
    let found = shown(rt.alloc(), job.as_bytes())?;
    check_bytes(
        &rt,
        found.as_slice(),
        b"expected: at most 100000 entries [[arrival]]\n",
    );
    Ok(())
}
