use rv_describe::ArrivalsError::{NotToml, OutOfRange, UnknownKey, Unsorted, WrongKind};
use rv_describe::{ArrivalsError, Field, read_arrivals};
use rv_isa::{Arrivals, Lines};
use std::alloc::Global;
use std::process::Abort;
use std::test::Fail;

const CYCLE: Option<Field> = Some(Field::Cycle);

const LINE: Option<Field> = Some(Field::Line);

const LEVEL: Option<Field> = Some(Field::Level);

// A wrong type of a field of an entry.
macro_rules! kind {
    ($entry:expr, $field:expr) => {
        WrongKind {
            entry: $entry,
            field: $field,
        }
    };
}

// A value of a field of an entry that is not allowed.
macro_rules! range {
    ($entry:expr, $field:expr) => {
        OutOfRange {
            entry: $entry,
            field: $field,
        }
    };
}

// The fault of a text, if it has one.
fn fault_of(alloc: Global, text: &str) -> Option<ArrivalsError> {
    match read_arrivals(alloc, text.as_bytes()) {
        Ok(_) => None,
        Err(error) => Some(error),
    }
}

// Tests that a text has this fault.
fn expect_fault(rt: &impl Abort, alloc: Global, text: &str, fault: ArrivalsError) {
    assert_eq!(rt; fault_of(alloc, text), Some(fault), "{text}");
}

// Tests that each text has the fault beside it.
fn expect_faults(rt: &impl Abort, alloc: Global, cases: &[(&str, ArrivalsError)]) {
    for (text, fault) in cases {
        expect_fault(rt, alloc, text, *fault);
    }
}

// Tests that a list has this fault whose second entry has these fields.
fn expect_second_fault(
    rt: &impl Abort,
    alloc: Global,
    fields: &str,
    fault: ArrivalsError,
) -> Result<(), Fail> {
    let text = format!(in alloc; "arrival = [{{cycle=1,line='timer'}}, {{{fields}}}]")?;
    expect_fault(rt, alloc, text.as_str(), fault);
    Ok(())
}

#[test]
fn the_first_fault_is_named(rt: HostRuntime) {
    const FALLING: &str =
        "[[arrival]]\ncycle = 5\nline = 'timer'\n[[arrival]]\ncycle = 4\nline = 'timer'";
    static CASES: [(&str, ArrivalsError); 8] = [
        (FALLING, Unsorted { entry: 2 }),
        ("[[arrival]]", kind!(1, CYCLE)),
        ("arrival = 3", kind!(1, None)),
        ("arrival = [3]", kind!(1, CYCLE)),
        ("[arrival]\nlevel = 1", kind!(1, None)),
        ("arrivals = []", UnknownKey),
        ("arrival = 3\nrob = 16", UnknownKey),
        ("arrival", NotToml),
    ];
    expect_faults(&rt, rt.alloc(), &CASES);
}

#[test]
fn a_fault_of_the_second_entry(rt: HostRuntime) -> Result<(), Fail> {
    static CASES: [(&str, ArrivalsError); 13] = [
        ("cycle = 1, line = 'timer', levels = 1", UnknownKey),
        ("line = 'timer'", kind!(2, CYCLE)),
        ("cycle = 1", kind!(2, LINE)),
        ("cycle = '1', line = 'timer'", kind!(2, CYCLE)),
        ("cycle = 1.0, line = 'timer'", kind!(2, CYCLE)),
        ("cycle = 1, line = 7", kind!(2, LINE)),
        ("cycle = 1, line = 'timer', level = true", kind!(2, LEVEL)),
        ("cycle = 1, line = 'timer', level = 2", range!(2, LEVEL)),
        ("cycle = 1, line = 'timer', level = -1", range!(2, LEVEL)),
        ("cycle = 1, line = 'x'", range!(2, LINE)),
        ("cycle = -1, line = 'timer'", range!(2, CYCLE)),
        ("cycle = 1000001, line = 'timer'", range!(2, CYCLE)),
        ("cycle = 0, line = 'timer'", Unsorted { entry: 2 }),
    ];
    for (fields, fault) in &CASES {
        expect_second_fault(&rt, rt.alloc(), fields, *fault)?;
    }
    Ok(())
}

#[test]
fn lower_faults_of_later_entries_come_first(rt: HostRuntime) {
    const FIELD: &str = "arrival = [{cycle='1'}, {cycle=2,line='timer',x=1}]";
    const KIND: &str = "arrival = [{cycle=9,line='x'}, 7]";
    const RANGE: &str =
        "arrival = [{cycle=9,line='timer'}, {cycle=8,line='timer'}, {cycle=9,line='x'}]";
    static CASES: [(&str, ArrivalsError); 3] = [
        (FIELD, UnknownKey),
        (KIND, kind!(2, CYCLE)),
        (RANGE, range!(3, LINE)),
    ];
    expect_faults(&rt, rt.alloc(), &CASES);
}

#[test]
fn the_first_field_with_the_fault_is_named(rt: HostRuntime) {
    static CASES: [(&str, ArrivalsError); 3] = [
        (
            "arrival = [{cycle=1000001,line=3,level=true}]",
            kind!(1, LINE),
        ),
        ("arrival = [{cycle=1,line='x',level=2}]", range!(1, LINE)),
        ("arrival = [{cycle=1000001,line='x'}]", range!(1, CYCLE)),
    ];
    expect_faults(&rt, rt.alloc(), &CASES);
}

// A list of an entry so many times between a first text and a last one.
pub(crate) fn long_list(
    alloc: Global,
    first: &str,
    entry: &str,
    count: usize,
    last: &str,
) -> Result<String, Fail> {
    let mut text = String::new(alloc);
    text.push_str("arrival = [")?;
    text.push_str(first)?;
    for _ in 0..count {
        text.push_str(entry)?;
    }
    text.push_str(last)?;
    text.push_str("]")?;
    Ok(text)
}

// Tests the fault, if any, of a list of a hundred thousand times an entry between a first text and a last one.
fn expect_of_list(
    rt: &impl Abort,
    alloc: Global,
    first: &str,
    entry: &str,
    last: &str,
    fault: Option<ArrivalsError>,
) -> Result<(), Fail> {
    let text = long_list(alloc, first, entry, 100_000, last)?;
    assert_eq!(rt; fault_of(alloc, text.as_str()), fault);
    Ok(())
}

pub(crate) const ENTRY: &str = "{cycle=7,line='timer'},";

// An entry more than there may be.
const TOO_MANY: Option<ArrivalsError> = Some(range!(100_001, None));

#[test]
fn a_list_may_have_a_hundred_thousand_entries(rt: HostRuntime) -> Result<(), Fail> {
    expect_of_list(&rt, rt.alloc(), "", ENTRY, "", None)
}

// The fault names the entry after the last one that there may be. Before it comes neither a falling cycle nor a value after that entry.
#[test]
fn a_list_has_at_most_a_hundred_thousand_entries(rt: HostRuntime) -> Result<(), Fail> {
    let first = "{cycle=8,line='timer'},";
    let last = "{cycle=7,line='x'}";
    expect_of_list(&rt, rt.alloc(), first, ENTRY, last, TOO_MANY)
}

#[test]
fn a_legal_entry_too_many_is_out_of_range(rt: HostRuntime) -> Result<(), Fail> {
    let last = "{cycle=7,line='timer'}";
    expect_of_list(&rt, rt.alloc(), "", ENTRY, last, TOO_MANY)
}

#[test]
fn a_wrong_type_of_an_entry_too_many_comes_first(rt: HostRuntime) -> Result<(), Fail> {
    const FAULT: ArrivalsError = kind!(100_001, CYCLE);
    let entry = "{cycle=7,line=''},";
    expect_of_list(&rt, rt.alloc(), "", entry, "7", Some(FAULT))
}

#[test]
fn an_unknown_field_of_an_entry_too_many_comes_first(rt: HostRuntime) -> Result<(), Fail> {
    expect_of_list(&rt, rt.alloc(), "", "7,", "{x=1}", Some(UnknownKey))
}

// Tests the entry and the field of a fault.
fn expect_place(rt: &impl Abort, fault: ArrivalsError, entry: usize, field: Option<Field>) {
    assert_eq!(rt; fault.entry(), entry);
    assert_eq!(rt; fault.field(), field);
}

#[test]
fn the_entry_and_the_field_of_a_fault(rt: HostRuntime) {
    const FAULTS: [(ArrivalsError, usize, Option<Field>); 6] = [
        (kind!(2, LEVEL), 2, LEVEL),
        (kind!(1, None), 1, None),
        (range!(100_001, None), 100_001, None),
        (Unsorted { entry: 3 }, 3, CYCLE),
        (NotToml, 0, None),
        (UnknownKey, 0, None),
    ];
    for (fault, entry, field) in &FAULTS {
        expect_place(&rt, *fault, *entry, *field);
    }
}

#[test]
fn bytes_that_are_no_text_are_not_toml(rt: HostRuntime) {
    let fault = read_arrivals(rt.alloc(), b"# \xff").err();
    assert!(&rt; fault == Some(NotToml));
}

// Tests the levels of the lines in a cycle.
fn expect_lines(rt: &impl Abort, arrivals: &Arrivals, cycle: u64, expected: Lines) {
    assert!(rt; arrivals.at(cycle) == expected, "{cycle}");
}

#[test]
fn an_empty_text_lists_nothing(rt: HostRuntime) -> Result<(), Fail> {
    let arrivals = read_arrivals(rt.alloc(), b"")?;
    expect_lines(&rt, &arrivals, 1_000_000, Lines::default());
    Ok(())
}

fn lines(software: bool, timer: bool, external: bool) -> Lines {
    Lines {
        software,
        timer,
        external,
    }
}

#[test]
fn a_level_is_high_where_it_is_missing(rt: HostRuntime) -> Result<(), Fail> {
    // A cycle, and whether the lines of the software, of the timer and the external one are high.
    const ROWS: [(u64, bool, bool, bool); 5] = [
        (0, false, false, true),
        (2, false, false, true),
        (3, false, true, false),
        (999_999, false, true, false),
        (1_000_000, true, true, false),
    ];
    let text = "arrival = [{cycle=0, line=\"external\"}, {cycle=3, line=\"timer\"},
        {cycle=3, line=\"external\", level=0}, {cycle=1000000, line=\"software\", level=1}]";
    let arrivals = read_arrivals(rt.alloc(), text.as_bytes())?;
    for (cycle, software, timer, external) in &ROWS {
        let expected = lines(*software, *timer, *external);
        expect_lines(&rt, &arrivals, *cycle, expected);
    }
    Ok(())
}
