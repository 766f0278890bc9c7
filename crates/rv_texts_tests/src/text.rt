use crate::checks::check_bytes;
use rv_text::{Field, Sink, Value};
use std::alloc::Global;
use std::process::Abort;
use std::test::Fail;

#[test]
fn a_tab_is_shown_as_a_blank_and_other_control_bytes_as_question_marks(
    rt: HostRuntime,
) -> Result<(), Fail> {
    let mut shown = Vec::new(rt.alloc());
    let mut out = Sink::new(&mut shown);
    out.put_plain(b"addi\tx1, x0, 5 # \x1b[1m \xe2\x82\xac ~\x7f\r\x1f");
    drop(out);
    check_bytes(&rt, shown.as_slice(), b"addi x1, x0, 5 # ?[1m ??? ~???");
    Ok(())
}

// 5 / 3 is cut, and what is left of 601 / 200 begins with zeros.
const VALUES: [Value; 6] = [
    Value::Count(18_446_744_073_709_551_615),
    Value::Word(0x0123_4567),
    Value::Word(0x89ab_cdef),
    Value::Ratio { count: 5, each: 3 },
    Value::Ratio {
        count: 601,
        each: 200,
    },
    Value::Ratio { count: 5, each: 0 },
];

// Checks the cells of the values.
fn check_cells(rt: &impl Abort, alloc: Global, expected: &[u8]) -> Result<(), Fail> {
    let mut cells = Vec::new(alloc);
    Sink::new(&mut cells).put_cells(&VALUES);
    check_bytes(rt, cells.as_slice(), expected);
    Ok(())
}

// Checks the lines of the values.
fn check_fields(rt: &impl Abort, alloc: Global, expected: &[u8]) -> Result<(), Fail> {
    let mut lines = Vec::new(alloc);
    let fields = VALUES.map(|value| Field {
        name: "name",
        value,
    });
    Sink::new(&mut lines).put_fields(&fields);
    check_bytes(rt, lines.as_slice(), expected);
    Ok(())
}

#[test]
fn each_value_is_shown_in_a_cell_and_in_a_line(rt: HostRuntime) -> Result<(), Fail> {
    check_cells(
        &rt,
        rt.alloc(),
        b"18446744073709551615\t01234567\t89abcdef\t1.666\t3.005\t-\t",
    )?;
    check_fields(
        &rt,
        rt.alloc(),
        b"name 18446744073709551615\nname 01234567\nname 89abcdef\nname 1.666\nname 3.005\nname -\n",
    )
}
