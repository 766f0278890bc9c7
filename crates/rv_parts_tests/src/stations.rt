ghost use Rattle.std.specs.Prelude.{◌≤◌, IsTrue};
ghost use Rattle.rv_stations.specs.Waiting.{IsOperand};

use crate::checks::{check_equal, check_true, check_true_at};
use rv_isa::{Description, Instr, Kind, KindValues, PerKind, Values};
use rv_stations::{Operand, Stations, Verdict, Waiting};
use std::alloc::Global;
use std::process::Abort;

// So many stations for additions, in a box, which a test drops by one call.
fn with_stations(rt: &impl Abort, alloc: Global, stations: u32) -> Box<Stations> {
    let standard = Values::standard();
    let values = Values {
        kinds: PerKind {
            alu: KindValues {
                stations,
                ..standard.kinds.alu
            },
            ..standard.kinds
        },
        ..standard
    };
    let description = Description::new(values).expect(rt, "a legal description");
    let stations = Stations::new(alloc, &description).expect(rt, "stations");
    Box::new(alloc, stations).expect(rt, "a box")
}

fn put(rt: &impl Abort, stations: &mut Stations, seq: u64, first: Operand, second: Operand) {
    check_true(
        rt,
        !stations.is_full(Kind::Alu) && stations.is_youngest(Kind::Alu, seq),
    );
    check_true(rt, is_in_range(first) && is_in_range(second));
    stations.insert(
        Kind::Alu,
        Waiting {
            seq,
            pc: 0,
            instruction: Instr::Fence,
            first,
            second,
        },
    );
}

fn is_in_range(operand: Operand) -> bool
    ensures { IsTrue result → IsOperand operand }
{
    match operand {
        Operand::Value(_) => true,
        Operand::Tag(tag) => tag < 1 << 44,
    }
}

fn issue(rt: &impl Abort, stations: &mut Stations, seq: u64, value: u32) {
    let taken = stations
        .take_oldest_ready(Kind::Alu, 0, |_| Verdict::Goes)
        .expect(rt, "a ready instruction");
    check_true_at(rt, seq, taken.ready.seq == seq);
    check_true_at(rt, seq, taken.ready.first == value);
    check_true_at(rt, seq, taken.ready.second == value);
}

// Puts instructions with numbers from one on into stations, each of which has an operand twice.
fn put_each(rt: &impl Abort, stations: &mut Stations, first: u64, end: u64, operand: Operand) {
    for seq in first..end {
        put(rt, stations, seq, operand, operand);
    }
}

// Checks that no instruction is ready in so many stations.
fn check_none_ready(rt: &impl Abort, stations: &mut Stations, count: u32) {
    let ready = stations.take_oldest_ready(Kind::Alu, 0, |_| Verdict::Goes);
    check_true_at(rt, u64::from(count), ready.is_none());
}

// Checks that each value reaches the instructions that wait for it in so many stations.
fn check_wakes(rt: &impl Abort, stations: &mut Stations, count: u32)
    requires { 1 ≤ count }
{
    let last = u64::from(count) - 1;
    put_each(rt, stations, 0, last, Operand::Tag(100));
    put(rt, stations, last, Operand::Tag(200), Operand::Tag(200));
    check_true_at(rt, u64::from(count), stations.is_full(Kind::Alu));
    stations.wake(300, 3);
    check_none_ready(rt, stations, count);
    stations.wake(200, 2);
    issue(rt, stations, last, 2);
    check_none_ready(rt, stations, count);
    stations.wake(100, 1);
    for seq in 0..last {
        issue(rt, stations, seq, 1);
    }
    check_none_ready(rt, stations, count);
}

// In lanes of eight, with and without a rest.
#[test]
fn wake_reaches_all_none_or_the_last(rt: HostRuntime) {
    for count in [1, 7, 8, 9, 63, 64] {
        let mut stations = with_stations(&rt, rt.alloc(), count);
        check_wakes(&rt, &mut stations, count);
    }
}

#[test]
fn one_operand_of_two_is_not_enough(rt: HostRuntime) {
    let mut stations = with_stations(&rt, rt.alloc(), 4);
    put(&rt, &mut stations, 5, Operand::Tag(3), Operand::Tag(4));
    put(&rt, &mut stations, 6, Operand::Value(9), Operand::Value(9));
    stations.wake(3, 7);
    issue(&rt, &mut stations, 6, 9);
    stations.wake(4, 7);
    issue(&rt, &mut stations, 5, 7);
}

// The number of the oldest ready instruction but one, which is taken out.
fn take_but(stations: &mut Stations, seq: u64) -> Option<u64> {
    match stations.take_oldest_ready(
        Kind::Alu,
        0,
        |waiting| if waiting.seq == seq {
            Verdict::Waits
        } else {
            Verdict::Goes
        },
    ) {
        Some(taken) => Some(taken.ready.seq),
        None => None,
    }
}

// A search that passes by so many takes out the instruction with a number, and the next one may pass by so many.
fn take_after(rt: &impl Abort, stations: &mut Stations, passed: usize, seq: u64, still: usize) {
    let taken = stations
        .take_oldest_ready(Kind::Alu, passed, |_| Verdict::Goes)
        .expect(rt, "a ready instruction");
    check_true_at(rt, seq, taken.ready.seq == seq);
    check_true_at(rt, seq, taken.passed == still);
}

#[test]
fn a_search_begins_where_the_one_before_it_ended(rt: HostRuntime) {
    let mut stations = with_stations(&rt, rt.alloc(), 8);
    put_each(&rt, &mut stations, 3, 5, Operand::Tag(1));
    put_each(&rt, &mut stations, 5, 7, Operand::Value(1));
    put(&rt, &mut stations, 7, Operand::Tag(1), Operand::Value(1));
    put(&rt, &mut stations, 8, Operand::Value(1), Operand::Value(1));
    take_after(&rt, &mut stations, 0, 5, 2);
    take_after(&rt, &mut stations, 2, 6, 2);
    take_after(&rt, &mut stations, 2, 8, 3);
    let none = stations.take_oldest_ready(Kind::Alu, 3, |_| Verdict::Goes);
    check_true(&rt, none.is_none());
}

#[test]
fn the_filter_passes_by_older_instructions(rt: HostRuntime) {
    let mut stations = with_stations(&rt, rt.alloc(), 4);
    put_each(&rt, &mut stations, 5, 8, Operand::Value(1));
    check_equal(&rt, take_but(&mut stations, 5), Some(6));
    issue(&rt, &mut stations, 5, 1);
    issue(&rt, &mut stations, 7, 1);
}

#[test]
fn squashed_numbers_come_again(rt: HostRuntime) {
    let mut stations = with_stations(&rt, rt.alloc(), 4);
    put_each(&rt, &mut stations, 5, 9, Operand::Value(1));
    stations.squash(6);
    put(&rt, &mut stations, 6, Operand::Value(2), Operand::Value(2));
    issue(&rt, &mut stations, 5, 1);
    issue(&rt, &mut stations, 6, 2);
    check_none_ready(&rt, &mut stations, 4);
}
