use crate::checks::check_true;
use rv_isa::{Arrival, Arrivals, Line};
use std::alloc::Global;
use std::process::Abort;

// The arrivals of a list of cycles, lines and levels, if it is legal.
fn arrivals_of(rt: &impl Abort, alloc: Global, items: &[(u64, Line, bool)]) -> Option<Arrivals> {
    let mut list = Vec::new(alloc);
    for (cycle, line, level) in items {
        let arrival = Arrival {
            cycle: *cycle,
            line: *line,
            level: *level,
        };
        list.push(arrival).expect(rt, "room for an arrival");
    }
    Arrivals::new(list)
}

#[test]
fn the_last_arrival_of_a_cycle_counts(rt: HostRuntime) {
    const ITEMS: [(u64, Line, bool); 4] = [
        (3, Line::Timer, true),
        (5, Line::External, true),
        (5, Line::External, false),
        (5, Line::Software, true),
    ];
    let arrivals = arrivals_of(&rt, rt.alloc(), &ITEMS).expect(&rt, "these arrivals are legal");
    check_true(
        &rt,
        !arrivals.at(2).timer && arrivals.at(3).timer && arrivals.at(9).timer,
    );
    check_true(&rt, !arrivals.at(5).external && arrivals.at(5).software);
}

#[test]
fn a_falling_or_late_cycle_is_refused(rt: HostRuntime) {
    const FALLING: [(u64, Line, bool); 2] = [(5, Line::Timer, true), (4, Line::Timer, true)];
    const LATE: [(u64, Line, bool); 1] = [(1_000_001, Line::Timer, true)];
    check_true(&rt, arrivals_of(&rt, rt.alloc(), &FALLING).is_none());
    check_true(&rt, arrivals_of(&rt, rt.alloc(), &LATE).is_none());
}
