use crate::checks::{check_equal, check_true};
use rv_isa::{CacheValues, Description, KindValues, PerKind, Recovery, Values};

// A kind's values with one station and one unit.
fn single(kind: KindValues) -> KindValues {
    KindValues {
        stations: 1,
        units: 1,
        ..kind
    }
}

// The gap bound of legal values.
fn gap_bound(values: Values) -> Option<u64> {
    match Description::new(values) {
        Some(description) => Some(description.gap_bound()),
        None => None,
    }
}

#[test]
fn the_gap_bound_of_three_machines(rt: HostRuntime) {
    let standard = Values::standard();
    let cache = CacheValues {
        sets: 1,
        ways: 1,
        line: 4,
        ..standard.cache
    };
    let least = Values {
        fetch_width: 1,
        dispatch_width: 1,
        commit_width: 1,
        bus_width: 1,
        fetch_buffer: 1,
        rob: 1,
        store_queue: 1,
        recovery: Recovery::Early,
        kinds: PerKind {
            alu: single(standard.kinds.alu),
            mul: single(standard.kinds.mul),
            div: single(standard.kinds.div),
            mem: single(standard.kinds.mem),
        },
        cache,
        ..standard
    };
    let slow = KindValues {
        latency: 64,
        ..standard.kinds.alu
    };
    let greatest = Values {
        store_queue: 64,
        forward: 64,
        kinds: PerKind {
            alu: slow,
            mul: slow,
            div: slow,
            mem: slow,
        },
        cache: CacheValues {
            sets: 256,
            ways: 16,
            line: 16,
            hit: 16,
            miss: 1000,
            write_back: 1000,
        },
        ..standard
    };
    check_equal(&rt, gap_bound(standard), Some(1056));
    check_equal(&rt, gap_bound(least), Some(289));
    check_equal(&rt, gap_bound(greatest), Some(8_337_424));
}

#[test]
fn a_front_longer_than_ram_is_refused(rt: HostRuntime) {
    let values = Values {
        ram_size: 4096,
        rom_bytes: 8192,
        ..Values::standard()
    };
    check_true(&rt, Description::new(values).is_none());
}

#[test]
fn a_miss_may_cost_no_more_than_a_hit(rt: HostRuntime) {
    let mut values = Values::standard();
    values.cache.miss = 0;
    check_true(&rt, Description::new(values).is_some());
}
