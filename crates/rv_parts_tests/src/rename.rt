ghost use Rattle.std.specs.Prelude.{◌≤◌};

use crate::checks::{check_equal, check_true, check_true_at};
use rv_isa::{Description, Reg, Values};
use rv_rename::RenameMap;
use std::alloc::Global;
use std::process::Abort;

// An empty map for so many instructions.
fn empty_map(rt: &impl Abort, alloc: Global, rob: u32) -> RenameMap {
    let values = Values {
        rob,
        ..Values::standard()
    };
    let description = Description::new(values).expect(rt, "a legal description");
    RenameMap::new(alloc, &description).expect(rt, "a map")
}

fn x(rt: &impl Abort, number: u8) -> Reg {
    Reg::new(number).expect(rt, "a register")
}

fn define(rt: &impl Abort, map: &mut RenameMap, reg: Reg, seq: u64) {
    check_true(rt, map.can_define(seq));
    map.define(reg, seq);
}

fn checkpoint(rt: &impl Abort, map: &mut RenameMap, seq: u64) {
    check_true(rt, map.can_checkpoint(seq));
    map.checkpoint(seq);
}

// Three instructions write x1, x2 and x1, and retire.
fn check_round(rt: &impl Abort, map: &mut RenameMap, first: u64)
    requires { first ≤ 12 }
{
    let (x1, x2) = (x(rt, 1), x(rt, 2));
    define(rt, map, x1, first);
    define(rt, map, x2, first + 1);
    define(rt, map, x1, first + 2);
    check_true(rt, map.is_full());
    map.retire(x1, first);
    check_true_at(rt, first, map.lookup(x1) == Some(first + 2));
    check_true_at(rt, first, map.lookup(x2) == Some(first + 1));
    map.retire(x2, first + 1);
    check_true_at(rt, first, map.lookup(x2).is_none());
    map.retire(x1, first + 2);
    check_true_at(rt, first, map.lookup(x1).is_none());
}

#[test]
fn youngest_producer_is_found_while_the_ring_wraps_around(rt: HostRuntime) {
    let mut map = empty_map(&rt, rt.alloc(), 3);
    check_round(&rt, &mut map, 0);
    check_round(&rt, &mut map, 3);
    check_round(&rt, &mut map, 6);
    check_round(&rt, &mut map, 9);
    check_round(&rt, &mut map, 12);
}

#[test]
fn checkpoint_brings_back_what_has_not_retired(rt: HostRuntime) {
    let mut map = empty_map(&rt, rt.alloc(), 8);
    let (x1, x2, x3) = (x(&rt, 1), x(&rt, 2), x(&rt, 3));
    define(&rt, &mut map, x1, 0);
    define(&rt, &mut map, x2, 1);
    checkpoint(&rt, &mut map, 2);
    define(&rt, &mut map, x1, 3);
    checkpoint(&rt, &mut map, 4);
    define(&rt, &mut map, x3, 5);
    map.retire(x1, 0);

    map.restore(4);
    check_equal(&rt, map.lookup(x3), None);
    check_equal(&rt, map.lookup(x1), Some(3));

    define(&rt, &mut map, x3, 5);
    map.restore(2);
    check_equal(&rt, map.lookup(x1), None);
    check_equal(&rt, map.lookup(x2), Some(1));
    check_equal(&rt, map.lookup(x3), None);

    // The numbers after the checkpoint are used again, and the later checkpoint is gone.
    define(&rt, &mut map, x2, 3);
    map.restore(4);
    check_equal(&rt, map.lookup(x2), Some(3));
    map.restore(2);
    check_equal(&rt, map.lookup(x2), Some(1));
    map.drop_checkpoint(2);
    define(&rt, &mut map, x2, 3);
    map.restore(2);
    check_equal(&rt, map.lookup(x2), Some(3));
    map.clear();
    check_equal(&rt, map.lookup(x2), None);
}
