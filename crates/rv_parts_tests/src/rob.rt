ghost use Rattle.std.specs.Prelude.{◌<◌};

use crate::checks::{check_equal, check_equal_at, check_true};
use rv_decode::Decoded;
use rv_isa::{Cause, Description, Fault, Issue, Message, Values};
use rv_rob::{Entry, Rob, Stage};
use std::alloc::Global;
use std::process::Abort;

// An empty buffer for so many entries.
fn empty_rob(rt: &impl Abort, alloc: Global, rob: u32) -> Rob {
    let values = Values {
        rob,
        ..Values::standard()
    };
    let description = Description::new(values).expect(rt, "a legal description");
    Rob::new(alloc, &description).expect(rt, "a buffer")
}

fn waiting(pc: u32) -> Entry {
    Entry {
        pc,
        word: Some(0x0050_0093),
        instruction: Decoded::none(),
        predicted_next: pc.wrapping_add(4),
        fetched: 0,
        dispatched: 1,
        stage: Stage::Waiting,
    }
}

fn issue() -> Issue {
    Issue { cycle: 2, cost: 1 }
}

fn message() -> Message {
    Message {
        fault: Some(Fault {
            cause: Cause::LoadAccessFault,
            value: 5,
        }),
        ..Message::default()
    }
}

fn push(rt: &impl Abort, rob: &mut Rob, pc: u32) -> u64 {
    check_true(rt, !rob.is_full() && rob.next_number() < 1 << 44);
    rob.push(waiting(pc))
}

// The pc of an entry, if there is one.
fn pc_of(entry: Option<&Entry>) -> Option<u32> {
    match entry {
        Some(entry) => Some(entry.pc),
        None => None,
    }
}

// Two entries come and retire, of which the numbers follow those of the rounds before.
fn check_round(rt: &impl Abort, rob: &mut Rob, round: u32)
    requires { round < 5 }
{
    let (first_pc, second_pc) = (8 * round, 8 * round + 4);
    let oldest = u64::from(2 * round);
    let youngest = oldest + 1;
    check_equal_at(rt, round, push(rt, rob, first_pc), oldest);
    check_equal_at(rt, round, push(rt, rob, second_pc), youngest);
    check_equal_at(rt, round, rob.retired(), oldest);
    check_equal_at(rt, round, pc_of(rob.get(youngest)), Some(second_pc));
    check_equal_at(rt, round, pc_of(rob.get(youngest + 1)), None);
    check_equal_at(rt, round, pc_of(rob.head()), Some(first_pc));
    check_equal_at(rt, round, pc_of(rob.youngest()), Some(second_pc));
    rob.pop_head();
    check_equal_at(rt, round, pc_of(rob.get(oldest)), None);
    check_equal_at(rt, round, pc_of(rob.head()), Some(second_pc));
    rob.pop_head();
    check_true(rt, rob.is_empty());
    rob.pop_head();
}

#[test]
fn numbers_go_on_while_the_ring_wraps_around(rt: HostRuntime) {
    let mut rob = empty_rob(&rt, rt.alloc(), 3);
    check_true(&rt, rob.is_empty());
    for round in 0..5 {
        check_round(&rt, &mut rob, round);
    }
    check_equal(&rt, rob.retired(), 10);
}

#[test]
fn cut_numbers_are_used_again(rt: HostRuntime) {
    let mut rob = empty_rob(&rt, rt.alloc(), 4);
    push(&rt, &mut rob, 0);
    push(&rt, &mut rob, 4);
    push(&rt, &mut rob, 8);
    push(&rt, &mut rob, 12);
    check_true(&rt, rob.is_full());
    rob.pop_head();
    rob.cut(2);
    check_equal(&rt, rob.len(), 1);
    check_equal(&rt, rob.next_number(), 2);
    check_equal(&rt, push(&rt, &mut rob, 100), 2);
    check_equal(&rt, pc_of(rob.get(2)), Some(100));
    rob.cut(0);
    check_equal(&rt, rob.next_number(), 1);
}

// The entry at a pc while it runs.
fn running(pc: u32) -> Entry {
    Entry {
        stage: Stage::Running {
            issue: issue(),
            message: message(),
        },
        ..waiting(pc)
    }
}

// The entry at a pc that finished in cycle 3, and the next pc that it predicts since.
fn finished(pc: u32, predicted_next: u32) -> Entry {
    Entry {
        predicted_next,
        stage: Stage::Finished {
            issue: Some(issue()),
            cycle: 3,
            message: message(),
        },
        ..waiting(pc)
    }
}

// Checks an entry, whose word is no instruction.
fn check_entry(rt: &impl Abort, found: Option<&Entry>, expected: Entry) {
    let found = found.expect(rt, "an entry");
    check_equal(rt, found.pc, expected.pc);
    check_equal(rt, found.word, expected.word);
    check_true(rt, found.instruction.instruction().is_none());
    check_equal(rt, found.predicted_next, expected.predicted_next);
    check_equal(rt, found.fetched, expected.fetched);
    check_equal(rt, found.dispatched, expected.dispatched);
    check_equal(rt, found.stage, expected.stage);
}

#[test]
fn entry_keeps_the_issue_and_the_whole_message(rt: HostRuntime) {
    let mut rob = empty_rob(&rt, rt.alloc(), 2);
    let seq = push(&rt, &mut rob, 0x8000_0000);
    let other = push(&rt, &mut rob, 0x8000_0004);
    rob.start(seq, issue(), message());
    check_entry(&rt, rob.head(), running(0x8000_0000));
    rob.finish(seq, 3);
    rob.correct_prediction(seq, 0x8000_0040);
    rob.finish(9, 3);
    check_entry(&rt, rob.head(), finished(0x8000_0000, 0x8000_0040));
    check_entry(&rt, rob.get(other), waiting(0x8000_0004));
}
