ghost use Rattle.std.specs.Prelude.{◌≤◌, length};

use crate::checks::{check_equal, check_equal_at, check_true};
use rv_isa::{Description, StoreAccess, StoreBytes, Values};
use rv_stores::{Store, StorePhase, StoreQueue, StoreState};
use std::alloc::Global;
use std::process::Abort;

// A queue for 64 stores.
fn large_queue(rt: &impl Abort, alloc: Global) -> StoreQueue {
    let mut values = Values::standard();
    values.store_queue = 64;
    let description = Description::new(values).expect(rt, "a legal description");
    StoreQueue::new(alloc, &description).expect(rt, "a queue")
}

// What a store writes from an address on.
fn access(address: u32, bytes: &[u8]) -> StoreAccess
    requires { length bytes.now ≤ 4 }
{
    StoreAccess {
        address,
        bytes: StoreBytes::from_slice(bytes),
    }
}

// Puts a store of some bytes into the queue.
fn put(rt: &impl Abort, queue: &mut StoreQueue, seq: u64, address: u32, bytes: &[u8]) {
    check_true(rt, queue.can_enter(seq) && bytes.len() <= 4);
    queue.enter(seq);
    queue.fill(seq, access(address, bytes));
}

// What a plain list of stores gives for one byte: the last that was put in and covers it.
#[derive(Clone, Copy)]
struct PlainStore {
    seq: u64,
    address: u32,
    width: u32,
    data: u32,
}

fn plain_byte(stores: &[PlainStore], seq: u64, address: u32) -> Option<u8> {
    let mut byte = None;
    for store in stores {
        let offset = address.wrapping_sub(store.address);
        if store.seq < seq && offset < store.width {
            byte = store.data.to_le_bytes().get(offset as usize).copied();
        }
    }
    byte
}

// The store that a random number gives, which begins at a multiple of its width.
fn random_store(seq: u64, random: u32) -> PlainStore
    ensures { result.width ≤ 4 }
{
    let width = match (random >> 10) % 3 {
        0 => 1u32,
        1 => 2,
        _ => 4,
    };
    PlainStore {
        seq,
        address: 0x8000_0000 + ((random >> 20) & 7) / width * width,
        width,
        data: random,
    }
}

// Puts a store that faults into the queue.
fn put_fault(rt: &impl Abort, queue: &mut StoreQueue, seq: u64) {
    check_true(rt, queue.can_enter(seq));
    queue.enter(seq);
    queue.fill_fault(seq);
}

// Checks each byte that a load takes of the queue by a plain list of its stores, and that it takes no byte after it.
fn check_overlays(rt: &impl Abort, queue: &StoreQueue, plain: &[PlainStore], load: u64) {
    for address in 0x8000_0000..0x8000_0008 {
        let expected = [plain_byte(plain, load, address), None, None, None];
        check_equal_at(rt, address, queue.overlay(load, address, 1), expected);
    }
}

#[test]
fn mixed_widths_forward_as_a_plain_list_of_stores(rt: HostRuntime) {
    let mut queue = large_queue(&rt, rt.alloc());
    let mut plain = Vec::new(rt.alloc());
    let mut random = 1u32;
    for seq in 0..64u64 {
        random = random.wrapping_mul(1_664_525).wrapping_add(1_013_904_223);
        if seq % 5 == 3 {
            put_fault(&rt, &mut queue, seq);
        } else {
            let store = random_store(seq, random);
            let bytes = store.data.to_le_bytes();
            put(
                &rt,
                &mut queue,
                seq,
                store.address,
                &bytes[..store.width as usize],
            );
            plain.push(store).expect(&rt, "room for a store");
        }
        check_overlays(&rt, &queue, plain.as_slice(), seq);
        check_overlays(&rt, &queue, plain.as_slice(), seq / 2);
        check_overlays(&rt, &queue, plain.as_slice(), seq + 1);
    }
}

#[test]
fn a_load_takes_each_byte_from_the_youngest_older_store(rt: HostRuntime) {
    let mut queue = large_queue(&rt, rt.alloc());
    put(&rt, &mut queue, 3, 0x100, &[0x11, 0x22, 0x33, 0x44]);
    put(&rt, &mut queue, 5, 0x101, &[0x7f]);
    put(&rt, &mut queue, 9, 0x102, &[1, 2]);
    check_equal(
        &rt,
        queue.overlay(9, 0x100, 4),
        [Some(0x11), Some(0x7f), Some(0x33), Some(0x44)],
    );
    check_equal(
        &rt,
        queue.overlay(10, 0x100, 4),
        [Some(0x11), Some(0x7f), Some(1), Some(2)],
    );
    check_equal(
        &rt,
        queue.overlay(10, 0x102, 2),
        [Some(1), Some(2), None, None],
    );
    check_equal(&rt, queue.overlay(3, 0x100, 4), [None; 4]);
}

#[test]
fn a_store_drains_after_its_commit_and_forwards_until_the_drain_ends(rt: HostRuntime) {
    let mut queue = large_queue(&rt, rt.alloc());
    check_true(&rt, queue.is_empty() && queue.can_enter(1));
    queue.enter(1);
    check_true(&rt, queue.first_unknown() == Some(1));
    queue.fill(1, access(0x200, &[0xaa, 0xbb]));
    check_true(&rt, queue.first_unknown().is_none() && !queue.can_drain());
    check_equal(&rt, queue.committed_byte(0x201), None);
    queue.commit_oldest();
    check_true(&rt, queue.can_drain());
    let write = queue.start_drain();
    check_equal(&rt, write.address, 0x200);
    check_equal(&rt, write.bytes.as_slice(), [0xaa, 0xbb].as_slice());
    check_equal(&rt, queue.committed_byte(0x201), Some(0xbb));
    check_true(&rt, !queue.can_drain());
    queue.end_drain();
    check_true(&rt, queue.is_empty());
}

#[test]
fn a_squash_keeps_the_older_stores_and_a_trap_the_committed_ones(rt: HostRuntime) {
    let mut queue = large_queue(&rt, rt.alloc());
    put(&rt, &mut queue, 2, 0x300, &[2]);
    put(&rt, &mut queue, 4, 0x300, &[4]);
    put(&rt, &mut queue, 6, 0x300, &[6]);
    put(&rt, &mut queue, 8, 0x300, &[8]);
    queue.commit_oldest();
    queue.squash(7);
    check_equal(&rt, queue.overlay(9, 0x300, 1), [Some(6), None, None, None]);
    queue.squash_uncommitted();
    check_equal(&rt, queue.overlay(9, 0x300, 1), [Some(2), None, None, None]);
    check_true(&rt, !queue.is_full() && queue.can_enter(4));
}
