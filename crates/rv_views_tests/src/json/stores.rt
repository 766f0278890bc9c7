use crate::json::expect_text;
use crate::machine::described;
use rv_isa::{StoreAccess, StoreBytes, Values, Width};
use rv_states::write_store_queue;
use rv_stores::StoreQueue;
use rv_text::Sink;

const STORES: &[u8] = b",\"store_queue\":[\
{\"sequence\":10,\"state\":\"draining\",\"address\":80,\"bytes\":[1,2,3,4]},\
{\"sequence\":12,\"state\":\"committed\",\"address\":86,\"bytes\":[255,0]},\
{\"sequence\":13,\"state\":\"speculative\",\"address\":89,\"bytes\":[7]},\
{\"sequence\":15,\"state\":\"faulted\"},\
{\"sequence\":16,\"state\":\"waiting\"}]";

fn access(address: u32, width: Width, word: u32) -> StoreAccess {
    StoreAccess {
        address,
        bytes: StoreBytes::of_word(width, word),
    }
}

#[test]
fn a_store_shows_how_far_it_has_come_and_what_it_writes(rt: HostRuntime) {
    let alloc = rt.alloc();
    let mut queue = StoreQueue::new(alloc, &described(&rt, Values::standard())).expect(
        &rt, "a queue",
    );
    for sequence in [10, 12, 13, 15, 16] {
        assert!(&rt; queue.can_enter(sequence));
        queue.enter(sequence);
    }
    queue.fill(10, access(80, Width::Word, 0x0403_0201));
    queue.fill(12, access(86, Width::Half, 0x0500_00ff));
    queue.fill(13, access(89, Width::Byte, 0x0a09_0807));
    queue.fill_fault(15);
    queue.commit_oldest();
    queue.commit_oldest();
    assert!(&rt; queue.can_drain());
    let _access = queue.start_drain();
    let mut text = Vec::new(alloc);
    write_store_queue(&mut Sink::new(&mut text), &queue);
    expect_text(&rt, &text, STORES);
}

#[test]
fn an_empty_queue_is_an_empty_array(rt: HostRuntime) {
    let alloc = rt.alloc();
    let queue = StoreQueue::new(alloc, &described(&rt, Values::standard())).expect(&rt, "a queue");
    let mut text = Vec::new(alloc);
    write_store_queue(&mut Sink::new(&mut text), &queue);
    expect_text(&rt, &text, b",\"store_queue\":[]");
}
