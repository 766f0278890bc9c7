use crate::json::expect_text;
use rv_states::write_word;
use rv_text::Sink;

#[test]
fn a_word_of_memory_has_its_address_and_is_stale_or_not(rt: HostRuntime) {
    let mut text = Vec::new(rt.alloc());
    write_word(&mut Sink::new(&mut text), 20, 21, true);
    expect_text(&rt, &text, b"{\"memory\":20,\"word\":21,\"stale\":true}\n");
    let mut text = Vec::new(rt.alloc());
    write_word(&mut Sink::new(&mut text), 4294967292, 4294967295, false);
    expect_text(
        &rt,
        &text,
        b"{\"memory\":4294967292,\"word\":4294967295,\"stale\":false}\n",
    );
}
