use crate::json::expect_text;
use crate::machine::listing;
use rv_isa::Values;
use rv_source::{Listing, SourceLine};
use rv_states::write_listing;
use rv_text::Sink;
use std::alloc::Global;
use std::process::Abort;

// The values of a RAM of three words.
fn three_words() -> Values {
    let mut values = Values::standard();
    values.ram_size = 12;
    values
}

const LINES: &[u8] = b"{\"address\":2147483648,\"line\":7,\"text\":\"lui x1,1\"}\n\
{\"address\":2147483656,\"line\":5,\"text\":\"ecall\"}\n";

// Adds a line of so many words.
fn push(
    rt: &impl Abort,
    alloc: Global,
    listing: &mut Listing,
    number: usize,
    text: &str,
    words: usize,
) {
    let line = text.as_bytes().to_vec(alloc).expect(rt, "a line");
    listing
        .push_line(SourceLine::new(number, line), words)
        .expect(rt, "room for a line");
}

#[test]
fn a_word_of_the_program_has_its_address_and_its_line(rt: HostRuntime) {
    let alloc = rt.alloc();
    let mut listing = Listing::new(alloc, 0x8000_0000);
    push(&rt, alloc, &mut listing, 7, "lui x1,1", 1);
    listing.push_gap(1).expect(&rt, "room for a gap");
    push(&rt, alloc, &mut listing, 5, "ecall", 1);
    let mut text = Vec::new(alloc);
    write_listing(&mut Sink::new(&mut text), &listing, &three_words());
    expect_text(&rt, &text, LINES);
}

#[test]
fn a_line_of_two_words_has_its_text_at_the_first_of_them(rt: HostRuntime) {
    let alloc = rt.alloc();
    let mut listing = Listing::new(alloc, 0x8000_0000);
    push(&rt, alloc, &mut listing, 3, "li x1,5000", 2);
    push(&rt, alloc, &mut listing, 4, "li x2,5000", 2);
    let mut text = Vec::new(alloc);
    write_listing(&mut Sink::new(&mut text), &listing, &three_words());
    let expected = b"{\"address\":2147483648,\"line\":3,\"text\":\"li x1,5000\"}\n\
{\"address\":2147483652,\"line\":3}\n\
{\"address\":2147483656,\"line\":4,\"text\":\"li x2,5000\"}\n";
    expect_text(&rt, &text, expected);
}

// What a line of the program is shown as.
static SHOWN: [(&str, &str); 7] = [
    ("</script>", "\\u003c/script\\u003e"),
    ("a&b", "a\\u0026b"),
    ("'\"", "'\\u0022"),
    ("\\n", "\\u005cn"),
    ("\ta", " a"),
    ("\u{1}\u{1f} ~\u{7f}", "?? ~?"),
    // Its code is c3 and a9 in UTF-8, two bytes.
    ("\u{e9}", "??"),
];

// Checks what a line is shown as.
fn check_shown(rt: &impl Abort, alloc: Global, line: &str, shown: &str) {
    let listing = listing(rt, alloc, &[line]);
    let mut text = Vec::new(alloc);
    write_listing(&mut Sink::new(&mut text), &listing, &three_words());
    let expected = format!(in alloc;
        "{{\"address\":2147483648,\"line\":1,\"text\":\"{shown}\"}}\n"
    ).expect(rt, "a text");
    expect_text(rt, &text, expected.as_bytes());
}

#[test]
fn no_line_of_the_program_becomes_markup(rt: HostRuntime) {
    for (line, shown) in &SHOWN {
        check_shown(&rt, rt.alloc(), line, shown);
    }
}
