ghost use Rattle.std.specs.Prelude.{◌≡◌, Some};
ghost use Rattle.std.specs.List.{flat_map};
ghost use Rattle.rv_sentences.specs.Exception.{counted_text, cycles_text, exceptions_text};
ghost use Rattle.rv_sentences.specs.Exception.{kind_text, kinds_text, others_text, several_text};
ghost use Rattle.rv_sentences.specs.Kinds.{others};
ghost use Rattle.rv_text.specs.Said.{Says};

use crate::exception::Exception;
use crate::exceptions::{cause_name, write_first, write_taken};
use crate::kinds::Exceptions;
use crate::series::Series;
use crate::stack::rest_after;
use itoa::Buffer;
use rv_isa::Cause;
use rv_source::{Listing, write_place};
use rv_text::Sink;
use std::io::Write;

#[tactic(auto, using(rv_text::proofs::Saying::saying), unfolding(crate::specs::Exception::counted_text, crate::specs::Stack::indent))]
fn write_counted<W: Write>(out: &mut Sink<'_, W>, count: u64, text: &[u8])
    ensures { Says W.contents out.old out.new (counted_text count text.now) }
{
    let mut buffer = Buffer::new();
    let digits = buffer.format(count).as_bytes();
    let indent = rest_after(b"       ", digits.len());
    out.put_all(&[indent, digits, text]);
}

#[tactic(auto, using(rv_text::proofs::Saying::saying), unfolding(crate::specs::Exception::cycles_text, crate::specs::Exception::at_text))]
fn write_cycles<W: Write>(out: &mut Sink<'_, W>, first: u64, last: u64, cause: Cause)
    ensures { Says W.contents out.old out.new (cycles_text first last cause) }
{
    let name = cause_name(cause);
    let mut first_buffer = Buffer::new();
    let from = first_buffer.format(first).as_bytes();
    if first == last {
        out.put_all(&[b" in cycle ", from, b": ", name, b", at "]);
        return;
    }
    let mut last_buffer = Buffer::new();
    let to = last_buffer.format(last).as_bytes();
    out.put_all(&[b" in cycles ", from, b" to ", to, b": ", name, b", at "]);
}

#[tactic(auto, using(rv_text::proofs::Saying::saying), unfolding(crate::specs::Exception::kind_text))]
fn write_kind<W: Write>(out: &mut Sink<'_, W>, listing: &Listing, kind: &Series<Exception>)
    ensures { Says W.contents out.old out.new (kind_text listing.now kind.now) }
{
    write_counted(out, kind.count, b"");
    write_cycles(out, kind.first.cycle, kind.last.cycle, kind.first.cause);
    write_place(out, listing, kind.first.pc);
}

#[tactic(auto, using(rv_text::proofs::Saying::saying))]
fn write_kind_lines<W: Write>(out: &mut Sink<'_, W>, listing: &Listing, kinds: &[Series<Exception>])
    ensures { Says W.contents out.old out.new (flat_map (kind_text listing.now) kinds.now) }
{
    for kind in kinds {
        write_kind(out, listing, kind);
    }
}

// So many exceptions but for those of some kinds.
fn others(all: u64, kinds: &[Series<Exception>]) -> u64
    ensures { result ≡ others all kinds.now }
{
    match kinds {
        [] => all,
        [kind, rest @ ..] => others(all.saturating_sub(kind.count), rest),
    }
}

#[tactic(auto, unfolding(crate::specs::Exception::others_text))]
fn write_others<W: Write>(out: &mut Sink<'_, W>, count: u64)
    ensures { Says W.contents out.old out.new (others_text count) }
{
    if count == 0 {
        return;
    }
    write_counted(out, count, b" of other causes or at other places\n");
}

fn write_kinds<W: Write>(
    out: &mut Sink<'_, W>,
    listing: &Listing,
    all: u64,
    kinds: &[Series<Exception>],
)
    ensures { Says W.contents out.old out.new (kinds_text listing.now all kinds.now) }
{
    out.put(b"Exceptions by cause and place:\n");
    write_kind_lines(out, listing, kinds);
    write_others(out, others(all, kinds));
}

#[tactic(auto, unfolding(crate::specs::Exception::several_text))]
fn write_several<W: Write>(
    out: &mut Sink<'_, W>,
    listing: &Listing,
    all: &Series<Exception>,
    kinds: &[Series<Exception>],
)
    ensures { Says W.contents out.old out.new (several_text listing.now all.now kinds.now) }
{
    if all.count == 1 {
        return;
    }
    write_taken(
        out,
        b"The last exception came in cycle ",
        listing,
        &all.last,
    );
    write_kinds(out, listing, all.count, kinds);
}

#[tactic(auto, using(rv_text::proofs::Saying::saying), unfolding(crate::specs::Exception::exceptions_text))]
fn write_all<W: Write>(
    out: &mut Sink<'_, W>,
    listing: &Listing,
    all: &Series<Exception>,
    kinds: &[Series<Exception>],
)
    ensures { Says W.contents out.old out.new (exceptions_text listing.now (Some all.now) kinds.now) }
{
    write_first(out, listing, &all.first);
    write_several(out, listing, all, kinds);
}

/// Writes what the first and the last exception were, where the program went on after them, and how many there were of each
/// cause and place, if there was one.
#[tactic(auto, using(rv_text::proofs::Saying::saying), unfolding(crate::specs::Exception::exceptions_text))]
pub fn write_exceptions<W: Write>(out: &mut Sink<'_, W>, listing: &Listing, exceptions: &Exceptions)
    ensures { Says W.contents out.old out.new (exceptions_text listing.now exceptions.now.all exceptions.now.kinds) }
{
    if let Some(all) = exceptions.all() {
        write_all(out, listing, &all, exceptions.kinds());
    }
}
