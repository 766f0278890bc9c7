ghost use Rattle.std.specs.Prelude.{◌≡◌, ◌++◌, ◌*◌, ◌^◌, ◌<◌, ◌≤◌, ◌/◌, ◌%◌, codes, decimal, option_copied, take};
ghost use Rattle.std.specs.List.{flat_map};
ghost use Rattle.rv_profile.specs.Text.{columns, ended_cells, filled_cells, last_cells, line_cells};
ghost use Rattle.rv_profile.specs.Text.{mean_cells, path_cell, path_column, place_cells};
ghost use Rattle.rv_profile.specs.Text.{table_head, table_text, wait_cells, waits_cells, word_line};
ghost use Rattle.rv_source.specs.Listing.{line_at};
ghost use Rattle.rv_text.specs.Line.{word_text};
ghost use Rattle.rv_text.specs.Plain.{plain_text};
ghost use Rattle.rv_text.specs.Said.{Says};
ghost use Rattle.rv_text.specs.Written.{IsWritten};

use itoa::Buffer;
use rv_counts::{Wait, WordCounts};
use rv_path::PathAccount;
use rv_source::Listing;
use rv_text::{ReportError, Sink, Value, front, three_digits};
use std::io::Write;

#[tactic(auto, unfolding(crate::specs::Text::columns))]
fn write_columns<W: Write>(out: &mut Sink<'_, W>)
    ensures { Says W.contents out.old out.new columns }
{
    out.put_all(&[
        b"address\tline\tstatement\tfetched\tretired\tsquashed\tdispatch_mean\tdispatch_most\tissue_mean\tissue_most\t",
        b"broadcast_mean\tbroadcast_most\tretire_mean\tretire_most\thits\tmisses\tmispredicted\thead",
    ]);
}

// The name of the column of a path, where one is shown.
#[tactic(auto, unfolding(crate::specs::Text::path_column))]
fn write_path_column<W: Write>(out: &mut Sink<'_, W>, path: Option<&PathAccount>)
    ensures { Says W.contents out.old out.new (path_column (option_copied path.entry)) }
{
    match path {
        Some(_) => out.put(b"\tpath\n"),
        None => out.put(b"\n"),
    }
}

#[tactic(auto, using(rv_text::proofs::Saying::saying), unfolding(crate::specs::Text::table_head))]
fn write_head<W: Write>(out: &mut Sink<'_, W>, path: Option<&PathAccount>)
    ensures { Says W.contents out.old out.new (table_head (option_copied path.entry)) }
{
    write_columns(out);
    write_path_column(out, path);
}

#[tactic(auto, using(rv_text::proofs::Saying::saying))]
fn write_number<W: Write>(out: &mut Sink<'_, W>, number: usize)
    ensures { Says W.contents out.old out.new (decimal number ++ codes "\t") }
{
    out.put_decimal(number as u64);
    out.put(b"\t");
}

// Writes at most 64 bytes of a statement: a line that lays down many words has a row for each.
#[tactic(auto, using(rv_text::proofs::Saying::saying))]
fn write_statement<W: Write>(out: &mut Sink<'_, W>, text: &[u8])
    ensures { Says W.contents out.old out.new (plain_text (take 64 text.now) ++ codes "\t") }
{
    out.put_plain(front(text, 64));
    out.put(b"\t");
}

// Writes the number and the statement of a line.
#[tactic(auto, using(rv_text::proofs::Saying::saying))]
fn write_line<W: Write>(out: &mut Sink<'_, W>, number: usize, text: &[u8])
    ensures { Says W.contents out.old out.new (filled_cells number text.now) }
{
    write_number(out, number);
    write_statement(out, text);
}

#[tactic(auto, unfolding(crate::specs::Text::line_cells))]
fn write_line_cells<W: Write>(out: &mut Sink<'_, W>, listing: &Listing, address: u32)
    ensures { Says W.contents out.old out.new (line_cells (line_at listing.now address)) }
{
    match (listing.number_at(address), listing.text_at(address)) {
        (Some(number), Some(text)) => write_line(out, number, text),
        _ => out.put(b"\t\t"),
    }
}

#[tactic(auto, using(rv_text::proofs::Saying::saying))]
fn write_address<W: Write>(out: &mut Sink<'_, W>, address: u32)
    ensures { Says W.contents out.old out.new (word_text address ++ codes "\t") }
{
    out.put_word(address);
    out.put(b"\t");
}

#[tactic(auto, using(rv_text::proofs::Saying::saying), unfolding(crate::specs::Text::place_cells))]
fn write_place<W: Write>(out: &mut Sink<'_, W>, listing: &Listing, address: u32)
    ensures { Says W.contents out.old out.new (place_cells listing.now address) }
{
    write_address(out, address);
    write_line_cells(out, listing, address);
}

#[tactic(auto, unfolding(crate::specs::Text::wait_cells))]
fn write_wait<W: Write>(out: &mut Sink<'_, W>, wait: &Wait)
    ensures { Says W.contents out.old out.new (wait_cells wait.now) }
{
    let count = wait.count();
    if count == 0 {
        out.put(b"-\t-\t");
    } else {
        write_waited(out, wait.total(), count, wait.most());
    }
}

// Writes the mean of waits, of which there is one at least, and the greatest.
#[tactic(auto, unfolding(rv_text::specs::Line::ratio_text))]
fn write_waited<W: Write>(out: &mut Sink<'_, W>, total: u128, count: u64, most: u64)
    requires some { 0 < count }
    requires few { count < 2 ^ 50 }
    requires within { total ≤ count * 2 ^ 64 }
    ensures { Says W.contents out.old out.new (mean_cells total count most) }
{
    let mut whole_buffer = Buffer::new();
    let whole = whole_buffer.format(total / u128::from(count)).as_bytes();
    let digits = three_digits(thousandths(total, count));
    let mut most_buffer = Buffer::new();
    let most = most_buffer.format(most).as_bytes();
    out.put_all(&[whole, b".", digits.as_slice(), b"\t", most, b"\t"]);
}

// How many thousandths are left of a mean beyond its whole part.
fn thousandths(total: u128, count: u64) -> u32
    requires some { 0 < count }
    requires few { count < 2 ^ 50 }
    requires within { total ≤ count * 2 ^ 64 }
    ensures { result ≡ total * 1000 / count % 1000 }
{
    (total * 1000 / u128::from(count) % 1000) as u32
}

#[tactic(auto, using(rv_text::proofs::Saying::saying), unfolding(crate::specs::Text::waits_cells))]
fn write_waits<W: Write>(out: &mut Sink<'_, W>, word: &WordCounts)
    ensures { Says W.contents out.old out.new (waits_cells word.now) }
{
    write_wait(out, &word.dispatch);
    write_wait(out, &word.issue);
    write_wait(out, &word.broadcast);
    write_wait(out, &word.retirement);
}

#[tactic(auto, unfolding(crate::specs::Text::ended_cells))]
fn write_ended<W: Write>(out: &mut Sink<'_, W>, word: &WordCounts)
    ensures { Says W.contents out.old out.new (ended_cells word.now) }
{
    out.put_cells(&[
        Value::Count(word.fetched),
        Value::Count(word.retired),
        Value::Count(word.squashed),
    ]);
}

#[tactic(auto, using(rv_text::proofs::Saying::saying))]
fn write_path_cycles<W: Write>(out: &mut Sink<'_, W>, cycles: u64)
    ensures { Says W.contents out.old out.new (codes "\t" ++ (decimal cycles ++ codes "\n")) }
{
    out.put(b"\t");
    out.put_decimal(cycles);
    out.put(b"\n");
}

// The cycles of an address on a path, where one is shown.
#[tactic(auto, unfolding(crate::specs::Text::path_cell))]
fn write_path_cell<W: Write>(out: &mut Sink<'_, W>, path: Option<&PathAccount>, address: u32)
    ensures { Says W.contents out.old out.new (path_cell (option_copied path.entry) address) }
{
    match path {
        Some(path) => write_path_cycles(out, path.cycles_at(address)),
        None => out.put(b"\n"),
    }
}

#[tactic(auto, using(rv_text::proofs::Saying::saying), unfolding(crate::specs::Text::last_cells))]
fn write_last<W: Write>(out: &mut Sink<'_, W>, path: Option<&PathAccount>, word: &WordCounts)
    ensures { Says W.contents out.old out.new (last_cells (option_copied path.entry) word.now) }
{
    out.put_cells(&[
        Value::Count(word.hits),
        Value::Count(word.misses),
        Value::Count(word.mispredicted),
    ]);
    out.put_decimal(word.head_cycles);
    write_path_cell(out, path, word.address);
}

#[tactic(auto, using(rv_text::proofs::Saying::saying), unfolding(crate::specs::Text::word_line))]
fn write_word<W: Write>(
    out: &mut Sink<'_, W>,
    listing: &Listing,
    path: Option<&PathAccount>,
    word: &WordCounts,
)
    ensures { Says W.contents out.old out.new (word_line listing.now (option_copied path.entry) word.now) }
{
    write_place(out, listing, word.address);
    write_ended(out, word);
    write_waits(out, word);
    write_last(out, path, word);
}

#[tactic(auto, using(rv_text::proofs::Saying::saying))]
fn write_words<W: Write>(
    out: &mut Sink<'_, W>,
    listing: &Listing,
    path: Option<&PathAccount>,
    words: &[WordCounts],
)
    ensures { Says W.contents out.old out.new (flat_map (word_line listing.now (option_copied path.entry)) words.now) }
{
    for word in words {
        write_word(out, listing, path, word);
    }
}

#[tactic(auto, using(rv_text::proofs::Saying::saying), unfolding(crate::specs::Text::table_text))]
fn write_lines<W: Write>(
    out: &mut Sink<'_, W>,
    listing: &Listing,
    path: Option<&PathAccount>,
    words: &[WordCounts],
)
    ensures { Says W.contents out.old out.new (table_text listing.now (option_copied path.entry) words.now) }
{
    write_head(out, path);
    write_words(out, listing, path, words);
}

/// Writes the table of some counts: a line with the names of the columns, and a line for each address, with a tab between two
/// cells. Where a path is shown, the last one has the cycles of the address on it. Asks for no memory. Fails by `WriteFailed`
/// alone, and what was written is then a beginning of the table.
#[tactic(auto, using(rv_text::proofs::Saying::says_written))]
pub fn write_table<W: Write>(
    writer: &mut W,
    listing: &Listing,
    path: Option<&PathAccount>,
    words: &[WordCounts],
) -> Result<(), ReportError>
    ensures { IsWritten result (W.contents writer.old) (W.contents writer.new)
        (table_text listing.now (option_copied path.entry) words.now) }
{
    let mut out = Sink::new(writer);
    write_lines(&mut out, listing, path, words);
    out.outcome()
}
