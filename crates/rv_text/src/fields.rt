ghost use Rattle.std.specs.Prelude.{◌++◌, codes};
ghost use Rattle.std.specs.List.{flat_map};
ghost use Rattle.rv_text.specs.Line.{line_of, ratio_text};
ghost use Rattle.rv_text.specs.ReadField.{cell_text, field_line};
ghost use Rattle.rv_text.specs.Said.{Says};

use crate::digits::{hexadecimal, thousandths, three_digits};
use crate::sink::Sink;
use itoa::Buffer;
use std::io::Write;

/// What a line of a report gives after its name, or a cell of a table.
#[derive(Clone, Copy)]
pub enum Value {
    Count(u64),
    Word(u32),
    /// How many of one there are to each of another.
    Ratio { count: u64, each: u64 },
}

/// A line of a report.
#[derive(Clone, Copy)]
pub struct Field<'a> {
    pub name: &'a str,
    pub value: Value,
}

impl<'a, W: Write> Sink<'a, W> {
    #[tactic(auto, unfolding(crate::specs::Line::line_of))]
    fn put_line(&mut self, name: &str, text: &[u8])
        ensures { Says W.contents self.old self.new (line_of name.now text.now) }
    {
        self.put_all(&[name.as_bytes(), b" ", text, b"\n"])
    }

    #[tactic(auto, unfolding(crate::specs::Line::line_of, crate::specs::Line::ratio_text))]
    fn put_ratio(&mut self, name: &str, count: u64, each: u64)
        ensures { Says W.contents self.old self.new (line_of name.now (ratio_text count each)) }
    {
        let name = name.as_bytes();
        if each == 0 {
            return self.put_all(&[name, b" ", b"-", b"\n"]);
        }
        let mut buffer = Buffer::new();
        let whole = buffer.format(count / each).as_bytes();
        let digits = three_digits(thousandths(count, each));
        self.put_all(&[name, b" ", whole, b".", digits.as_slice(), b"\n"])
    }

    fn put_field(&mut self, field: Field<'_>)
        ensures { Says W.contents self.old self.new (field_line field.entry) }
    {
        match field.value {
            Value::Count(count) => {
                let mut buffer = Buffer::new();
                self.put_line(field.name, buffer.format(count).as_bytes())
            }
            Value::Word(word) => self.put_line(field.name, hexadecimal(word).as_slice()),
            Value::Ratio { count, each } => self.put_ratio(field.name, count, each),
        }
    }

    /// Says lines one after the other.
    #[tactic(auto, using(crate::proofs::Saying::saying))]
    pub fn put_fields(&mut self, fields: &[Field<'_>])
        ensures { Says W.contents self.old self.new (flat_map field_line fields.now) }
    {
        for field in fields {
            self.put_field(*field);
        }
    }

    fn put_cell(&mut self, value: Value)
        ensures { Says W.contents self.old self.new (cell_text value) }
    {
        match value {
            Value::Count(count) => {
                let mut buffer = Buffer::new();
                self.put_all(&[buffer.format(count).as_bytes(), b"\t"])
            }
            Value::Word(word) => self.put_all(&[hexadecimal(word).as_slice(), b"\t"]),
            Value::Ratio { count, each } => self.put_ratio_cell(count, each),
        }
    }

    #[tactic(auto, unfolding(crate::specs::Line::ratio_text))]
    fn put_ratio_cell(&mut self, count: u64, each: u64)
        ensures { Says W.contents self.old self.new (ratio_text count each ++ codes "\t") }
    {
        if each == 0 {
            return self.put_all(&[b"-", b"\t"]);
        }
        let mut buffer = Buffer::new();
        let whole = buffer.format(count / each).as_bytes();
        let digits = three_digits(thousandths(count, each));
        self.put_all(&[whole, b".", digits.as_slice(), b"\t"])
    }

    /// Says cells of a table's line, a tab after each one.
    #[tactic(auto, using(crate::proofs::Saying::saying))]
    pub fn put_cells(&mut self, values: &[Value])
        ensures { Says W.contents self.old self.new (flat_map cell_text values.now) }
    {
        for value in values {
            self.put_cell(*value);
        }
    }
}
