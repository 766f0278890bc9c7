ghost use Rattle.std.specs.Prelude.{◌≡◌, ◌<◌, ◌≤ℤ◌, ◌^◌, pos, negsuc, IfSome};
ghost use Rattle.rv_asm.specs.Meaning.{evaluate, start_of};
ghost use Rattle.rv_asm.specs.Read.{expression_of};
ghost use Rattle.rv_asm.specs.Symbols.{value_in};

use crate::layout::Layout;
use crate::operand::Expression;
use crate::operation::Section;
use crate::symbols::Definition;

/// A text whose layout and place in memory are known, and so the values of its symbols.
#[derive(Clone, Copy)]
pub struct Program<'l, 'a> {
    pub layout: &'l Layout<'a>,
    /// Where the text section starts.
    pub base: u32,
}

impl<'l, 'a> Program<'l, 'a> {
    /// Where a section starts.
    pub fn start_of(&self, section: Section) -> u128
        ensures start { result ≡ start_of self.now.base self.now.layout.now.reach.text_size section }
        ensures small { result < 2 ^ 66 }
    {
        match section {
            Section::Text => u128::from(self.base),
            Section::Data => u128::from(self.base)
                + (self.layout.reach.text_size as u128 + 15) / 16 * 16,
        }
    }

    /// The value of a symbol.
    pub fn value_of(&self, name: &'a [u8]) -> Option<i128>
        ensures value { result ≡ value_in self.now name.entry.now }
        ensures least { IfSome result (λ v. negsuc (2 ^ 70) ≤ℤ v) }
        ensures greatest { IfSome result (λ v. v ≤ℤ pos (2 ^ 70)) }
    {
        Some(match self.layout.symbols.get(name)? {
            Definition::Label(section, offset) => {
                (self.start_of(section) + offset as u128) as i128
            }
            Definition::Constant(number) => i128::from(number),
        })
    }

    /// The value of an expression.
    pub fn evaluate(&self, value: &Expression<'a>) -> Option<i128>
        ensures value { result ≡ evaluate (value_in self.now) (expression_of value.now) }
        ensures least { IfSome result (λ v. negsuc (2 ^ 71) ≤ℤ v) }
        ensures greatest { IfSome result (λ v. v ≤ℤ pos (2 ^ 71)) }
    {
        match *value {
            Expression::Number(number) => Some(i128::from(number)),
            Expression::Symbol(name) => self.value_of(name),
            Expression::Sum(name, number) => Some(self.value_of(name)? + i128::from(number)),
        }
    }
}
