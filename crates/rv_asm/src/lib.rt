//! The assembler: the image of a text, with the lines of its words, or the text's first fault. The tokens of a line and
//! the forms of statements are there too, with what reads them, for those that say why a text was refused.
#![tactic(auto)]

mod assembler;
mod directive;
mod emit;
mod fault;
mod filling;
mod instructions;
mod layout;
mod listing;
mod mnemonic;
mod names;
mod operand;
mod operation;
mod pieces;
mod program;
mod reach;
mod record;
mod sections;
mod shapes;
mod statement;
mod symbols;
mod token;

pub use assembler::assemble;
pub use directive::Directive;
pub use fault::{AsmError, AsmFault};
pub use layout::first_line;
pub use listing::{ListedImage, assemble_listed};
pub use mnemonic::{BareInstruction, form_named};
pub use names::register_named;
pub use operand::{Expression, Operand, read_operand};
pub use operation::{Form, Operation, Place, Section};
pub use pieces::{first_piece, piece_count};
pub use statement::{Statement, read_statement};
pub use symbols::after_labels;
pub use token::{Lexeme, Token, first_lexeme, tokenize};
