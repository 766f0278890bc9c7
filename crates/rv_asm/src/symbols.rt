ghost use Rattle.std.specs.Prelude.{◌≡◌, ◌≤◌, ◌∷◌, [], None, OnOk, IfOk, IfSome, drop, length};
ghost use Rattle.std.specs.List.{list_any};
ghost use Rattle.std.specs.Option.{option_map_or};
ghost use Rattle.rv_asm.specs.Answer.{RefusedBy};
ghost use Rattle.rv_asm.specs.Faults.{label_fault, redefines};
ghost use Rattle.rv_asm.specs.Layout.{defined, labelled, labels_of, body_of, number_of};
ghost use Rattle.rv_asm.specs.Placed.{is_start};
ghost use Rattle.rv_asm.specs.Read.{tokens_in};
ghost use Rattle.rv_asm.specs.Symbols.{found};

use crate::fault::AsmFault;
use crate::operation::Section;
use crate::token::Token;
use std::alloc::{AllocError, Global};
use std::collections::BTreeMap;

/// The name of the symbol where execution starts.
pub const START: &[u8] = b"_start";

/// Whether a name is `_start`.
pub fn is_start(name: &[u8]) -> bool
    ensures { result ≡ is_start name.now }
{
    name == START
}

/// What a symbol stands for.
#[derive(Clone, Copy)]
pub enum Definition {
    /// A place: how many bytes stand before it in its section.
    Label(Section, usize),
    /// The number of a `.equ`.
    Constant(i64),
}

/// The symbols of a text.
#[derive(Drop)]
pub struct Symbols<'a> {
    defined: BTreeMap<&'a [u8], Definition>,
}

/// The label that a line begins with: a name before a colon.
fn first_label<'a>(tokens: &[Token<'a>]) -> Option<&'a [u8]>
    ensures labels { labels_of (tokens_in tokens.now)
        ≡ option_map_or (λ name. name.now ∷ labels_of (tokens_in (drop 2 tokens.now))) result [] }
    ensures body { body_of (tokens_in tokens.now)
        ≡ option_map_or (λ _. body_of (tokens_in (drop 2 tokens.now))) result (tokens_in tokens.now) }
    ensures in_range { IfSome result (λ _. 2 ≤ length tokens.now) }
{
    match tokens {
        [Token::Name(name), Token::Colon, ..] => Some(name),
        _ => None,
    }
}

/// The tokens after the labels of a line, and whether one of these is `_start`.
pub fn after_labels<'t, 'a>(tokens: &'t [Token<'a>]) -> (&'t [Token<'a>], bool)
    ensures body { tokens_in result.0.now ≡ body_of (tokens_in tokens.entry.now) }
    ensures starts { result.1 ≡ list_any is_start (labels_of (tokens_in tokens.entry.now)) }
{
    let mut rest = tokens;
    let mut starts = false;
    while let Some(name) = first_label(rest) {
        starts |= is_start(name);
        rest = &rest[2..];
    }
    (rest, starts)
}

impl<'a> Symbols<'a> {
    /// No symbols.
    pub fn new(alloc: Global) -> Self
        ensures { found result ≡ (λ _. None) }
    {
        Symbols {
            defined: BTreeMap::new(alloc),
        }
    }

    /// What a name stands for, if it is defined.
    pub fn get(&self, name: &'a [u8]) -> Option<Definition>
        ensures { result ≡ found self.now name.entry.now }
    {
        self.defined.get(name).copied()
    }

    /// Defines a name.
    pub fn define(&mut self, name: &'a [u8], definition: Definition) -> Result<(), AllocError>
        ensures { OnOk result (found self.new ≡ defined (found self.old) name.entry.now definition) }
    {
        self.defined.insert(name, definition)?;
        Ok(())
    }

    /// Defines the labels at the front of a line. The answer is the tokens after them, and whether
    /// one of them is `_start`.
    pub fn define_labels<'t>(
        &mut self,
        tokens: &'t [Token<'a>],
        here: Definition,
    ) -> Result<(&'t [Token<'a>], bool), AsmFault>
        ensures added { IfOk result (λ _. label_fault (found self.old) here
            (labels_of (tokens_in tokens.entry.now)) ≡ None) }
        ensures labels { IfOk result (λ _.
            found self.new ≡ labelled (found self.old) here (labels_of (tokens_in tokens.entry.now))) }
        ensures body { IfOk result (λ after. body_of (tokens_in tokens.entry.now) ≡ tokens_in after.0.now) }
        ensures starts { IfOk result (λ after. after.1 ≡ list_any is_start (labels_of (tokens_in tokens.entry.now))) }
        ensures refused { RefusedBy (label_fault (found self.old) here
            (labels_of (tokens_in tokens.entry.now))) result }
    {
        let mut rest = tokens;
        let mut starts = false;
        while let Some(name) = first_label(rest) {
            if self.get(name).is_some() {
                return Err(AsmFault::DuplicateSymbol);
            }
            self.define(name, here)?;
            starts |= is_start(name);
            rest = &rest[2..];
        }
        Ok((rest, starts))
    }

    /// Whether the name right after `.equ` is defined.
    pub fn redefines(&self, tokens: &[Token<'a>]) -> bool
        ensures { result ≡ redefines (found self.now) (tokens_in tokens.now) }
    {
        match tokens {
            [Token::Name(directive), Token::Name(name), ..] => {
                *directive == b".equ".as_slice() && self.get(name).is_some()
            }
            _ => false,
        }
    }

    /// The number of a `.equ`.
    pub fn constant(&self, name: &'a [u8]) -> Option<i64>
        ensures { result ≡ number_of (found self.now name.entry.now) }
    {
        match self.get(name) {
            Some(Definition::Constant(number)) => Some(number),
            _ => None,
        }
    }
}
