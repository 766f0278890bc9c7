//! What texts assemble to, and where they are refused. The words are those that LLVM's assembler
//! gives.

mod encodings;
mod layouts;
mod listings;
mod operands;
mod order;
mod prefixes;
mod programs;
mod ranges;
mod symbols;
mod token;

use rv_asm::{AsmFault, assemble};
use std::alloc::Global;
use std::test::Fail;

const BASE: u32 = 0x8000_0000;

/// Fails with the text where its image has other words.
fn means(alloc: Global, text: &'static str, words: &[u32]) -> Result<(), Fail> {
    let mut expected = Vec::new(alloc);
    for word in words {
        expected.extend_from_slice(&word.to_le_bytes())?;
    }
    let image = assemble(alloc, text.as_bytes(), BASE).ok().ok_or(text)?;
    if image.bytes.as_slice() != expected.as_slice() {
        return Err(text.into());
    }
    Ok(())
}

/// Fails with the first text whose image has other words than those beside it.
fn each_means(alloc: Global, cases: &[(&'static str, &[u32])]) -> Result<(), Fail> {
    for (text, words) in cases {
        means(alloc, text, words)?;
    }
    Ok(())
}

/// Fails with the first text whose image is not the word beside it.
fn each_is_word(alloc: Global, cases: &[(&'static str, u32)]) -> Result<(), Fail> {
    for (text, word) in cases {
        means(alloc, text, &[*word])?;
    }
    Ok(())
}

/// The fault of a text and its line, if it has one.
fn fault(alloc: Global, text: &[u8]) -> Option<(AsmFault, usize)> {
    match assemble(alloc, text, BASE) {
        Ok(_) => None,
        Err(error) => Some((error.fault, error.line)),
    }
}

/// Fails with the text where it does not have this fault in this line.
fn is_refused(
    alloc: Global,
    text: &'static str,
    expected: AsmFault,
    line: usize,
) -> Result<(), Fail> {
    if fault(alloc, text.as_bytes()) != Some((expected, line)) {
        return Err(text.into());
    }
    Ok(())
}

/// Fails with the first text that does not have the fault beside it in its line.
fn each_is_refused(alloc: Global, cases: &[(&'static str, AsmFault, usize)]) -> Result<(), Fail> {
    for (text, expected, line) in cases {
        is_refused(alloc, text, *expected, *line)?;
    }
    Ok(())
}

/// Fails with the first text that does not have this fault in its first line.
fn each_has_fault(alloc: Global, expected: AsmFault, texts: &[&'static str]) -> Result<(), Fail> {
    for text in texts {
        is_refused(alloc, text, expected, 1)?;
    }
    Ok(())
}
