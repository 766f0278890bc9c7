//! The words of a program as bytes, and instructions as words.

use rv_decode::encode;
use rv_isa::Instr;
use std::alloc::Global;
use std::process::Abort;

/// The bytes of words, the lowest of each word first.
pub(crate) fn bytes_of(rt: &impl Abort, alloc: Global, words: &[u32]) -> Vec<u8> {
    let mut bytes = Vec::new(alloc);
    for word in words {
        bytes
            .extend_from_slice(&word.to_le_bytes())
            .expect(rt, "room for a word");
    }
    bytes
}

/// The word of an instruction. Two instructions are the same where their words are, since `decode` leads back from each.
pub(crate) fn code_of(instruction: Option<Instr>) -> Option<u32> {
    match instruction {
        Some(instruction) => Some(encode(&instruction)),
        None => None,
    }
}
