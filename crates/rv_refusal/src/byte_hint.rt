ghost use Rattle.std.specs.Prelude.{◌≡◌, ◌++◌, IfOk, OnOk};
ghost use Rattle.rv_refusal.specs.ByteHint.{bracket_hint, byte_hint, bytes_hint, describes, equals_hint};
ghost use Rattle.rv_refusal.specs.ByteHint.{foreign_hint, has_order_mark, has_wide_mark, is_bracket, is_mark};
ghost use Rattle.rv_refusal.specs.ByteHint.{is_relocation, mark_hint, moves_to_stack, reads_as_part};
ghost use Rattle.rv_refusal.specs.ByteHint.{sets_register, value_hint};

use crate::caret::token_place;
use crate::foreign_name::stack_hint;
use crate::key_line::is_among;
use crate::key_names::is_described;
use crate::name_on::{begins_with, goes_on_with, key_on, name_after, value_on};
use crate::names::registers;
use crate::text::add_text;
use std::alloc::{AllocError, Global};

fn is_mark(marks: &[u8], byte: u8) -> bool
    ensures { result ≡ is_mark marks.now byte }
{
    marks.contains(&byte)
}

// Whether a per cent sign of a line stands before a name with something in parentheses.
fn is_relocation(line: &[u8], byte: u8) -> bool
    ensures { result ≡ is_relocation line.now byte }
{
    byte == b'%' && is_mark(line, b'(')
}

// Whether a byte is a bracket, and no directive or number with a dot stands on its line.
fn is_bracket(line: &[u8], byte: u8) -> bool
    ensures { result ≡ is_bracket line.now byte }
{
    is_mark(b"[{", byte) && !is_mark(line, b'.')
}

// Whether a line gives a register a value.
fn sets_register(line: &[u8]) -> bool
    ensures { result ≡ sets_register line.now }
{
    match key_on(line) {
        Some(on) => is_among(on.name, registers()),
        None => false,
    }
}

// What to write in place of an equals sign on a line that begins with no name before it.
#[tactic(auto, unfolding(crate::specs::ByteHint::value_hint))]
fn value_hint(line: &[u8]) -> &'static [u8]
    ensures { result.now ≡ value_hint line.now }
{
    if is_mark(line, b',') && !begins_with(b'=', value_on(line)) {
        b"hint: la loads the address of a symbol, and li a number\n"
    } else {
        b""
    }
}

// What to write in place of an equals sign on a line.
#[tactic(auto, unfolding(crate::specs::ByteHint::equals_hint))]
fn equals_hint(line: &[u8]) -> &'static [u8]
    ensures { result.now ≡ equals_hint line.now }
{
    if sets_register(line) {
        return b"hint: an instruction stands first, and what it writes next, as in add a0, a1, a2\n";
    }
    if key_on(line).is_some() || goes_on_with(b'.', line) {
        return b"hint: .equ gives a name its number, as in .equ size, 64\n";
    }
    value_hint(line)
}

// Whether a line begins with an instruction of other machines that moves registers in braces to the stack, or from it.
fn moves_to_stack(line: &[u8]) -> bool
    ensures { result ≡ moves_to_stack line.now }
{
    match name_after(0, b'{', line) {
        Some(on) => is_among(on.name, &[b"push", b"pop", b"PUSH", b"POP"]),
        None => false,
    }
}

// What to write in place of a bracket on a line.
#[tactic(auto, unfolding(crate::specs::ByteHint::bracket_hint))]
fn bracket_hint(line: &[u8]) -> &'static [u8]
    ensures { result.now ≡ bracket_hint line.now }
{
    if moves_to_stack(line) {
        stack_hint()
    } else {
        b"hint: an address is written as offset(register), as in 8(sp)\n"
    }
}

// What to write in place of an operator, a bracket, a quote or a sign of other assemblers on a line.
#[tactic(auto, unfolding(crate::specs::ByteHint::mark_hint))]
fn mark_hint(line: &[u8], byte: u8) -> &'static [u8]
    ensures { result.now ≡ mark_hint line.now byte }
{
    if is_mark(b";/", byte) {
        return b"hint: a comment begins with #, and a line has one statement\n";
    }
    if byte == b'\'' {
        return b"hint: a character is written as its number, as 65 for A, and a string in double quotes\n";
    }
    if is_relocation(line, byte) {
        return b"hint: la loads the address of a symbol, without %hi and %lo\n";
    }
    if byte == b'"' {
        return b"hint: a string ends on its line, and after \\ stands one of n t \\ \" 0\n";
    }
    if is_mark(b"*<>&|^~!", byte) {
        return b"hint: a symbol and a number may be added or subtracted, as in table+4\n";
    }
    if byte == b'=' {
        return equals_hint(line);
    }
    if is_bracket(line, byte) {
        return bracket_hint(line);
    }
    if byte == b'@' {
        return b"hint: a line of .type may be left out, and a comment begins with #\n";
    }
    b""
}

// Whether the byte order mark of UTF-8 begins a line.
#[tactic(auto, unfolding(crate::specs::ByteHint::has_order_mark))]
fn has_order_mark(line: &[u8]) -> bool
    ensures { result ≡ has_order_mark line.now }
{
    match line {
        [first, second, third, ..] => *first == 0xef && *second == 0xbb && *third == 0xbf,
        _ => false,
    }
}

// Whether the byte order mark of UTF-16 begins a line, in either order.
#[tactic(auto, unfolding(crate::specs::ByteHint::has_wide_mark))]
fn has_wide_mark(line: &[u8]) -> bool
    ensures { result ≡ has_wide_mark line.now }
{
    match line {
        [first, second, ..] => *first == 0xff && *second == 0xfe
            || *first == 0xfe && *second == 0xff,
        _ => false,
    }
}

// What to write in place of a byte that is not ASCII.
#[tactic(auto, unfolding(crate::specs::ByteHint::foreign_hint))]
fn foreign_hint(line: &[u8]) -> &'static [u8]
    ensures { result.now ≡ foreign_hint line.now }
{
    if has_order_mark(line) {
        return b"hint: these bytes are a byte order mark: save the text as UTF-8 without one\n";
    }
    if has_wide_mark(line) {
        return b"hint: this text is UTF-16: save it as ASCII, or as UTF-8 without a byte order mark\n";
    }
    b"hint: this byte is not ASCII, as a blank, a quote or a minus of a word processor is none\n"
}

// What to write in place of what begins with a byte of a line and is no token.
#[tactic(auto, unfolding(crate::specs::ByteHint::byte_hint))]
fn byte_hint(line: &[u8], byte: u8) -> &'static [u8]
    ensures { result.now ≡ byte_hint line.now byte }
{
    if byte.is_ascii_digit() {
        return b"hint: a number is decimal, or has 0x or 0b before it, and is at most 4294967295; no name begins with a digit\n";
    }
    if byte > 127 {
        return foreign_hint(line);
    }
    mark_hint(line, byte)
}

// Whether a line gives a key of a description a value.
fn describes(alloc: Global, line: &[u8]) -> Result<bool, AllocError>
    ensures { IfOk result (λ is. is ≡ describes line.now) }
{
    match key_on(line) {
        Some(on) => is_described(alloc, on.name),
        None => Ok(false),
    }
}

// Whether a line reads as a separator or as a heading of a table, or as one of a description where the assembly begins
// on the job's first line.
fn reads_as_part(alloc: Global, before: usize, line: &[u8]) -> Result<bool, AllocError>
    ensures { IfOk result (λ reads. reads ≡ reads_as_part before line.now) }
{
    if goes_on_with(b'%', line) || goes_on_with(b'[', line) {
        return Ok(true);
    }
    if before == 0 {
        return describes(alloc, line);
    }
    Ok(false)
}

/// Appends what to write in place of the first bytes of a line that are no token; nothing where another part of the job
/// may be meant.
#[tactic(auto, unfolding(crate::specs::ByteHint::bytes_hint))]
pub(crate) fn add_bytes_hint(
    alloc: Global,
    out: &mut Vec<u8>,
    before: usize,
    line: &[u8],
) -> Result<(), AllocError>
    ensures { OnOk result (out.new.items ≡ out.old.items ++ bytes_hint before line.now) }
{
    if reads_as_part(alloc, before, line)? {
        return Ok(());
    }
    match line.get(token_place(line, line.len())) {
        Some(byte) => add_text(out, byte_hint(line, *byte)),
        None => Ok(()),
    }
}
