ghost use Rattle.std.specs.Prelude.{◌≡◌, ◌%◌, ◌<◌};
ghost use Rattle.rv_arch.specs.Csr.{has_bit, bit, interrupt_bits, interrupts_of, legal_mtvec};
ghost use Rattle.rv_arch.specs.Csr.{legal_mepc, does_write, is_read_only, new_value};

use rv_isa::{CsrOp, Lines};

/// Whether a bit of a word is 1.
pub(crate) fn has_bit(word: u32, place: u32) -> bool
    requires { place < 32 }
    ensures { result ≡ has_bit word place }
{
    (word >> place) & 1 == 1
}

/// A word whose one bit is set, or none.
pub(crate) fn bit(set: bool, place: u32) -> u32
    requires { place < 32 }
    ensures { result ≡ bit set place }
{
    if set { 1 << place } else { 0 }
}

/// The lines as the bits of `mie` and `mip`.
pub(crate) fn interrupt_bits(lines: Lines) -> u32
    ensures { result ≡ interrupt_bits lines }
{
    bit(lines.software, 3) + bit(lines.timer, 7) + bit(lines.external, 11)
}

/// The bits of `mie` as lines.
pub(crate) fn interrupts_of(word: u32) -> Lines
    ensures { result ≡ interrupts_of word }
{
    Lines {
        software: has_bit(word, 3),
        timer: has_bit(word, 7),
        external: has_bit(word, 11),
    }
}

/// What `mtvec` keeps of a written word.
pub(crate) fn legal_mtvec(word: u32) -> u32
    ensures kept { result ≡ legal_mtvec word }
    ensures mode { result % 4 < 2 }
{
    let base = word / 4 * 4;
    if word % 4 < 2 { word } else { base }
}

/// What `mepc` keeps of a written word.
pub(crate) fn legal_mepc(word: u32) -> u32
    ensures kept { result ≡ legal_mepc word }
    ensures aligned { result % 4 ≡ 0 }
{
    word / 4 * 4
}

/// Whether a CSR instruction writes.
pub(crate) fn does_write(op: CsrOp, field_is_zero: bool) -> bool
    ensures { result ≡ does_write op field_is_zero }
{
    match op {
        CsrOp::Write => true,
        CsrOp::Set | CsrOp::Clear => !field_is_zero,
    }
}

/// Whether a register's address is one of the read-only ones.
pub(crate) fn is_read_only(address: u32) -> bool
    ensures { result ≡ is_read_only address }
{
    has_bit(address, 11) && has_bit(address, 10)
}

/// The word that a CSR instruction writes.
pub(crate) fn new_value(op: CsrOp, old: u32, source: u32) -> u32
    ensures { result ≡ new_value op old source }
{
    match op {
        CsrOp::Write => source,
        CsrOp::Set => old | source,
        CsrOp::Clear => old & !source,
    }
}
