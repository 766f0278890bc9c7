ghost use Rattle.std.specs.Prelude.{◌≡◌, map};
ghost use Rattle.rv_refusal.specs.ForeignName.{comparisons, counter_hint, counter_reads, counters, csr_hint};
ghost use Rattle.rv_refusal.specs.ForeignName.{directive_hint, double_directives, extensions, float_names};
ghost use Rattle.rv_refusal.specs.ForeignName.{foreign_hint, idle_directives, line_directives, mnemonic_hint};
ghost use Rattle.rv_refusal.specs.ForeignName.{stack_hint, stack_names};

use crate::key_line::is_among;
use crate::name_on::begins_with;

// Directives of other assemblers that say nothing to this machine.
static IDLE_DIRECTIVES: [&[u8]; 14] = [
    b".option",
    b".type",
    b".size",
    b".file",
    b".ident",
    b".attribute",
    b".end",
    b".weak",
    b".local",
    b".loc",
    b".ent",
    b".extern",
    b".cfi_startproc",
    b".cfi_endproc",
];

// Those that make lines, or take them in under a condition.
static LINE_DIRECTIVES: [&[u8]; 8] = [
    b".macro",
    b".endm",
    b".rept",
    b".endr",
    b".if",
    b".else",
    b".endif",
    b".include",
];

// Those of data of 64 bits.
static DOUBLE_DIRECTIVES: [&[u8]; 3] = [b".quad", b".dword", b".8byte"];

// Directives and instructions of floating point.
static FLOAT_NAMES: [&[u8]; 6] = [b".float", b".double", b"flw", b"fsw", b"fld", b"fsd"];

// Instructions of other machines that move a register to the stack, or from it.
static STACK_NAMES: [&[u8]; 2] = [b"push", b"pop"];

// Those that compare, and branches by what they left.
static COMPARISONS: [&[u8]; 12] = [
    b"cmp", b"tst", b"tbz", b"tbnz", b"je", b"jz", b"jne", b"jnz", b"jg", b"jge", b"jl", b"jle",
];

// Instructions of extensions that this machine lacks.
static EXTENSIONS: [&[u8]; 12] = [
    b"min", b"minu", b"max", b"maxu", b"abs", b"rol", b"ror", b"clz", b"ctz", b"cpop", b"lr.w",
    b"sc.w",
];

// CSRs of other machines that count cycles, instructions or time.
static COUNTERS: [&[u8]; 12] = [
    b"cycle",
    b"cycleh",
    b"time",
    b"timeh",
    b"instret",
    b"instreth",
    b"mcycle",
    b"mcycleh",
    b"minstret",
    b"minstreth",
    b"mtime",
    b"mtimeh",
];

// Instructions that read them.
static COUNTER_READS: [&[u8]; 6] = [
    b"rdcycle",
    b"rdcycleh",
    b"rdtime",
    b"rdtimeh",
    b"rdinstret",
    b"rdinstreth",
];

#[tactic(auto, unfolding(crate::specs::ForeignName::idle_directives))]
fn idle_directives() -> &'static [&'static [u8]]
    ensures { map (λ name. name.now) result.now ≡ idle_directives }
{
    &IDLE_DIRECTIVES
}

#[tactic(auto, unfolding(crate::specs::ForeignName::line_directives))]
fn line_directives() -> &'static [&'static [u8]]
    ensures { map (λ name. name.now) result.now ≡ line_directives }
{
    &LINE_DIRECTIVES
}

#[tactic(auto, unfolding(crate::specs::ForeignName::double_directives))]
fn double_directives() -> &'static [&'static [u8]]
    ensures { map (λ name. name.now) result.now ≡ double_directives }
{
    &DOUBLE_DIRECTIVES
}

#[tactic(auto, unfolding(crate::specs::ForeignName::float_names))]
fn float_names() -> &'static [&'static [u8]]
    ensures { map (λ name. name.now) result.now ≡ float_names }
{
    &FLOAT_NAMES
}

#[tactic(auto, unfolding(crate::specs::ForeignName::stack_names))]
fn stack_names() -> &'static [&'static [u8]]
    ensures { map (λ name. name.now) result.now ≡ stack_names }
{
    &STACK_NAMES
}

#[tactic(auto, unfolding(crate::specs::ForeignName::comparisons))]
fn comparisons() -> &'static [&'static [u8]]
    ensures { map (λ name. name.now) result.now ≡ comparisons }
{
    &COMPARISONS
}

#[tactic(auto, unfolding(crate::specs::ForeignName::extensions))]
fn extensions() -> &'static [&'static [u8]]
    ensures { map (λ name. name.now) result.now ≡ extensions }
{
    &EXTENSIONS
}

#[tactic(auto, unfolding(crate::specs::ForeignName::counters))]
fn counters() -> &'static [&'static [u8]]
    ensures { map (λ name. name.now) result.now ≡ counters }
{
    &COUNTERS
}

#[tactic(auto, unfolding(crate::specs::ForeignName::counter_reads))]
fn counter_reads() -> &'static [&'static [u8]]
    ensures { map (λ name. name.now) result.now ≡ counter_reads }
{
    &COUNTER_READS
}

/// How a register is moved to the stack, and from it.
#[tactic(auto, unfolding(crate::specs::ForeignName::stack_hint))]
pub(crate) fn stack_hint() -> &'static [u8]
    ensures { result.now ≡ stack_hint }
{
    b"hint: addi sp, sp, -4 and sw ra, 0(sp) push ra; lw ra, 0(sp) and addi sp, sp, 4 pop it\n"
}

// That nothing counts.
#[tactic(auto, unfolding(crate::specs::ForeignName::counter_hint))]
fn counter_hint() -> &'static [u8]
    ensures { result.now ≡ counter_hint }
{
    b"hint: the machine has no counters: the lines cycles and retired of the report say what a run took\n"
}

/// What to write in place of a CSR of other machines that none here stands for.
#[tactic(auto, unfolding(crate::specs::ForeignName::csr_hint))]
pub(crate) fn csr_hint(name: &[u8]) -> &'static [u8]
    ensures { result.now ≡ csr_hint name.now }
{
    if is_among(name, counters()) {
        counter_hint()
    } else {
        b""
    }
}

// What to write in place of a statement with a directive of other assemblers.
#[tactic(auto, unfolding(crate::specs::ForeignName::directive_hint))]
fn directive_hint(name: &[u8]) -> &'static [u8]
    ensures { result.now ≡ directive_hint name.now }
{
    if is_among(name, idle_directives()) {
        return b"hint: this line may be left out\n";
    }
    if is_among(name, line_directives()) {
        return b"hint: there are no macros and no conditions: the lines stand themselves\n";
    }
    if is_among(name, double_directives()) {
        return b"hint: two words, the lower one first\n";
    }
    if name == b".org".as_slice() {
        return b"hint: no line chooses its address: .zero 8 leaves 8 bytes, .balign 8 goes on at a multiple of 8\n";
    }
    b""
}

// What to write in place of a statement with a mnemonic of other assemblers or machines.
#[tactic(auto, unfolding(crate::specs::ForeignName::mnemonic_hint))]
fn mnemonic_hint(name: &[u8]) -> &'static [u8]
    ensures { result.now ≡ mnemonic_hint name.now }
{
    if is_among(name, stack_names()) {
        return stack_hint();
    }
    if is_among(name, comparisons()) {
        return b"hint: a branch compares two registers itself, as in beq a0, a1, loop\n";
    }
    if is_among(name, extensions()) {
        return b"hint: the machine has the base instructions, M, Zicsr, Zifencei, and three of Zba\n";
    }
    if is_among(name, counter_reads()) {
        return counter_hint();
    }
    if name == b"section".as_slice() {
        return b"hint: a line .text or .data begins a section\n";
    }
    b""
}

/// What to write in place of a statement with a name of other assemblers or machines that no one name here stands for.
#[tactic(auto, unfolding(crate::specs::ForeignName::foreign_hint))]
pub(crate) fn foreign_hint(name: &[u8]) -> &'static [u8]
    ensures { result.now ≡ foreign_hint name.now }
{
    if is_among(name, float_names()) {
        return b"hint: the machine has no floating point\n";
    }
    if begins_with(b'.', name) {
        directive_hint(name)
    } else {
        mnemonic_hint(name)
    }
}
