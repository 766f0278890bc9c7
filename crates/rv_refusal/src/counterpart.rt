ghost use Rattle.std.specs.Prelude.{◌≡◌, map, option_copied};
ghost use Rattle.rv_asm.specs.Names.{named};
ghost use Rattle.rv_refusal.specs.Counterpart.{counterpart, counterparts};

// What others write, and what to write in its place.
static COUNTERPARTS: [(&[u8], &[u8]); 75] = [
    // directives of other assemblers
    (b".set", b".equ"),
    (b".eqv", b".equ"),
    (b".define", b".equ"),
    (b".long", b".word"),
    (b".int", b".word"),
    (b".4byte", b".word"),
    (b".quad", b".word"),
    (b".dword", b".word"),
    (b".8byte", b".word"),
    (b"dd", b".word"),
    (b".short", b".half"),
    (b".hword", b".half"),
    (b".2byte", b".half"),
    (b"dw", b".half"),
    (b"db", b".byte"),
    (b".fill", b".zero"),
    (b".comm", b".zero"),
    (b".lcomm", b".zero"),
    (b".rodata", b".data"),
    (b".rdata", b".data"),
    (b".bss", b".data"),
    (b".sdata", b".data"),
    (b".sbss", b".data"),
    // jumps and branches
    (b"b", b"j"),
    (b"br", b"j"),
    (b"jmp", b"j"),
    (b"jump", b"j"),
    (b"goto", b"j"),
    (b"tail", b"j"),
    (b"bl", b"call"),
    (b"bx", b"jr"),
    (b"return", b"ret"),
    (b"cbz", b"beqz"),
    (b"cbnz", b"bnez"),
    // what moves or computes a value
    (b"subi", b"addi"),
    (b"inc", b"addi"),
    (b"dec", b"addi"),
    (b"mov", b"mv"),
    (b"move", b"mv"),
    (b"movi", b"li"),
    (b"ldi", b"li"),
    (b"lla", b"la"),
    (b"ld", b"lw"),
    (b"lwu", b"lw"),
    (b"ldr", b"lw"),
    (b"load", b"lw"),
    (b"sd", b"sw"),
    (b"str", b"sw"),
    (b"store", b"sw"),
    (b"shl", b"sll"),
    (b"lsl", b"sll"),
    (b"sal", b"sll"),
    (b"shr", b"srl"),
    (b"lsr", b"srl"),
    (b"sar", b"sra"),
    (b"asr", b"sra"),
    (b"mod", b"rem"),
    (b"mflo", b"mul"),
    (b"mfhi", b"mulh"),
    // what traps, returns from a trap, ends a program, or does nothing
    (b"scall", b"ecall"),
    (b"syscall", b"ecall"),
    (b"svc", b"ecall"),
    (b"swi", b"ecall"),
    (b"int", b"ecall"),
    (b"halt", b"ebreak"),
    (b"hlt", b"ebreak"),
    (b"exit", b"ebreak"),
    (b"break", b"ebreak"),
    (b"sbreak", b"ebreak"),
    (b"sret", b"mret"),
    (b"uret", b"mret"),
    (b"eret", b"mret"),
    (b"iret", b"mret"),
    (b"fence.tso", b"fence"),
    (b"noop", b"nop"),
];

#[tactic(auto, unfolding(crate::specs::Counterpart::counterparts))]
fn counterparts() -> &'static [(&'static [u8], &'static [u8])]
    ensures { map (λ row. (row.0.now, row.1.now)) result.now ≡ counterparts }
{
    &COUNTERPARTS
}

// What the first row with a name has.
fn named(table: &[(&[u8], &'static [u8])], name: &[u8]) -> Option<&'static [u8]>
    ensures { option_copied result ≡ named (map (λ row. (row.0.now, row.1.now)) table.now) name.now }
{
    for row in table {
        if row.0 == name {
            return Some(row.1);
        }
    }
    None
}

/// What to write in place of a name of other assemblers or machines.
pub(crate) fn counterpart(name: &[u8]) -> Option<&'static [u8]>
    ensures { option_copied result ≡ counterpart name.now }
{
    named(counterparts(), name)
}
