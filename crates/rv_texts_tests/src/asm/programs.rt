use super::each_means;
use std::test::Fail;

// Divisions and upper halves of products at their edges.
const DIVISIONS: &str = "li x1,0x80000000
li x2,0xffffffff
div x3,x1,x2
rem x4,x1,x2
divu x5,x1,x2
remu x6,x1,x2
div x7,x1,x0
rem x8,x1,x0
divu x9,x1,x0
remu x10,x1,x0
mulh x11,x1,x1
mulhu x12,x2,x2
mulhsu x13,x1,x2
mulhsu x14,x2,x2
ebreak";

const DIVISIONS_WORDS: [u32; 15] = [
    0x800000b7, 0xfff00113, 0x0220c1b3, 0x0220e233, 0x0220d2b3, 0x0220f333, 0x0200c3b3, 0x0200e433,
    0x0200d4b3, 0x0200f533, 0x021095b3, 0x02213633, 0x0220a6b3, 0x02212733, 0x00100073,
];

// A byte stored into a word of the data.
const BYTE_STORE: &str = "la x5,w
addi x6,x0,0x7f
sb x6,1(x5)
lw x7,0(x5)
ebreak
.data
w: .word 0x44332211";

const BYTE_STORE_WORDS: [u32; 9] = [
    0x00000297, 0x02028293, 0x07f00313, 0x006280a3, 0x0002a383, 0x00100073, 0x00000000, 0x00000000,
    0x44332211,
];

// A store that a taken branch passes over.
const PASSED_STORE: &str = "la x5,w
div x6,x5,x5
bne x6,x0,o
sw x0,0(x5)
o: lw x7,0(x5)
ebreak
.data
w: .word 0xabcd";

const PASSED_STORE_WORDS: [u32; 9] = [
    0x00000297, 0x02028293, 0x0252c333, 0x00031463, 0x0002a023, 0x0002a383, 0x00100073, 0x00000000,
    0x0000abcd,
];

// A load past the last byte of memory, with a handler.
const LOAD_PAST_RAM: &str = "la x31,h
csrw mtvec,x31
lui x5,0x80010
lw x6,-4(x5)
lw x7,0(x5)
h: csrr x10,mcause
csrr x11,mtval
csrr x12,mepc
ebreak";

const LOAD_PAST_RAM_WORDS: [u32; 10] = [
    0x00000f97, 0x018f8f93, 0x305f9073, 0x800102b7, 0xffc2a303, 0x0002a383, 0x34202573, 0x343025f3,
    0x34102673, 0x00100073,
];

// A jump to an odd half, with a handler.
const ODD_HALF: &str = "la x31,h
csrw mtvec,x31
la x5,h
jalr ra,2(x5)
h: csrr x10,mcause
csrr x11,mtval
csrr x12,mepc
ebreak";

const ODD_HALF_WORDS: [u32; 10] = [
    0x00000f97, 0x018f8f93, 0x305f9073, 0x00000297, 0x00c28293, 0x002280e7, 0x34202573, 0x343025f3,
    0x34102673, 0x00100073,
];

// A branch over one illegal word to another.
const ILLEGAL: &str = "la x31,h
csrw mtvec,x31
beq x0,x0,k
.word 0
k: .word 0xffffffff
h: csrr x10,mcause
csrr x11,mtval
csrr x12,mepc
ebreak";

const ILLEGAL_WORDS: [u32; 10] = [
    0x00000f97, 0x018f8f93, 0x305f9073, 0x00000463, 0x00000000, 0xffffffff, 0x34202573, 0x343025f3,
    0x34102673, 0x00100073,
];

// A sum that a timer may interrupt.
const TIMER: &str = "la x31,h
csrw mtvec,x31
li x5,0x80
csrw mie,x5
csrrsi x0,mstatus,8
li x5,0
li x6,10
l: add x5,x5,x6
addi x6,x6,-1
bnez x6,l
ebreak
h: csrw mie,x0
addi x30,x30,1
mret";

const TIMER_WORDS: [u32; 15] = [
    0x00000f97, 0x030f8f93, 0x305f9073, 0x08000293, 0x30429073, 0x30046073, 0x00000293, 0x00a00313,
    0x006282b3, 0xfff30313, 0xfe031ce3, 0x00100073, 0x30401073, 0x001f0f13, 0x30200073,
];

// Three interrupts, and which came first.
const THREE_LINES: &str = "la x31,h
csrw mtvec,x31
li x5,0x888
csrw mie,x5
csrrsi x0,mstatus,8
ebreak
h: csrr x10,mcause
li x11,1
sll x11,x11,x10
csrrc x0,mie,x11
slli x12,x12,4
andi x10,x10,15
or x12,x12,x10
mret";

const THREE_LINES_WORDS: [u32; 16] = [
    0x00000f97, 0x020f8f93, 0x305f9073, 0x000012b7, 0x88828293, 0x30429073, 0x30046073, 0x00100073,
    0x34202573, 0x00100593, 0x00a595b3, 0x3045b073, 0x00461613, 0x00f57513, 0x00a66633, 0x30200073,
];

// The lines, read.
const READ_MIP: &str = "csrrs x5,mip,x0
ebreak";

const READ_MIP_WORDS: [u32; 2] = [0x344022f3, 0x00100073];

// A write to a CSR that is read-only.
const WRITE_MHARTID: &str = "la x31,h
csrw mtvec,x31
csrw mhartid,x0
h: csrr x10,mcause
csrr x11,mtval
csrr x12,mepc
ebreak";

const WRITE_MHARTID_WORDS: [u32; 8] = [
    0x00000f97, 0x010f8f93, 0x305f9073, 0xf1401073, 0x34202573, 0x343025f3, 0x34102673, 0x00100073,
];

// A CSR by a number that no name has.
const NO_SUCH_CSR: &str = "la x31,h
csrw mtvec,x31
csrrs x5,0xb00,x0
h: csrr x10,mcause
csrr x11,mtval
csrr x12,mepc
ebreak";

const NO_SUCH_CSR_WORDS: [u32; 8] = [
    0x00000f97, 0x010f8f93, 0x305f9073, 0xb00022f3, 0x34202573, 0x343025f3, 0x34102673, 0x00100073,
];

// Bits set in a CSR that is read-only.
const SET_MHARTID: &str = "la x31,h
csrw mtvec,x31
csrrs x5,mhartid,x6
h: csrr x10,mcause
csrr x11,mtval
csrr x12,mepc
ebreak";

const SET_MHARTID_WORDS: [u32; 8] = [
    0x00000f97, 0x010f8f93, 0x305f9073, 0xf14322f3, 0x34202573, 0x343025f3, 0x34102673, 0x00100073,
];

// A store to the next instruction.
const STALE: &str = "la x5,t
li x6,0x00100393
sw x6,0(x5)
t: addi x7,x0,2
ebreak";

const STALE_WORDS: [u32; 7] = [
    0x00000297, 0x01428293, 0x00100337, 0x39330313, 0x0062a023, 0x00200393, 0x00100073,
];

// The same with a fence between them.
const FENCED: &str = "la x5,t
li x6,0x00100393
sw x6,0(x5)
fence.i
t: addi x7,x0,2
ebreak";

const FENCED_WORDS: [u32; 8] = [
    0x00000297, 0x01828293, 0x00100337, 0x39330313, 0x0062a023, 0x0000100f, 0x00200393, 0x00100073,
];

// All ones written into each CSR, and read back.
const ALL_ONES: &str = "li x5,-1
csrw mstatus,x5
csrw mie,x5
csrw mtvec,x5
csrw mepc,x5
csrw misa,x5
csrw mip,x5
csrr x6,mstatus
csrr x7,mie
csrr x8,mtvec
csrr x9,mepc
csrr x10,misa
csrr x11,mip
ebreak";

const ALL_ONES_WORDS: [u32; 14] = [
    0xfff00293, 0x30029073, 0x30429073, 0x30529073, 0x34129073, 0x30129073, 0x34429073, 0x30002373,
    0x304023f3, 0x30502473, 0x341024f3, 0x30102573, 0x344025f3, 0x00100073,
];

// A handler in a table of vectors.
const VECTORED: &str = "la x31,h
addi x31,x31,1
csrw mtvec,x31
li x5,0x80
csrw mie,x5
csrrsi x0,mstatus,8
ebreak
h: .zero 28
csrr x10,mcause
csrr x12,mepc
ebreak";

const VECTORED_WORDS: [u32; 18] = [
    0x00000f97, 0x020f8f93, 0x001f8f93, 0x305f9073, 0x08000293, 0x30429073, 0x30046073, 0x00100073,
    0x00000000, 0x00000000, 0x00000000, 0x00000000, 0x00000000, 0x00000000, 0x00000000, 0x34202573,
    0x34102673, 0x00100073,
];

#[test]
fn programs_of_arithmetic_and_stores_assemble(rt: HostRuntime) -> Result<(), Fail> {
    static CASES: [(&str, &[u32]); 5] = [
        (DIVISIONS, &DIVISIONS_WORDS),
        (BYTE_STORE, &BYTE_STORE_WORDS),
        (PASSED_STORE, &PASSED_STORE_WORDS),
        (STALE, &STALE_WORDS),
        (FENCED, &FENCED_WORDS),
    ];
    each_means(rt.alloc(), &CASES)
}

#[test]
fn programs_with_a_trap_handler_assemble(rt: HostRuntime) -> Result<(), Fail> {
    static CASES: [(&str, &[u32]); 6] = [
        (LOAD_PAST_RAM, &LOAD_PAST_RAM_WORDS),
        (ODD_HALF, &ODD_HALF_WORDS),
        (ILLEGAL, &ILLEGAL_WORDS),
        (WRITE_MHARTID, &WRITE_MHARTID_WORDS),
        (NO_SUCH_CSR, &NO_SUCH_CSR_WORDS),
        (SET_MHARTID, &SET_MHARTID_WORDS),
    ];
    each_means(rt.alloc(), &CASES)
}

#[test]
fn programs_that_are_interrupted_assemble(rt: HostRuntime) -> Result<(), Fail> {
    static CASES: [(&str, &[u32]); 5] = [
        (TIMER, &TIMER_WORDS),
        (THREE_LINES, &THREE_LINES_WORDS),
        (READ_MIP, &READ_MIP_WORDS),
        (VECTORED, &VECTORED_WORDS),
        (ALL_ONES, &ALL_ONES_WORDS),
    ];
    each_means(rt.alloc(), &CASES)
}
