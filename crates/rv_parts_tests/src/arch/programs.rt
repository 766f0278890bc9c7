//! Programs of the simulator's worked examples, as words.

// lui x5,0x80001, addi x6,x0,7, sw x6,0(x5), lw x7,0(x5), ebreak
pub(super) const FORWARDED: [u32; 5] = [0x800012b7, 0x00700313, 0x0062a023, 0x0002a383, 0x00100073];

// lui x1,0x80000, addi x2,x0,-1, div x3,x1,x2, rem x4,x1,x2, divu x5,x1,x2,
// remu x6,x1,x2, div x7,x1,x0, rem x8,x1,x0, divu x9,x1,x0, remu x10,x1,x0,
// mulh x11,x1,x1, mulhu x12,x2,x2, mulhsu x13,x1,x2, mulhsu x14,x2,x2, ebreak
pub(super) const DIVISIONS: [u32; 15] = [
    0x800000b7, 0xfff00113, 0x0220c1b3, 0x0220e233, 0x0220d2b3, 0x0220f333, 0x0200c3b3, 0x0200e433,
    0x0200d4b3, 0x0200f533, 0x021095b3, 0x02213633, 0x0220a6b3, 0x02212733, 0x00100073,
];

// la x5,w, addi x6,x0,0x7f, sb x6,1(x5), lw x7,0(x5), ebreak, .data, w: .word 0x44332211
pub(super) const BYTE_STORE: [u32; 9] = [
    0x00000297, 0x02028293, 0x07f00313, 0x006280a3, 0x0002a383, 0x00100073, 0x00000000, 0x00000000,
    0x44332211,
];

// la x31,h, csrw mtvec,x31, lui x5,0x80010, lw x6,-4(x5), lw x7,0(x5),
// h: csrr x10,mcause, csrr x11,mtval, csrr x12,mepc, ebreak,
pub(super) const LOAD_PAST_RAM: [u32; 10] = [
    0x00000f97, 0x018f8f93, 0x305f9073, 0x800102b7, 0xffc2a303, 0x0002a383, 0x34202573, 0x343025f3,
    0x34102673, 0x00100073,
];

// la x31,h, csrw mtvec,x31, la x5,h, jalr x1,2(x5), h: csrr x10,mcause, csrr x11,mtval,
// csrr x12,mepc, ebreak,
pub(super) const JUMP_TO_ODD_HALF: [u32; 10] = [
    0x00000f97, 0x018f8f93, 0x305f9073, 0x00000297, 0x00c28293, 0x002280e7, 0x34202573, 0x343025f3,
    0x34102673, 0x00100073,
];

// la x31,h, csrw mtvec,x31, beq x0,x0,k, .word 0, k: .word 0xffffffff,
// h: csrr x10,mcause, csrr x11,mtval, csrr x12,mepc, ebreak,
pub(super) const BRANCH_TO_ILLEGAL: [u32; 10] = [
    0x00000f97, 0x018f8f93, 0x305f9073, 0x00000463, 0x00000000, 0xffffffff, 0x34202573, 0x343025f3,
    0x34102673, 0x00100073,
];

// la x31,h, csrw mtvec,x31, li x5,0x80, csrw mie,x5, csrrsi x0,mstatus,8, li x5,0,
// li x6,10, l: add x5,x5,x6, addi x6,x6,-1, bnez x6,l, ebreak, h: csrw mie,x0,
// addi x30,x30,1, mret
pub(super) const TIMER_PROGRAM: [u32; 15] = [
    0x00000f97, 0x030f8f93, 0x305f9073, 0x08000293, 0x30429073, 0x30046073, 0x00000293, 0x00a00313,
    0x006282b3, 0xfff30313, 0xfe031ce3, 0x00100073, 0x30401073, 0x001f0f13, 0x30200073,
];

// la x31,h, csrw mtvec,x31, li x5,0x888, csrw mie,x5, csrrsi x0,mstatus,8, ebreak,
// h: csrr x10,mcause, li x11,1, sll x11,x11,x10, csrrc x0,mie,x11, slli x12,x12,4,
// andi x10,x10,15, or x12,x12,x10, mret
pub(super) const THREE_LINES: [u32; 16] = [
    0x00000f97, 0x020f8f93, 0x305f9073, 0x000012b7, 0x88828293, 0x30429073, 0x30046073, 0x00100073,
    0x34202573, 0x00100593, 0x00a595b3, 0x3045b073, 0x00461613, 0x00f57513, 0x00a66633, 0x30200073,
];

// csrrs x5,mip,x0, ebreak
pub(super) const READ_MIP: [u32; 2] = [0x344022f3, 0x00100073];

// la x31,h, csrw mtvec,x31, csrw mhartid,x0, h: csrr x10,mcause, csrr x11,mtval,
// csrr x12,mepc, ebreak,
pub(super) const WRITE_MHARTID: [u32; 8] = [
    0x00000f97, 0x010f8f93, 0x305f9073, 0xf1401073, 0x34202573, 0x343025f3, 0x34102673, 0x00100073,
];

// la x31,h, csrw mtvec,x31, csrrs x5,0xb00,x0, h: csrr x10,mcause, csrr x11,mtval,
// csrr x12,mepc, ebreak,
pub(super) const NO_SUCH_CSR: [u32; 8] = [
    0x00000f97, 0x010f8f93, 0x305f9073, 0xb00022f3, 0x34202573, 0x343025f3, 0x34102673, 0x00100073,
];

// la x31,h, csrw mtvec,x31, csrrs x5,mhartid,x6, h: csrr x10,mcause, csrr x11,mtval,
// csrr x12,mepc, ebreak,
pub(super) const SET_MHARTID: [u32; 8] = [
    0x00000f97, 0x010f8f93, 0x305f9073, 0xf14322f3, 0x34202573, 0x343025f3, 0x34102673, 0x00100073,
];

// la x5,t, li x6,0x00100393, sw x6,0(x5), t: addi x7,x0,2, ebreak
pub(super) const STORE_TO_NEXT: [u32; 7] = [
    0x00000297, 0x01428293, 0x00100337, 0x39330313, 0x0062a023, 0x00200393, 0x00100073,
];

// la x5,t, li x6,0x00100393, sw x6,0(x5), fence.i, t: addi x7,x0,2, ebreak
pub(super) const STORE_AND_FENCE: [u32; 8] = [
    0x00000297, 0x01828293, 0x00100337, 0x39330313, 0x0062a023, 0x0000100f, 0x00200393, 0x00100073,
];

// li x5,-1, csrw mstatus,x5, csrw mie,x5, csrw mtvec,x5, csrw mepc,x5, csrw misa,x5,
// csrw mip,x5, csrr x6,mstatus, csrr x7,mie, csrr x8,mtvec, csrr x9,mepc, csrr x10,misa,
// csrr x11,mip, ebreak
pub(super) const WARL: [u32; 14] = [
    0xfff00293, 0x30029073, 0x30429073, 0x30529073, 0x34129073, 0x30129073, 0x34429073, 0x30002373,
    0x304023f3, 0x30502473, 0x341024f3, 0x30102573, 0x344025f3, 0x00100073,
];

// la x31,h, addi x31,x31,1, csrw mtvec,x31, li x5,0x80, csrw mie,x5, csrrsi x0,mstatus,8,
// ebreak, h: .zero 28, csrr x10,mcause, csrr x12,mepc, ebreak
pub(super) const VECTORED: [u32; 18] = [
    0x00000f97, 0x020f8f93, 0x001f8f93, 0x305f9073, 0x08000293, 0x30429073, 0x30046073, 0x00100073,
    0x00000000, 0x00000000, 0x00000000, 0x00000000, 0x00000000, 0x00000000, 0x00000000, 0x34202573,
    0x34102673, 0x00100073,
];

// la x31,h, csrw mtvec,x31, la x5,w, lw x6,0(x5), sw x6,0(x5), h: csrr x10,mcause,
// csrr x11,mtval, csrr x12,mepc, ebreak, .data, w: .word 7
pub(super) const ROM_STORE: [u32; 13] = [
    0x00000f97, 0x01cf8f93, 0x305f9073, 0x00000297, 0x02428293, 0x0002a303, 0x0062a023, 0x34202573,
    0x343025f3, 0x34102673, 0x00100073, 0x00000000, 0x00000007,
];

// la x31,h, csrw mtvec,x31, la x5,w, lw x6,0(x5), sh x6,1(x5), h: csrr x10,mcause,
// csrr x11,mtval, csrr x12,mepc, ebreak, .data, w: .word 7
pub(super) const ROM_HALF: [u32; 13] = [
    0x00000f97, 0x01cf8f93, 0x305f9073, 0x00000297, 0x02428293, 0x0002a303, 0x006290a3, 0x34202573,
    0x343025f3, 0x34102673, 0x00100073, 0x00000000, 0x00000007,
];

// la x31,h, csrw mtvec,x31, lui x5,0x80001, sw x5,0(x5), sw x5,-4(x5),
// h: csrr x10,mcause, csrr x11,mtval, csrr x12,mepc, ebreak,
pub(super) const ROM_EDGE: [u32; 10] = [
    0x00000f97, 0x018f8f93, 0x305f9073, 0x800012b7, 0x0052a023, 0xfe52ae23, 0x34202573, 0x343025f3,
    0x34102673, 0x00100073,
];
