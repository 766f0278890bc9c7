use super::{each_is_word, each_means};
use std::test::Fail;

#[test]
fn each_base_instruction_has_the_word_of_the_manual(rt: HostRuntime) -> Result<(), Fail> {
    static CASES: [(&str, u32); 44] = [
        ("lui x5,0xfffff", 0xfffff2b7),
        ("auipc x31,1", 0x00001f97),
        ("a: jal x5,a+1048574", 0x7ffff2ef),
        ("a: jal a-1048576", 0x800000ef),
        ("jalr x5,-2048(x6)", 0x800302e7),
        ("jalr x5,x6,2047", 0x7ff302e7),
        ("jalr x6", 0x000300e7),
        ("a: beq x6,x7,a+4094", 0x7e730fe3),
        ("a: bne x6,x7,a-4096", 0x80731063),
        ("a: blt x6,x7,a", 0x00734063),
        ("a: bge x6,x7,a+2", 0x00735163),
        ("a: bltu x6,x7,a+8", 0x00736463),
        ("a: bgeu x6,x7,a-8", 0xfe737ce3),
        ("lb x5,-1(x6)", 0xfff30283),
        ("lh x5,2(x6)", 0x00231283),
        ("lw x5,2047(x6)", 0x7ff32283),
        ("lbu x5,-2048(x6)", 0x80034283),
        ("lhu x5,0(x6)", 0x00035283),
        ("sb x5,-1(x6)", 0xfe530fa3),
        ("sh x5,2(x6)", 0x00531123),
        ("sw x5,-2048(x6)", 0x80532023),
        ("addi x5,x6,-2048", 0x80030293),
        ("slti x5,x6,2047", 0x7ff32293),
        ("sltiu x5,x6,1", 0x00133293),
        ("xori x5,x6,-1", 0xfff34293),
        ("ori x5,x6,0x7f", 0x07f36293),
        ("andi x5,x6,0b1111", 0x00f37293),
        ("slli x5,x6,31", 0x01f31293),
        ("srli x5,x6,0", 0x00035293),
        ("srai x5,x6,17", 0x41135293),
        ("add x5,x6,x7", 0x007302b3),
        ("sub x5,x6,x7", 0x407302b3),
        ("sll x5,x6,x7", 0x007312b3),
        ("slt x5,x6,x7", 0x007322b3),
        ("sltu x5,x6,x7", 0x007332b3),
        ("xor x5,x6,x7", 0x007342b3),
        ("srl x5,x6,x7", 0x007352b3),
        ("sra x5,x6,x7", 0x407352b3),
        ("or x5,x6,x7", 0x007362b3),
        ("and x5,x6,x7", 0x007372b3),
        ("fence", 0x0ff0000f),
        ("fence.i", 0x0000100f),
        ("ecall", 0x00000073),
        ("ebreak", 0x00100073),
    ];
    each_is_word(rt.alloc(), &CASES)
}

#[test]
fn each_instruction_of_an_extension_has_the_word_of_the_manual(
    rt: HostRuntime,
) -> Result<(), Fail> {
    static CASES: [(&str, u32); 19] = [
        ("mul x5,x6,x7", 0x027302b3),
        ("mulh x5,x6,x7", 0x027312b3),
        ("mulhsu x5,x6,x7", 0x027322b3),
        ("mulhu x5,x6,x7", 0x027332b3),
        ("div x5,x6,x7", 0x027342b3),
        ("divu x5,x6,x7", 0x027352b3),
        ("rem x5,x6,x7", 0x027362b3),
        ("remu x5,x6,x7", 0x027372b3),
        ("sh1add x5,x6,x7", 0x207322b3),
        ("sh2add x5,x6,x7", 0x207342b3),
        ("sh3add x5,x6,x7", 0x207362b3),
        ("mret", 0x30200073),
        ("wfi", 0x10500073),
        ("csrrw x5,mstatus,x6", 0x300312f3),
        ("csrrs x5,mcause,x6", 0x342322f3),
        ("csrrc x5,4095,x6", 0xfff332f3),
        ("csrrwi x5,mtvec,31", 0x305fd2f3),
        ("csrrsi x5,mip,0", 0x344062f3),
        ("csrrci x5,0x340,1", 0x3400f2f3),
    ];
    each_is_word(rt.alloc(), &CASES)
}

#[test]
fn a_pseudo_instruction_is_the_instruction_that_it_stands_for(rt: HostRuntime) -> Result<(), Fail> {
    static CASES: [(&str, u32); 34] = [
        ("nop", 0x00000013),
        ("mv x5,x6", 0x00030293),
        ("not x5,x6", 0xfff34293),
        ("neg x5,x6", 0x406002b3),
        ("seqz x5,x6", 0x00133293),
        ("snez x5,x6", 0x006032b3),
        ("sltz x5,x6", 0x000322b3),
        ("sgtz x5,x6", 0x006022b3),
        ("a: beqz x6,a+8", 0x00030463),
        ("a: bnez x6,a+8", 0x00031463),
        ("a: bltz x6,a+8", 0x00034463),
        ("a: bgez x6,a+8", 0x00035463),
        ("a: bgtz x6,a+8", 0x00604463),
        ("a: blez x6,a+8", 0x00605463),
        ("a: bgt x6,x7,a+8", 0x0063c463),
        ("a: ble x6,x7,a+8", 0x0063d463),
        ("a: bgtu x6,x7,a+8", 0x0063e463),
        ("a: bleu x6,x7,a+8", 0x0063f463),
        ("a: j a+8", 0x0080006f),
        ("a: call a+8", 0x008000ef),
        ("jr x6", 0x00030067),
        ("ret", 0x00008067),
        ("csrr x5,mepc", 0x341022f3),
        ("csrr x5,mvendorid", 0xf11022f3),
        ("csrr x5,marchid", 0xf12022f3),
        ("csrr x5,mimpid", 0xf13022f3),
        ("csrr x5,mhartid", 0xf14022f3),
        ("csrr x5,mconfigptr", 0xf15022f3),
        ("csrw mtval,x6", 0x34331073),
        ("csrs mie,x6", 0x30432073),
        ("csrc misa,x6", 0x30133073),
        ("csrwi mscratch,31", 0x340fd073),
        ("csrsi mstatus,8", 0x30046073),
        ("csrci mstatush,1", 0x3100f073),
    ];
    each_is_word(rt.alloc(), &CASES)
}

#[test]
fn li_is_one_instruction_where_one_is_enough(rt: HostRuntime) -> Result<(), Fail> {
    static CASES: [(&str, &[u32]); 15] = [
        ("li x5,0", &[0x00000293]),
        ("li x5,2047", &[0x7ff00293]),
        ("li x5,-2048", &[0x80000293]),
        ("li x5,0x800", &[0x000012b7, 0x80028293]),
        ("li x5,-2049", &[0xfffff2b7, 0x7ff28293]),
        ("li x5,0xfff", &[0x000012b7, 0xfff28293]),
        ("li x5,0x1000", &[0x000012b7]),
        ("li x5,0x12345678", &[0x123452b7, 0x67828293]),
        ("li x5,0x7fffffff", &[0x800002b7, 0xfff28293]),
        ("li x5,0x80000000", &[0x800002b7]),
        ("li x5,0xfffff7ff", &[0xfffff2b7, 0x7ff28293]),
        ("li x5,0xfffff800", &[0x80000293]),
        ("li x5,4294967295", &[0xfff00293]),
        ("li x5,-4294967295", &[0x00100293]),
        (".equ a,0xfff\nli x5,a", &[0x000012b7, 0xfff28293]),
    ];
    each_means(rt.alloc(), &CASES)
}

#[test]
fn la_counts_from_its_first_instruction_and_modulo_2_to_the_32(
    rt: HostRuntime,
) -> Result<(), Fail> {
    static CASES: [(&str, &[u32]); 7] = [
        ("a: la x5,a", &[0x00000297, 0x00028293]),
        ("a: la x5,a+2047", &[0x00000297, 0x7ff28293]),
        ("a: la x5,a+2048", &[0x00001297, 0x80028293]),
        ("a: la x5,a-2048", &[0x00000297, 0x80028293]),
        ("a: la x5,a-2049", &[0xfffff297, 0x7ff28293]),
        (
            "nop\na: nop\nla x5,a",
            &[0x00000013, 0x00000013, 0x00000297, 0xffc28293],
        ),
        ("a: la x5,a+4294967292", &[0x00000297, 0xffc28293]),
    ];
    each_means(rt.alloc(), &CASES)
}
