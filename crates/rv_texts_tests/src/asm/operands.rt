use super::{each_has_fault, each_is_refused, each_means, is_refused, means};
use rv_asm::AsmFault;
use std::test::Fail;

#[test]
fn a_minus_is_a_token_before_its_number(rt: HostRuntime) -> Result<(), Fail> {
    static CASES: [(&str, &[u32]); 6] = [
        ("addi x1,x0,- 5", &[0xffb00093]),
        ("addi x1,x0,-0", &[0x00000093]),
        ("lw x1,-0(x2)", &[0x00012083]),
        (".equ a,-5\naddi x1,x0,a", &[0xffb00093]),
        ("nop\n.zero -0", &[0x00000013]),
        ("lui x1,- 0", &[0x000000b7]),
    ];
    each_means(rt.alloc(), &CASES)
}

#[test]
fn the_offset_of_loads_and_stores_may_be_missing(rt: HostRuntime) -> Result<(), Fail> {
    static CASES: [(&str, &[u32]); 4] = [
        ("lw x5,(x6)", &[0x00032283]),
        ("sw x5,(x6)", &[0x00532023]),
        (".equ a,8\nlw x5,a(x6)", &[0x00832283]),
        (".equ a,8\nsb x5,a-9(x6)", &[0xfe530fa3]),
    ];
    each_means(rt.alloc(), &CASES)
}

#[test]
fn a_name_is_a_register_a_csr_or_a_symbol_by_its_place(rt: HostRuntime) -> Result<(), Fail> {
    static CASES: [(&str, &[u32]); 5] = [
        ("x5: j x5", &[0x0000006f]),
        ("addi: j addi", &[0x0000006f]),
        (".equ x6,7\naddi x5,x6,x6", &[0x00730293]),
        (".equ mstatus,1\ncsrr x1,mstatus", &[0x300020f3]),
        (".equ mip,5\ncsrwi mtvec,mip", &[0x3052d073]),
    ];
    each_means(rt.alloc(), &CASES)
}

#[test]
fn each_register_has_two_names(rt: HostRuntime) -> Result<(), Fail> {
    static CASES: [(&str, &[u32]); 7] = [
        ("add zero,ra,sp\nadd gp,tp,t0", &[0x00208033, 0x005201b3]),
        (
            "add t1,t2,s0\nadd fp,s1,a0\nadd a1,a2,a3",
            &[0x00838333, 0x00a48433, 0x00d605b3],
        ),
        (
            "add a4,a5,a6\nadd a7,s2,s3\nadd s4,s5,s6",
            &[0x01078733, 0x013908b3, 0x016a8a33],
        ),
        (
            "add s7,s8,s9\nadd s10,s11,t3\nadd t4,t5,t6",
            &[0x019c0bb3, 0x01cd8d33, 0x01ff0eb3],
        ),
        (
            "add x31,x30,x29\nadd x28,x27,x26\nadd x3,x4,x8",
            &[0x01df0fb3, 0x01ad8e33, 0x008201b3],
        ),
        (
            "add x9,x10,x11\nadd x12,x13,x14\nadd x15,x16,x17",
            &[0x00b504b3, 0x00e68633, 0x011807b3],
        ),
        (
            "add x18,x19,x20\nadd x21,x22,x23\nadd x24,x25,x2",
            &[0x01498933, 0x017b0ab3, 0x002c8c33],
        ),
    ];
    each_means(rt.alloc(), &CASES)
}

#[test]
fn operands_of_another_count_or_shape_are_refused(rt: HostRuntime) -> Result<(), Fail> {
    static CASES: [&str; 37] = [
        "jalr x1,(x2)",
        "jalr x1,x2",
        "addi x1,x0,+5",
        "a: addi x1,x0,a+-1",
        "addi x1,x0,5+1",
        "addi x1,x0,5 5",
        "addi x1,x0,\"5\"",
        "addi x1,0,5",
        "add x1,x2",
        "add x1,x2,x3,x4",
        "j 4",
        "beq x0,x0,-8",
        "la x5,4",
        "a: li x5,a+1",
        "lw x5,4",
        "lw 5,0(x1)",
        "csrr x1,cycle",
        "csrr x1,mstatus+1",
        "ret x1",
        ".zero a",
        ".zero 16777217",
        ".zero -1",
        ".balign 3",
        ".balign 0",
        ".balign 32",
        ".word",
        ".word 1,",
        ".asciz a",
        ".equ a,b",
        ".globl 5",
        ".text 1",
        // a sum is a symbol, and then at most one number
        "x: .word 4+x",
        "x: .word x+1+1",
        ".word - - 1",
        "x: .word -x",
        "add x5,(x6),x7",
        ".globl a,b",
    ];
    each_has_fault(rt.alloc(), AsmFault::BadOperands, &CASES)?;
    is_refused(rt.alloc(), ".equ a,5\ncsrr x1,a", AsmFault::BadOperands, 2)?;
    is_refused(rt.alloc(), ".equ a,1\n.zero a", AsmFault::BadOperands, 2)
}

#[test]
fn a_statement_that_is_no_data_has_three_operands_at_most(rt: HostRuntime) -> Result<(), Fail> {
    static CASES: [&str; 12] = [
        "lui x1,1,2,3",
        "add x99,x2,x3,x4",
        "jal x99,a,b,c",
        "jalr x1,x2,0,0",
        "li x99,1,2,3",
        "ecall a,b,c,d",
        ".text 1,2,3,4",
        ".globl a,b,c,d",
        ".equ a,1,2,3",
        ".zero 1,2,3,4",
        ".asciz \"a\",\"b\",\"c\",\"d\"",
        "add ,,,,,,,,",
    ];
    each_has_fault(rt.alloc(), AsmFault::BadOperands, &CASES)
}

#[test]
fn data_has_any_number_of_operands(rt: HostRuntime) -> Result<(), Fail> {
    static MEANT: [(&str, &[u32]); 3] = [
        (".byte 1,2,3,4,5,6,7,8", &[0x04030201, 0x08070605]),
        (".equ n,7\n.half n,n+1,n-8,-2", &[0x00080007, 0xfffeffff]),
        (
            "a: .word a,b-4,1\nb: nop",
            &[0x80000000, 0x80000008, 1, 0x13],
        ),
    ];
    static REFUSED: [(&str, AsmFault, usize); 6] = [
        (".byte 1,2,3,4,", AsmFault::BadOperands, 1),
        (".byte 1,2,3,4 5", AsmFault::BadOperands, 1),
        (".byte 1,(x1),3,4,5", AsmFault::BadOperands, 1),
        (".byte ,", AsmFault::BadOperands, 1),
        (".byte 1,2,3,4,nowhere", AsmFault::UnknownSymbol, 1),
        ("nop\n.byte 1,2,3,4,256", AsmFault::OutOfRange, 2),
    ];
    each_means(rt.alloc(), &MEANT)?;
    each_is_refused(rt.alloc(), &REFUSED)
}

#[test]
fn a_name_in_a_registers_place_has_to_be_a_register(rt: HostRuntime) -> Result<(), Fail> {
    static CASES: [&str; 5] = [
        "addi x32,x0,0",
        "addi X1,x0,0",
        "lw x1,0(a8)",
        "add x1,x2,x01",
        "jr s12",
    ];
    each_has_fault(rt.alloc(), AsmFault::BadRegister, &CASES)
}

#[test]
fn a_statement_begins_with_a_known_name(rt: HostRuntime) -> Result<(), Fail> {
    static CASES: [&str; 7] = [
        "a: 5",
        "5",
        "(",
        ": nop",
        "ADDI x1,x0,1",
        ".align 4",
        "a b: nop",
    ];
    each_has_fault(rt.alloc(), AsmFault::UnknownMnemonic, &CASES)
}

#[test]
fn what_is_no_token_is_refused_unless_a_comment_or_a_string_holds_it(
    rt: HostRuntime,
) -> Result<(), Fail> {
    static CASES: [&str; 7] = [
        ".ascii \"\\x\"",
        ".ascii \"a\\",
        ".ascii \"a\nnop\"",
        "nop \u{e9}",
        "nop \x07",
        "li x1,4294967296",
        "li x1,5a",
    ];
    means(
        rt.alloc(),
        "\tnop\r\n# \u{e9} \x07 \"\n\nnop # x",
        &[0x00000013, 0x00000013],
    )?;
    each_has_fault(rt.alloc(), AsmFault::BadToken, &CASES)
}
