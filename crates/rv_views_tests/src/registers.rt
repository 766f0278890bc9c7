use crate::checks::check;
use crate::machine::{described, pipeline};
use rv_front::NotTaken;
use rv_isa::{Lines, Values};
use rv_watch::Simulated;

// addi x1,x0,-1; addi x2,x0,1; sltu x3,x1,x2; sltu x4,x2,x1; blt x1,x2,8; addi x5,x0,1; csrrw x0,mcause,x1; csrrs x6,mcause,x0;
// jal x0,0
const PROGRAM: [u8; 36] = [
    0x93, 0x00, 0xf0, 0xff, 0x13, 0x01, 0x10, 0x00, 0xb3, 0xb1, 0x20, 0x00, 0x33, 0x32, 0x11, 0x00,
    0x63, 0xc4, 0x20, 0x00, 0x93, 0x02, 0x10, 0x00, 0x73, 0x90, 0x20, 0x34, 0x73, 0x23, 0x20, 0x34,
    0x6f, 0x00, 0x00, 0x00,
];

// As unsigned words -1 is the greatest, as signed ones it is below 1; and mcause keeps each bit.
#[test]
fn a_run_of_the_core_leaves_what_the_manual_says(rt: HostRuntime) {
    let alloc = rt.alloc();
    let mut pipeline = pipeline(&rt, alloc, &described(&rt, Values::standard()), &PROGRAM);
    let mut predictor = NotTaken;
    for _ in 0..60 {
        pipeline.cycle(&mut predictor, Lines::default());
    }
    let registers = pipeline.shown().observe().regs;
    check(&rt, registers[3] == 0 && registers[4] == 1);
    check(&rt, registers[5] == 0 && registers[6] == 0xffff_ffff);
}
