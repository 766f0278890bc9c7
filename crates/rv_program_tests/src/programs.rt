/// One addition on a machine that does one thing a cycle.
pub(crate) const ADDITION: &[u8] = b"fetch_width = 1
dispatch_width = 1
commit_width = 1
bus_width = 1
alu.units = 1
%%
addi x1,x0,5
ebreak
";

/// The sum of 1 to 10, which an interrupt of the timer counts in x30 once, if it comes soon enough.
pub(crate) const INTERRUPTED_SUM: &str = "la x31,h
csrw mtvec,x31
li x5,0x80
csrw mie,x5
csrrsi x0,mstatus,8
li x5,0
li x6,10
l: add x5,x5,x6
addi x6,x6,-1
bnez x6,l
ebreak
h: csrw mie,x0
addi x30,x30,1
mret
";

/// A store into the word after it, which stops a run there.
pub(crate) const STORE_INTO_CODE: &str = "la x5,t
li x6,0x00100393
sw x6,0(x5)
t: addi x7,x0,2
ebreak
";

/// A store into the word after it and a FENCE.I, after which the stored word runs.
pub(crate) const STORE_AND_FENCE: &str = "la x5,t
li x6,0x00100393
sw x6,0(x5)
fence.i
t: addi x7,x0,2
ebreak
";
