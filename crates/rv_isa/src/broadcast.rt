use crate::causes::Fault;
use crate::store_bytes::StoreBytes;

/// What a store writes to memory.
#[derive(Clone, Copy, PartialEq, Eq)]
pub struct StoreAccess {
    /// The first byte's address.
    pub address: u32,
    /// The bytes from there on.
    pub bytes: StoreBytes,
}

/// What a broadcast on the common data bus carries of an instruction's result.
#[derive(Clone, Copy, Default, PartialEq, Eq)]
pub struct Message {
    /// The value for the instruction's target register, 0 where it faults.
    pub value: u32,
    /// The fault to be taken when the instruction retires, if any.
    pub fault: Option<Fault>,
    /// The pc of the instruction that follows in program order.
    pub next_pc: u32,
    /// What a store writes, if the instruction is a store that does not fault.
    pub store: Option<StoreAccess>,
}
