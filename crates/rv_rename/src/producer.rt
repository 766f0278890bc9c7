use rv_isa::Reg;

/// An instruction in flight that writes a register. Its sequence number is the tag of operands that wait for it.
#[derive(Clone, Copy)]
pub struct Producer {
    /// The register that it writes.
    pub register: Reg,
    /// Its sequence number.
    pub seq: u64,
}
