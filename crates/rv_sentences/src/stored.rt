/// A store that retired.
#[derive(Clone, Copy)]
pub struct Stored {
    /// Its own address.
    pub pc: u32,
    /// The address of the first byte that it wrote.
    pub address: u32,
}
