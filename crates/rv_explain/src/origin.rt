/// An instruction that retired, from which a program went on.
#[derive(Clone, Copy)]
pub(crate) struct Origin {
    /// Its address.
    pub(crate) pc: u32,
    /// The word that was fetched there.
    pub(crate) word: u32,
}
