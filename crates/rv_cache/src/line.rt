/// A line that a set holds: its number, which is its address divided by the bytes of a line, and
/// whether it was written since it was last the backing's.
#[derive(Clone, Copy, Default)]
pub struct CacheLine {
    pub number: u32,
    pub dirty: bool,
}
