/// Whether an explanation has its figures: the exceptions by cause and place, and where the cycles went.
#[derive(Clone, Copy)]
pub enum Figures {
    /// Not after a crash, whose sentences then stand alone.
    UnlessCrashed,
    /// After a crash too.
    Always,
}
