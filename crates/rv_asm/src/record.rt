use crate::reach::Reach;

/// A line of the text.
#[derive(Clone, Copy)]
pub struct TextLine<'a> {
    /// Its number; the first line has 1.
    pub number: usize,
    pub bytes: &'a [u8],
}

/// A line in its place, which the second pass reads again.
#[derive(Drop)]
pub struct Record<'a> {
    pub line: TextLine<'a>,
    /// How far the text had come before the line.
    pub reach: Reach,
}
