ghost use Rattle.std.specs.Prelude.{◌≡◌, ◌-◌, length};
ghost use Rattle.rv_refusal.specs.Lines.{line_at, lines_before, line_feeds};

use rv_asm::first_line;

/// The line with a number, from 1; nothing stands on a line that the text does not have.
pub(crate) fn line_at(number: usize, text: &[u8]) -> &[u8]
    ensures { result.now ≡ line_at number text.entry.now }
{
    let mut number = number;
    let mut rest = text;
    loop {
        let (line, behind) = first_line(rest);
        if number <= 1 {
            return line;
        }
        number -= 1;
        match behind {
            Some(others) => rest = others,
            None => return b"",
        }
    }
}

/// How many line feeds a text has.
pub(crate) fn line_feeds(text: &[u8]) -> usize
    ensures { result ≡ line_feeds text.now }
{
    text.iter().filter(|byte| **byte == b'\n').count()
}

/// How many lines of a text stand before its last part.
pub(crate) fn lines_before(text: &[u8], part: &[u8]) -> usize
    ensures { result ≡ lines_before text.now part.now }
{
    let (front, _) = text.split_at(text.len().saturating_sub(part.len()));
    line_feeds(front)
}
