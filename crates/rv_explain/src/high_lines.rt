ghost use Rattle.std.specs.Prelude.{◌≡◌, true, false};
ghost use Rattle.rv_sentences.specs.Untaken.{none_raised, raised_with};

use rv_isa::Lines;
use rv_sentences::Raised;

fn none_is_high(lines: Lines) -> bool
    ensures { result ≡ true → lines ≡ record { software = false; timer = false; external = false } }
{
    match lines {
        Lines {
            software: false,
            timer: false,
            external: false,
        } => true,
        _ => false,
    }
}

fn none_was_high(raised: &Raised) -> bool
    ensures { result ≡ true → raised.now ≡ none_raised }
{
    match raised {
        Raised {
            software: None,
            timer: None,
            external: None,
        } => true,
        _ => false,
    }
}

/// Follows the lines through a cycle in which they have these levels: mostly none is high, and none was.
pub(crate) fn follow_lines(raised: &mut Raised, cycle: u64, lines: Lines)
    ensures { raised.new ≡ raised_with cycle lines raised.old }
{
    if none_is_high(lines) && none_was_high(raised) {
        return;
    }
    raised.follow(cycle, lines);
}
