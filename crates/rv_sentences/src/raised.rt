ghost use Rattle.std.specs.Prelude.{◌≡◌};
ghost use Rattle.rv_sentences.specs.Untaken.{high_since, raised_with};

use rv_isa::Lines;

/// The cycle from which each interrupt line is high without a break, `None` where it is low.
#[derive(Clone, Copy)]
pub struct Raised {
    /// The line of software interrupts.
    pub software: Option<u64>,
    /// That of the timer.
    pub timer: Option<u64>,
    /// That of external interrupts.
    pub external: Option<u64>,
}

fn high_since(cycle: u64, level: bool, since: Option<u64>) -> Option<u64>
    ensures { result ≡ high_since cycle level since }
{
    if level { since.or(Some(cycle)) } else { None }
}

impl Raised {
    /// No line is high.
    pub const NONE: Raised = Raised {
        software: None,
        timer: None,
        external: None,
    };

    /// Follows the lines through a cycle in which they have these levels.
    pub fn follow(&mut self, cycle: u64, lines: Lines)
        ensures { self.new ≡ raised_with cycle lines self.old }
    {
        self.software = high_since(cycle, lines.software, self.software);
        self.timer = high_since(cycle, lines.timer, self.timer);
        self.external = high_since(cycle, lines.external, self.external);
    }
}
