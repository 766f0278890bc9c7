ghost use Rattle.std.specs.Prelude.{◌≡◌, ◌≤◌, fold, length};
ghost use Rattle.rv_isa.specs.Levels.{HoldsLevels, line_set};

use crate::arrivals::MOST_ARRIVALS;
use crate::lines::{Arrival, Line, Lines};

/// The levels are kept after each so many arrivals, so that a look-up goes over fewer.
pub const BLOCK: usize = 1024;

/// The number of blocks that hold the most arrivals, and one more.
pub const BLOCKS: usize = 98;

const LOW: Lines = Lines {
    software: false,
    timer: false,
    external: false,
};

fn with(lines: Lines, arrival: Arrival) -> Lines
    ensures { result ≡ line_set lines arrival }
{
    let level = arrival.level;
    match arrival.line {
        Line::Software => Lines {
            software: level,
            ..lines
        },
        Line::Timer => Lines {
            timer: level,
            ..lines
        },
        Line::External => Lines {
            external: level,
            ..lines
        },
    }
}

// The levels after some arrivals, one after another.
pub fn lines_after(before: Lines, arrivals: &[Arrival]) -> Lines
    ensures { result ≡ fold line_set before arrivals.now }
{
    let mut lines = before;
    for arrival in arrivals {
        lines = with(lines, *arrival);
    }
    lines
}

// The levels after each block of arrivals.
pub fn levels_of(items: &[Arrival]) -> [Lines; BLOCKS]
    requires { length items.now ≤ MOST_ARRIVALS }
    ensures { HoldsLevels items.now result }
{
    let mut levels = [LOW; BLOCKS];
    let mut lines = LOW;
    let mut rest = items;
    for block in 0..BLOCKS {
        levels[block] = lines;
        let (first, later) = rest.split_at(rest.len().min(BLOCK));
        lines = lines_after(lines, first);
        rest = later;
    }
    levels
}
