ghost use Rattle.std.specs.Prelude.{false};
ghost use Rattle.rv_hardware.specs.Guided.{guided};
ghost use Rattle.rv_log.specs.Log.{WritesLog, begin_text};
ghost use Rattle.rv_text.specs.Said.{Extends};
ghost use Rattle.rv_view.specs.Following.{FollowsFrom};

use crate::cycle::{write_begin, write_cycle};
use crate::room::Stalled;
use rv_arch::Stop;
use rv_front::Predictor;
use rv_hardware::Stall;
use rv_isa::Arrivals;
use rv_passage::Passage;
use rv_source::Listing;
use rv_text::Sink;
use rv_view::{Following, ShownCycle, View, run_view};
use rv_watch::Simulated;
use std::convert::Infallible;
use std::io::Write;

/// Why a run ended, and whether a write of its log failed.
#[derive(Clone, Copy)]
pub(crate) struct Logged {
    pub(crate) stop: Stop,
    pub(crate) has_failed: bool,
}

// The view that writes a log: its first cycle, and why the last cycle dispatched nothing.
#[derive(Drop)]
struct Logger<'a> {
    listing: &'a Listing,
    first: u64,
    stall: Option<Stall>,
}

impl View for Logger<'_> {
    ghost use Rattle.std.specs.Prelude.{None, refl};
    ghost use Rattle.rv_log.specs.Log.{cycles_text};
    ghost use Rattle.rv_log.specs.Logging.{IsLogging};

    type Refusal = Infallible;

    ghost has_seen = { λ start logger seen.
        IsLogging start.listing.now logger.listing.now logger.first logger.stall seen };

    ghost text = { λ logger first cycles. cycles_text logger.listing.now first.cycle None cycles };

    ghost has_room = { λ _. Unit {0} };

    ghost nothing_said = { λ _ _. refl };

    fn make_room(&mut self) -> Result<(), Infallible> {
        Ok(())
    }

    fn see<W: Write>(&mut self, cycle: &ShownCycle<'_>, out: &mut Sink<'_, W>) {
        let stalled = Stalled {
            before: self.stall,
            reason: cycle.progress.stall,
        };
        write_cycle(
            out,
            self.listing,
            self.first,
            cycle.number,
            stalled,
            cycle.rows,
        );
        self.stall = cycle.progress.stall;
    }
}

// Writes the begin of a log. Answers whether a write failed.
fn begin<W: Write>(writer: &mut W, listing: &Listing, first: u64, rows: &[Passage]) -> bool
    ensures { Extends false result (W.contents writer.old) (W.contents writer.new)
        (begin_text listing.now first rows.now) }
{
    let mut out = Sink::new(writer);
    write_begin(&mut out, listing, first, rows);
    out.has_failed()
}

/// Runs a pipeline that a predictor guides up to so many cycles, and writes the log as far as no write fails. Asks for no memory.
pub(crate) fn run_logged<S: Simulated, W: Write>(
    pipeline: &mut S,
    predictor: &mut dyn Predictor,
    arrivals: &Arrivals,
    limit: u64,
    listing: &Listing,
    following: Following,
    writer: &mut W,
) -> Logged
    requires { FollowsFrom (S.hardware pipeline.old) following }
    ensures { WritesLog arrivals.now limit listing.now
        (guided (S.hardware pipeline.old) (known predictor.old))
        (guided (S.hardware pipeline.new) (known predictor.new))
        result.stop result.has_failed (W.contents writer.old) (W.contents writer.new) }
{
    let first = pipeline.cycles_done();
    let has_failed = begin(writer, listing, first, following.rows());
    let logger = Logger {
        listing,
        first,
        stall: None,
    };
    let viewed = run_view(
        pipeline, predictor, arrivals, limit, following, logger, has_failed, writer,
    );
    match viewed.stop {
        Ok(stop) => Logged {
            stop,
            has_failed: viewed.has_failed,
        },
    }
}
