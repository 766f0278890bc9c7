ghost use Rattle.std.specs.Prelude.{◌≡◌, take, IfOk, OnErr};
ghost use Rattle.rv_hardware.specs.Guided.{guided};
ghost use Rattle.rv_path.specs.PathAccount.{IsPathAccount};
ghost use Rattle.rv_path.specs.Run.{HasOneAnswer};
ghost use Rattle.rv_causes.specs.Text.{ranked};
ghost use Rattle.rv_view.specs.Run.{HasRun};

use crate::running::run_accounted;
use rv_causes::{Account, Share, rank, write_sentences};
use rv_front::Predictor;
use rv_isa::Arrivals;
use rv_source::Listing;
use rv_text::Sink;
use rv_watch::Simulated;
use std::alloc::{AllocError, Global};
use std::io::Write;
use std::marker::Model;

/// The most causes that are ranked.
const MOST_RANKED: usize = 33;

/// The most causes that have a sentence.
const MOST_SENTENCES: usize = 3;

/// How many cycles of a run each cause has on its critical path, that to the last retirement, trap or interrupt, and
/// each word of the program.
#[derive(Drop)]
pub struct PathAccount {
    account: Account,
    // Those of the three causes with the most, the greatest first.
    shares: Vec<Share>,
    ghost greatest: { shares.items ≡ take 3 (ranked account.causes) },
}

impl Model for PathAccount {
    ghost use Rattle.rv_causes.specs.Account.{Accounted};
    ghost use Rattle.rv_causes.specs.Window.{accounted};

    ghost Value = { Accounted };

    ghost view = { λ path. accounted path.account };
}

impl PathAccount {
    ghost use Rattle.rv_causes.specs.Account.{cycles_at};
    ghost use Rattle.rv_causes.specs.Sentence.{sentences};
    ghost use Rattle.rv_text.specs.Said.{Says};

    /// How many cycles of the path are on account of the word at an address; none where it is no word that an event of
    /// the path names.
    pub fn cycles_at(&self, address: u32) -> u64
        ensures { result ≡ cycles_at address self.now.words }
    {
        self.account.words.cycles_at(address)
    }

    /// Writes a sentence for each of the three causes with the most cycles, but those before the first event and after
    /// the last step, a line for each: its share of the cycles, its name, and the line of the program with most of its
    /// cycles, if a line has any. A cause that has no cycles has no sentence.
    pub fn write_sentences<W: Write>(&self, out: &mut Sink<'_, W>, listing: &Listing)
        ensures { Says W.contents out.old out.new (sentences listing.now self.now) }
    {
        write_sentences(out, listing, &self.account, self.shares.as_slice());
    }
}

/// Runs a pipeline that a predictor guides, each cycle with the lines of its number, up to a breakpoint, a stale word,
/// exhaustion or so many cycles, and answers the account of its critical path, that to its last retirement, trap or
/// interrupt. The only error is out of memory: then the run was cut short or not begun, and the pipeline stands at the
/// end of a cycle.
pub fn account_path<S: Simulated>(
    alloc: Global,
    pipeline: &mut S,
    predictor: &mut dyn Predictor,
    arrivals: &Arrivals,
    limit: u64,
) -> Result<PathAccount, AllocError>
    ensures accounted { IfOk result (λ path. IsPathAccount arrivals.now limit
        (guided (S.hardware pipeline.old) (known predictor.old))
        (guided (S.hardware pipeline.new) (known predictor.new)) path) }
    // With a described predictor the account is a function of what it is the account of.
    ensures one_account { HasOneAnswer limit (IsPathAccount arrivals.now limit) }
    ensures run { OnErr result (HasRun arrivals.now (guided (S.hardware pipeline.old) (known predictor.old))
        (guided (S.hardware pipeline.new) (known predictor.new))) }
{
    let mut shares = Vec::with_capacity(alloc, MOST_RANKED)?;
    let done = run_accounted(alloc, pipeline, predictor, arrivals, limit)?;
    rank(&done.account.causes, &mut shares);
    shares.truncate(MOST_SENTENCES);
    Ok(PathAccount {
        account: done.account,
        shares,
    })
}
