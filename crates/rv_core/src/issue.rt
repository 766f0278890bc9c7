ghost use Rattle.std.specs.Prelude.{◌≡◌, ◌+◌, ◌^◌, ◌<◌, ◌≤◌, IsTrue, true, false, is_some, length, IfSome};
ghost use Rattle.rv_isa.specs.PerKind.{at_kind, with_kind};
ghost use Rattle.rv_stations.specs.Pool.{issued as taken_from};
ghost use Rattle.rv_stations.specs.Waiting.{ArePassedBy, next_ready, ready_taken};
ghost use Rattle.rv_units.specs.Bus.{holds, with_result};
ghost use Rattle.rv_units.specs.Pool.{is_free, started as started_unit};
ghost use Rattle.rv_core.specs.Access.{IsExecuted, IsOverRam, cache_after, cost_by, path_of_ready, port_free_by};
ghost use Rattle.rv_core.specs.Load.{goes_over};

use crate::execute::result_of;
use crate::load::{Executed, Times, load, verdict};
use crate::parts::Parts;
use rv_cache::Cache;
use rv_isa::{Instr, Issue, Kind};
use rv_memory::Ram;
use rv_rob::Rob;
use rv_stations::{Ready, Stations, Taken, Verdict};
use rv_stores::StoreQueue;
use rv_units::{Bus, Units};

impl Parts {
    ghost use Rattle.rv_hardware.specs.Issue.{issue, issue_kind, issue_turn};
    ghost use Rattle.rv_core.specs.Passed.{NoneIssues};
    ghost use Rattle.rv_core.specs.Turns.{turn_of};

    /// Issue: for each kind, while a unit is free, the oldest ready instruction leaves its station.
    pub(crate) fn issue(&mut self)
        ensures { self.new ≡ issue self.old }
    {
        self.issue_kind(Kind::Alu);
        self.issue_kind(Kind::Mul);
        self.issue_kind(Kind::Div);
        self.issue_kind(Kind::Mem);
    }

    #[inline(always)]
    fn issue_kind(&mut self, kind: Kind)
        ensures { self.new ≡ issue_kind kind self.old }
    {
        // Mostly nothing of a kind waits.
        if self.stations.is_empty(kind) {
            return;
        }
        let mut passed = 0;
        for _ in 0..self.values.kinds.get(kind).units {
            let Some(still_passed) = self.issue_one(kind, passed) else {
                return;
            };
            passed = still_passed;
        }
    }

    // Issues the oldest ready instruction of a kind. A search passes by the oldest so many, of which none may issue;
    // what is returned is how many the next one passes by, and nothing where the phase ends.
    #[inline(always)]
    fn issue_one(&mut self, kind: Kind, passed: usize) -> Option<usize>
        requires { NoneIssues kind passed self.old }
        ensures turn { turn_of (is_some result) self.new ≡ issue_turn kind self.old }
        ensures passed { IfSome result (λ passed. NoneIssues kind passed self.new) }
    {
        // Mostly none has its operands: what follows has the large variables.
        if !self.stations.may_be_ready(kind) {
            return None;
        }
        self.issue_ready(kind, passed)
    }

    // The same, where an instruction of the kind may have its operands.
    #[inline(always)]
    fn issue_ready(&mut self, kind: Kind, passed: usize) -> Option<usize>
        requires { NoneIssues kind passed self.old }
        ensures turn { turn_of (is_some result) self.new ≡ issue_turn kind self.old }
        ensures passed { IfSome result (λ passed. NoneIssues kind passed self.new) }
    {
        if !self.units.free(kind, self.cycle) {
            return None;
        }
        let port_idle = self.is_port_idle();
        let Some(taken) = take_ready(
            &mut self.stations,
            kind,
            passed,
            &self.cache,
            &self.stores,
            port_idle,
        ) else {
            return None;
        };
        let ready = taken.ready;
        let times = Times {
            latency: self.values.kinds.get(kind).latency,
            forward: self.values.forward,
            cycle: self.cycle,
            port_free: self.port_free,
        };
        let executed = execute(&mut self.cache, &self.stores, &times, &ready);
        self.port_free = executed.port_free;
        let issue = Issue {
            cycle: self.cycle,
            cost: executed.cost,
        };
        hold_unit(&mut self.units, kind, issue);
        accept(&mut self.bus, ready.seq, issue);
        self.rob.start(ready.seq, issue, executed.message);
        Some(taken.passed)
    }
}

// Executes an instruction with the values of its registers.
fn execute(cache: &mut Cache<Ram>, queue: &StoreQueue, times: &Times, ready: &Ready) -> Executed
    requires over_ram { IsOverRam cache.old }
    requires cycle { times.now.cycle ≤ 2 ^ 40 }
    ensures cost { result.cost ≡ cost_by times.now cache.old (path_of_ready cache.old queue.now ready.now) }
    ensures port { result.port_free ≡ port_free_by times.now cache.old (path_of_ready cache.old queue.now ready.now) }
    ensures cache { cache.new ≡ cache_after cache.old (path_of_ready cache.old queue.now ready.now) }
    ensures message { IsExecuted cache.old queue.now ready.now result.message }
{
    match ready.instruction {
        Instr::Load {
            form,
            rd,
            offset,
            ..
        } => load(cache, queue, times, ready, form, rd, offset),
        _ => Executed {
            message: result_of(cache.backing(), ready),
            cost: times.latency,
            port_free: times.port_free,
        },
    }
}

// Takes the oldest instruction of a kind that is ready and may go, which is none of the oldest so many.
#[inline(always)]
fn take_ready(
    stations: &mut Stations,
    kind: Kind,
    passed: usize,
    cache: &Cache<Ram>,
    queue: &StoreQueue,
    port_idle: bool,
) -> Option<Taken>
    requires { ArePassedBy (goes_over kind cache.now queue.now port_idle) passed (at_kind kind stations.old).waiting }
    ensures oldest { ready_taken result
        ≡ next_ready (goes_over kind cache.now queue.now port_idle) (at_kind kind stations.old).waiting }
    ensures others { stations.new
        ≡ with_kind kind
        (taken_from (goes_over kind cache.now queue.now port_idle) (at_kind kind stations.old)) stations.old }
    ensures passed { IfSome result
        (λ taken. ArePassedBy (goes_over kind cache.now queue.now port_idle) taken.passed
        (at_kind kind stations.new).waiting) }
{
    if kind == Kind::Mem {
        let first_unknown = queue.first_unknown();
        return stations.take_oldest_ready(Kind::Mem, passed, |waiting| {
            verdict(cache, queue, first_unknown, port_idle, waiting)
        });
    }
    stations.take_oldest_ready(kind, passed, |_| Verdict::Goes)
}

// An execution holds a unit of its kind.
#[inline(always)]
fn hold_unit(units: &mut Units, kind: Kind, issue: Issue)
    requires { IsTrue (is_free issue.cycle (at_kind kind units.old)) }
    ensures { units.new ≡ with_kind kind (started_unit issue.cost issue.cycle (at_kind kind units.old)) units.old }
{
    units.start(kind, issue.cost, issue.cycle);
}

// A result waits for its broadcast.
fn accept(bus: &mut Bus, seq: u64, issue: Issue)
    requires cycle { issue.cycle ≤ 2 ^ 40 }
    requires room { length bus.old.results < bus.old.capacity }
    requires absent { holds seq bus.old.results ≡ false }
    ensures { bus.new ≡ with_result seq (issue.cycle + issue.cost) bus.old }
{
    bus.accept(seq, issue.cycle + u64::from(issue.cost));
}
