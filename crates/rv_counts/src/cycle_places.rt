ghost use Rattle.std.specs.Prelude.{◌≡◌, ◌≤◌, IfSome, length};
ghost use Rattle.rv_isa.specs.Instruction.{kind_of_word};
ghost use Rattle.rv_counts.specs.Found.{count_serialising, count_stationed};
ghost use Rattle.rv_counts.specs.Places.{dispatched_in, has_no_station, has_serialising};
ghost use Rattle.rv_counts.specs.Places.{loss_in, loss_of, loss_of_kind, places_by};
ghost use Rattle.rv_counts.specs.declared.run_places.Loss.TheVariants.{Fetch};

use crate::in_flight::{Found, count_dispatched, count_found};
use crate::place_uses::{count_retired, count_traps, flush_of};
use crate::run_places::{CyclePlaces, Loss};
use rv_decode::Decoded;
use rv_front::{Fetched, Front};
use rv_hardware::Step;
use rv_isa::{Kind, Values};
use rv_rob::Rob;

// What a cycle made of the places for dispatch that it had.
#[derive(Clone, Copy)]
struct Dispatch {
    // How many instructions were dispatched in it.
    count: usize,
    // Why its other places are lost.
    loss: Loss,
}

// Whether all stations of a kind are taken, where so many instructions are in them.
fn has_no_station(values: &Values, rob: &Rob, stationed: usize, kind: Kind) -> bool
    requires { stationed ≡ count_stationed kind rob.now }
    ensures { result ≡ has_no_station values.now rob.now kind }
{
    let stations = values.kinds.get(kind).stations;
    stations as usize <= stationed
}

fn loss_of_kind(values: &Values, rob: &Rob, stationed: usize, kind: Option<Kind>) -> Loss
    requires { IfSome kind (λ k. stationed ≡ count_stationed k rob.now) }
    ensures { result ≡ loss_of_kind values.now rob.now kind }
{
    match kind {
        Some(kind) => {
            if has_no_station(values, rob, stationed, kind) {
                Loss::Station(kind)
            } else {
                Loss::Store
            }
        }
        None => Loss::Store,
    }
}

// Whether a serialising instruction is in flight, where so many are.
fn has_serialising(rob: &Rob, serialising: usize) -> bool
    requires { serialising ≡ count_serialising rob.now }
    ensures { result ≡ has_serialising rob.now }
{
    serialising != 0
}

// What an instruction waits for that was not dispatched, where so many serialising ones are in flight, and so many are in the
// stations of its kind.
fn loss_of(
    values: &Values,
    rob: &Rob,
    serialising: usize,
    stationed: usize,
    instruction: &Decoded,
) -> Loss
    requires serialising { serialising ≡ count_serialising rob.now }
    requires stationed { IfSome (kind_of_word instruction.now) (λ k. stationed ≡ count_stationed k rob.now) }
    ensures { result ≡ loss_of values.now rob.now instruction.now }
{
    if has_serialising(rob, serialising) {
        Loss::Serial
    } else if rob.is_full() {
        Loss::Rob
    } else {
        loss_of_kind(values, rob, stationed, instruction.kind())
    }
}

// The kind of an instruction's unit; of one with none it is any.
fn kind_sought(instruction: &Decoded) -> Kind
    ensures { IfSome (kind_of_word instruction.now) (λ k. result ≡ k) }
{
    match instruction.kind() {
        Some(kind) => kind,
        None => Kind::Alu,
    }
}

// With a word that was not dispatched: one walk counts all.
fn dispatch_before(cycle: u64, values: &Values, rob: &Rob, fetched: &Fetched) -> Dispatch
    ensures count { result.count ≡ dispatched_in cycle rob.now }
    ensures few { result.count ≤ length rob.now.entries }
    ensures loss { result.loss ≡ loss_of values.now rob.now fetched.now.instruction }
{
    let Found {
        dispatched,
        serialising,
        stationed,
    } = count_found(rob, cycle, kind_sought(&fetched.instruction));
    Dispatch {
        count: dispatched,
        loss: loss_of(values, rob, serialising, stationed, &fetched.instruction),
    }
}

// With no word to dispatch.
fn dispatch_of_all(cycle: u64, rob: &Rob) -> Dispatch
    ensures count { result.count ≡ dispatched_in cycle rob.now }
    ensures few { result.count ≤ length rob.now.entries }
    ensures loss { result.loss ≡ Fetch }
{
    Dispatch {
        count: count_dispatched(rob, cycle),
        loss: Loss::Fetch,
    }
}

// What the cycle that left the buffers made of its places.
fn dispatch_in(cycle: u64, values: &Values, rob: &Rob, front: &Front) -> Dispatch
    ensures count { result.count ≡ dispatched_in cycle rob.now }
    ensures few { result.count ≤ length rob.now.entries }
    ensures loss { result.loss ≡ loss_in cycle values.now rob.now front.now }
{
    match front.peek() {
        Some(fetched) if fetched.cycle < cycle => dispatch_before(cycle, values, rob, fetched),
        _ => dispatch_of_all(cycle, rob),
    }
}

/// The places of a cycle of a described machine, by its number, how many instructions were in the reorder buffer before it, its
/// steps, and the buffers that it left.
#[inline(always)]
pub fn places_by(
    values: &Values,
    cycle: u64,
    before: usize,
    steps: &[Step],
    rob: &Rob,
    front: &Front,
) -> CyclePlaces
    requires before { before ≤ 256 }
    requires after { length rob.now.entries ≤ 256 }
    ensures { result ≡ places_by values.now cycle before steps.now rob.now front.now }
{
    let dispatch = dispatch_in(cycle, values, rob, front);
    let retired = count_retired(steps);
    let trapped = count_traps(steps);
    let squashed = (before + dispatch.count)
        .saturating_sub(retired)
        .saturating_sub(trapped)
        .saturating_sub(rob.len());
    let width = values.dispatch_width as usize;
    CyclePlaces {
        retired: retired as u64,
        trapped: trapped as u64,
        squashed: squashed as u64,
        flush: flush_of(steps),
        lost: width.saturating_sub(dispatch.count) as u64,
        loss: dispatch.loss,
    }
}
