ghost use Rattle.std.specs.Prelude.{◌≡◌, ◌+◌, ◌^◌, ◌*◌, ◌<◌, ◌≤◌, None, take};
ghost use Rattle.rv_isa.specs.Bytes.{number_of};
ghost use Rattle.rv_isa.specs.Operation.{bytes_of, width_of, is_sign_extended};
ghost use Rattle.rv_arch.specs.Effect.{extended, loads};
ghost use Rattle.rv_stations.specs.Waiting.{IsVerdict};
ghost use Rattle.rv_stores.specs.Queue.{older_than};
ghost use Rattle.rv_core.specs.Access.{IsLoaded, IsOverRam, cache_after, cost_by, path_of_load, port_free_by};
ghost use Rattle.rv_core.specs.Load.{load_fault, is_forwarded, path_of, bytes_over, may_go, needs_port};

use crate::execute::{address, computed, faulted};
use rv_arch::extended;
use rv_cache::Cache;
use rv_isa::{Cause, Immediate, Instr, LoadForm, Message, Reg, Width};
use rv_memory::Ram;
use rv_stations::{Operand, Ready, Verdict, Waiting};
use rv_stores::StoreQueue;

/// Where a load takes its bytes from.
#[derive(Clone, Copy)]
enum Path {
    /// It faults.
    Without(Cause),
    /// Every byte comes from older stores.
    FromStores([Option<u8>; 4]),
    /// The cache is accessed; the bytes that older stores give are laid over.
    FromCache([Option<u8>; 4]),
}

// The fault of an access, if it has one: alignment is tested before the range.
fn load_fault(ram: &Ram, address: u32, width: Width) -> Option<Cause>
    ensures { result ≡ load_fault ram.now.layout address (bytes_of width) }
{
    if address % width.bytes() != 0 {
        Some(Cause::LoadAddressMisaligned)
    } else if !ram.in_range(address, width.bytes()) {
        Some(Cause::LoadAccessFault)
    } else {
        None
    }
}

// Whether the stores forward every byte that is read.
fn is_forwarded(overlay: &[Option<u8>; 4], width: Width) -> bool
    ensures { result ≡ is_forwarded overlay.now (bytes_of width) }
{
    match width {
        Width::Byte => overlay[0].is_some(),
        Width::Half => overlay[0].is_some() && overlay[1].is_some(),
        Width::Word => {
            overlay[0].is_some()
                && overlay[1].is_some()
                && overlay[2].is_some()
                && overlay[3].is_some()
        }
    }
}

fn path_of(cache: &Cache<Ram>, queue: &StoreQueue, seq: u64, address: u32, width: Width) -> Path
    ensures { result ≡ path_of cache.now.backing.layout (older_than seq queue.now.stores) address (bytes_of width) }
{
    if let Some(cause) = load_fault(cache.backing(), address, width) {
        return Path::Without(cause);
    }
    let overlay = queue.overlay(seq, address, width.bytes() as usize);
    if is_forwarded(&overlay, width) {
        return Path::FromStores(overlay);
    }
    Path::FromCache(overlay)
}

fn laid_over(overlay: &[Option<u8>; 4], bytes: [u8; 4]) -> [u8; 4]
    ensures { result ≡ bytes_over overlay.now bytes }
{
    [
        overlay[0].unwrap_or(bytes[0]),
        overlay[1].unwrap_or(bytes[1]),
        overlay[2].unwrap_or(bytes[2]),
        overlay[3].unwrap_or(bytes[3]),
    ]
}

// The number that the first bytes make, the lowest byte first.
fn number_of(bytes: [u8; 4], width: Width) -> u32
    ensures number { result ≡ number_of (take (bytes_of width) bytes) }
    ensures fits { result < 2 ^ (8 * bytes_of width) }
{
    match width {
        Width::Byte => u32::from(bytes[0]),
        Width::Half => u32::from(u16::from_le_bytes([bytes[0], bytes[1]])),
        Width::Word => u32::from_le_bytes(bytes),
    }
}

// The value of a load of these bytes, extended by its sign or by zeros.
fn value_of(form: LoadForm, bytes: [u8; 4]) -> u32
    ensures { result ≡ extended (is_sign_extended form) (bytes_of (width_of form))
        (number_of (take (bytes_of (width_of form)) bytes)) }
{
    extended(form, number_of(bytes, form.width()))
}

// Whether a waiting access may go: a load waits until every older store was broadcast, and for the port where it
// needs it. A store that was not is older than each younger load too.
pub(crate) fn verdict(
    cache: &Cache<Ram>,
    queue: &StoreQueue,
    first_unknown: Option<u64>,
    port_idle: bool,
    waiting: &Waiting,
) -> Verdict
    ensures { IsVerdict (may_go cache.now.backing.layout queue.now.stores first_unknown port_idle) waiting.now result }
{
    let Instr::Load { form, offset, .. } = waiting.instruction else {
        return Verdict::Goes;
    };
    if let Some(unknown) = first_unknown {
        if unknown < waiting.seq {
            return Verdict::LoadsWait;
        }
    }
    if port_idle {
        return Verdict::Goes;
    }
    let Operand::Value(base) = waiting.first else {
        return Verdict::Waits;
    };
    if needs_port(
        cache,
        queue,
        waiting.seq,
        address(base, offset),
        form.width(),
    ) {
        Verdict::Waits
    } else {
        Verdict::Goes
    }
}

// Whether a load accesses the cache. Most loads that wait are refused before this is asked, so it stands apart.
#[inline(never)]
fn needs_port(cache: &Cache<Ram>, queue: &StoreQueue, seq: u64, address: u32, width: Width) -> bool
    ensures { result ≡ needs_port
        (path_of cache.now.backing.layout (older_than seq queue.now.stores) address (bytes_of width)) }
{
    path_of(cache, queue, seq, address, width).needs_port()
}

impl Path {
    // Whether the cache is accessed.
    fn needs_port(&self) -> bool
        ensures { result ≡ needs_port self.now }
    {
        matches!(self, Path::FromCache(_))
    }
}

/// What an execution gives, how many cycles it takes, and from when on the port is idle.
#[derive(Clone, Copy)]
pub(crate) struct Executed {
    pub(crate) message: Message,
    pub(crate) cost: u32,
    pub(crate) port_free: u64,
}

/// What the time of an execution depends on.
#[derive(Clone, Copy)]
pub(crate) struct Times {
    /// The cycles of the unit, and those of a load to which stores forward all bytes.
    pub(crate) latency: u32,
    pub(crate) forward: u32,
    /// The number of the cycle, and the first one in which the port is idle.
    pub(crate) cycle: u64,
    pub(crate) port_free: u64,
}

/// Loads from the stores older than an instruction, and from the cache where they do not forward all bytes.
pub(crate) fn load(
    cache: &mut Cache<Ram>,
    queue: &StoreQueue,
    times: &Times,
    ready: &Ready,
    form: LoadForm,
    rd: Reg,
    offset: Immediate,
) -> Executed
    requires over_ram { IsOverRam cache.old }
    requires cycle { times.now.cycle ≤ 2 ^ 40 }
    ensures cost { result.cost ≡ cost_by times.now cache.old (path_of_load cache.old queue.now ready.now form offset) }
    ensures port { result.port_free
        ≡ port_free_by times.now cache.old (path_of_load cache.old queue.now ready.now form offset) }
    ensures cache { cache.new ≡ cache_after cache.old (path_of_load cache.old queue.now ready.now form offset) }
    ensures message { IsLoaded cache.old queue.now ready.now form rd offset result.message }
{
    let place = address(ready.first, offset);
    let width = form.width();
    match path_of(cache, queue, ready.seq, place, width) {
        Path::Without(cause) => Executed {
            message: faulted(cause, place),
            cost: times.latency,
            port_free: times.port_free,
        },
        Path::FromStores(overlay) => {
            let value = value_of(form, laid_over(&overlay, [0; 4]));
            Executed {
                message: computed(rd, value, ready.pc),
                cost: times.forward,
                port_free: times.port_free,
            }
        }
        Path::FromCache(overlay) => {
            let (bytes, cost) = cache.read(place, width.bytes() as usize);
            let value = value_of(form, laid_over(&overlay, bytes));
            Executed {
                message: computed(rd, value, ready.pc),
                cost,
                port_free: times.cycle + u64::from(cost),
            }
        }
    }
}
