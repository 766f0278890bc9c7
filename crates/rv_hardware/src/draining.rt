ghost use Rattle.std.specs.Prelude.{◌≡◌};
ghost use Rattle.rv_hardware.specs.Draining.{is_new_drain, new_drain_cost};

/// Whether a store's access to the cache is under way after a cycle that was not before it, by the cycles in which those
/// are over that are under way before and after it: no two are over in one.
pub fn is_new_drain(before: Option<u64>, after: Option<u64>) -> bool
    ensures { result ≡ is_new_drain before after }
{
    match after {
        Some(end) => before != Some(end),
        None => false,
    }
}

/// What the access costs that began in a cycle, if one did, in cycles, by the same two.
pub fn new_drain_cost(cycle: u64, before: Option<u64>, after: Option<u64>) -> Option<u64>
    ensures { result ≡ new_drain_cost cycle before after }
{
    let end = after?;
    if before == Some(end) {
        return None;
    }
    Some(end.saturating_sub(cycle))
}
