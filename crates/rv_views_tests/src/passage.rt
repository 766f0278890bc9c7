use crate::machine::{described, pipeline};
use rv_core::Pipeline;
use rv_isa::Values;
use rv_passage::Table;
use rv_watch::Simulated;
use std::alloc::{AllocError, Global};

// A table that begins with what is in flight in a pipeline.
fn begun(alloc: Global, pipeline: &Pipeline) -> Result<Table, AllocError> {
    let shown = pipeline.shown();
    // Of hardware that a reset and cycles lead to, the buffers are as long as described.
    let _ = shown.cycles_done();
    Table::begin(alloc, shown.reorder_buffer(), shown.front())
}

// What becomes of instructions in a run is tested by the pictures and logs that stand on tables.
#[test]
fn nothing_is_in_flight_at_reset(rt: HostRuntime) {
    let pipeline = pipeline(&rt, rt.alloc(), &described(&rt, Values::standard()), &[]);
    let mut table = begun(rt.alloc(), &pipeline).expect(&rt, "memory");
    assert!(&rt; table.make_room().is_ok());
    assert!(&rt; table.rows().is_empty());
    assert!(&rt; table.interrupts().is_empty());
}
