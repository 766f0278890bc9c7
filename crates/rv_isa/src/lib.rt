//! The instruction set: registers and operand fields that are in range by type, instructions, exact
//! arithmetic, causes of traps, interrupt lines and their arrivals, memory images, what a broadcast
//! carries, and the machine description with its keys. Every other crate stands on this one.
#![tactic(auto)]

mod arithmetic;
mod arrivals;
mod bounds;
mod broadcast;
mod causes;
mod comparison;
mod csrs;
mod description;
mod fields;
mod images;
mod instructions;
mod issues;
mod keys;
mod line_levels;
mod lines;
mod operations;
mod per_kind;
mod registers;
mod store_bytes;
mod values;

pub use arithmetic::{AluOp, alu};
pub use arrivals::{Arrivals, LAST_CYCLE, MOST_ARRIVALS};
pub use bounds::Bounds;
pub use broadcast::{Message, StoreAccess};
pub use causes::{Cause, Fault};
pub use comparison::branch_taken;
pub use csrs::Csr;
pub use description::Description;
pub use fields::{
    BranchOffset, CsrAddress, CsrImmediate, Immediate, JumpOffset, ShiftAmount, Signed, Unsigned,
    UpperImmediate,
};
pub use images::{Bytes, Image};
pub use instructions::{CsrSource, Instr, kind, sources, target};
pub use issues::Issue;
pub use keys::{Key, KindKey, NumberKey, NumberRow, Place, all_keys, key_name};
pub use lines::{Arrival, Line, Lines};
pub use operations::{Condition, CsrOp, ImmediateOp, Kind, LoadForm, ShiftOp, Width};
pub use per_kind::PerKind;
pub use registers::Reg;
pub use store_bytes::StoreBytes;
pub use values::{
    CacheValues, KindValues, PredictorKind, PredictorValues, Recovery, ReportValues, Values,
};
