//! The definitions of the infinite-heap machine, and the plain types that they and the layers above
//! speak of: programs, instructions, values, accesses and faults.
#![tactic(auto)]

mod access;
mod arithmetic;
mod fault;
mod instr;
mod lists;
mod operations;
mod program;
mod region;
mod value;

pub use access::{Access, AccessKind, Record};
pub use arithmetic::alu;
pub use fault::{FaultKind, Why};
pub use instr::{Instr, Op, Operation};
pub use lists::{Bytes, HeapNames, Segments};
pub use operations::operation_of;
pub use program::{ElfRefusal, HeapCall, HeapName, Program, Segment};
pub use region::{LOWEST_ADDRESS, MOST_SEGMENT_BYTES, REGION_FROM};
pub use value::{Cell, Value};
