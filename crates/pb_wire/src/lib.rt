//! Varints, records and devices of the wire format.
//!
//! ```rust
//! use pb_wire::{Limits, read_raw, write_raw};
//! use std::test::Fail;
//!
//! fn first_call(rt: HostRuntime) -> Result<(), Fail> {
//!     // The allocator: what takes memory is passed it.
//!     let alloc = rt.alloc();
//!     // Field 1 with the number 150, in a byte more than it needs.
//!     let records = read_raw(alloc, b"\x08\x96\x81\x00", Limits::FULL)?; // each number with its payload, or the one fault
//!     let shortest = write_raw(alloc, &records)?;
//!     assert!(rt; shortest.as_slice() == b"\x08\x96\x01".as_slice());
//!     Ok(())
//! }
//! ```
#![tactic(auto)]

mod device;
mod fault;
mod host;
mod iter;
mod judging;
pub mod laws;
mod limits;
mod memory;
mod open_groups;
mod reading;
mod scan;
mod scan_at;
mod transfer;
mod unknown;
mod varint;
mod writing;
mod zigzag;

pub use device::{DeviceFault, Input, Output};
pub use fault::{Cause, PathStep, RawError, WireFault};
pub use host::{ReadInput, WriteOutput};
pub use iter::{Payload, RecordIter};
pub use judging::judge_raw;
pub use limits::{Limits, MAX_BYTES, MAX_DEPTH};
pub use memory::{FailurePlan, MemInput, MemOutput};
pub use reading::{read_raw, refused};
pub use scan::{
    Number, Scanned, Tag, before_end, left_after, scan_fixed32, scan_fixed64, scan_length,
    scan_number, scan_tag, scan_varint, tag_of,
};
pub use scan_at::{RecordTag, group_end, length_at, number_at, tag_at, varint_at};
pub use transfer::{ReadFault, WriteFault, read_up_to, write_all};
pub use unknown::Unknown;
pub use varint::{VarintBytes, put_varint, read_varint};
pub use writing::{can_write, write_raw};
pub use zigzag::{unzigzag32, unzigzag64, zigzag32, zigzag64};
