//! The reader of pieces: its state, the steps by which it takes bytes, and which fault it reports.

pub(crate) mod close;
pub(crate) mod fault;
pub(crate) mod record;
pub(crate) mod start;
pub(crate) mod state;
pub(crate) mod step;
