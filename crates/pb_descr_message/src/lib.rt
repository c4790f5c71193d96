//! The message of a descriptor set: what it declares, why it is refused, and which message declarations are
//! written as.
//!
//! An inner crate: `pb_descr` reads this message from bytes and writes it as bytes.
#![tactic(auto)]

mod bodies;
mod cause;
mod checking;
mod contents;
mod declaring;
mod error;
mod held;
pub mod laws;
mod messages;
mod omitted;
mod omitting;
mod pool;
mod ranges;
mod stripping;

pub use cause::DeclCause;
pub use checking::first_cause;
pub use declaring::{Declared, list_in};
pub use error::{DescrError, WriteSetError};
pub use held::values_at;
pub use messages::set_body;
pub use omitted::{Omitted, OmittedPart};
pub use omitting::omitted_in;
pub use pool::{SET, descriptor_pool};
pub use stripping::strip_set;
