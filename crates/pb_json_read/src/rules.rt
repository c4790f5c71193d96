//! What is read beyond what a strict reader takes.

/// Whether names that are not declared are refused.
#[derive(Clone, Copy, Debug, PartialEq, Eq)]
pub enum JsonRules {
    /// They are.
    Strict,
    /// A member whose name no field has is passed over, and so is the value of an enum whose name is not declared.
    Lenient,
}
