//! What a comparison reports.

use pb_schema::MessageId;

/// What a change of a field does to messages of the old type that are read as the new type.
#[derive(Clone, Copy, PartialEq, Eq, Debug)]
pub enum Severity {
    /// Some message of the old type is no encoding for the new type, or the new type reads another value in the field.
    BreaksReading,
    /// The new type has no such field: its records become unknown, which are kept and written back.
    Loses,
    /// The value is kept, but not whether it was set: a default of one of the two fields counts as set, and of the other it does not.
    ChangesPresence,
    /// The value is kept, in another kind or shape.
    Converts,
    /// The field has another name, which matters to JSON and to source code alone.
    Renames,
}

/// A difference between two types at the field of a number that the old type has.
#[derive(Clone, Copy, PartialEq, Eq, Debug)]
pub struct Difference {
    pub number: u32,
    pub severity: Severity,
}

/// How two types were reached: by a field that holds messages, of two types that were compared before.
#[derive(Clone, Copy, PartialEq, Eq, Debug)]
pub struct Step {
    /// The index of those two types in the comparison.
    pub from: usize,
    /// The field's number.
    pub field: u32,
}

/// Two message types, one of the old pool and one of the new one, with all differences between them, by rising field number.
#[derive(PartialEq, Eq, Debug, Drop)]
pub struct ComparedTypes {
    pub old: MessageId,
    pub new: MessageId,
    /// None for the types that the comparison began with.
    pub reached_by: Option<Step>,
    pub differences: Vec<Difference>,
}
