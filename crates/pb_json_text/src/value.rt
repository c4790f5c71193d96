//! JSON values (RFC 8259, section 3).

/// A JSON value, and the byte where it begins, counted from 0.
#[cycle(json)]
#[derive(Debug, PartialEq, Drop)]
pub struct JsonValue {
    pub at: usize,
    pub form: JsonForm,
}

/// What a JSON value is.
#[cycle(json)]
#[derive(Debug, PartialEq, Drop)]
pub enum JsonForm {
    Null,
    Bool(bool),
    /// A number by its characters, as they are written.
    Number(Vec<u8>),
    /// A string by its characters, each escape in place of which its character is.
    String(String),
    Array(Vec<JsonValue>),
    /// The members in order; a name may come twice.
    Object(Vec<JsonMember>),
}

/// A member of an object, and the byte where its name begins.
#[cycle(json)]
#[derive(Debug, PartialEq, Drop)]
pub struct JsonMember {
    pub at: usize,
    pub name: String,
    pub value: JsonValue,
}
