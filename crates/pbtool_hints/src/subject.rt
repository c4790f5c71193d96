//! What a command reads.

use pbtool_files::Reading;

/// A message type: its full name, in the descriptor set of a file that is read strictly or leniently.
#[derive(Clone, Copy, Debug, PartialEq, Eq)]
pub struct TypeOf<'a> {
    pub reading: Reading,
    pub set: &'a str,
    pub name: &'a str,
}

/// What a command reads, of which a refusal speaks.
#[derive(Clone, Copy, Debug, PartialEq, Eq)]
pub enum Subject<'a> {
    /// The records of a file.
    Records {
        file: &'a str,
    },
    /// The messages of a type that a file holds.
    Messages {
        message_type: TypeOf<'a>,
        file: &'a str,
    },
    /// A descriptor set.
    Set {
        reading: Reading,
        file: &'a str,
    },
    /// Sources, and their imports, under a first root and others.
    Sources {
        reading: Reading,
        root: &'a str,
        others: &'a [&'a str],
    },
}

/// A descriptor set of a file, which is read strictly or leniently.
#[derive(Clone, Copy, Debug, PartialEq, Eq)]
pub(crate) struct SetAt<'a> {
    pub reading: Reading,
    pub file: &'a str,
}

impl<'a> Subject<'a> {
    /// The descriptor set that is read, if one is.
    pub(crate) fn set(&self) -> Option<SetAt<'a>> {
        match self {
            Subject::Messages {
                message_type,
                file: _,
            } => Some(SetAt {
                reading: message_type.reading,
                file: message_type.set,
            }),
            Subject::Set { reading, file } => Some(SetAt {
                reading: *reading,
                file,
            }),
            Subject::Records { .. } | Subject::Sources { .. } => None,
        }
    }
}
