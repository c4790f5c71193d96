//! The commands.

use pb_compat_lines::Readers;
use pb_json::Layout;
use pb_json_read::JsonRules;
use pb_listing::FloatForm;
use pb_text::TextForm;
use pbtool_files::Reading;

/// Where messages and their type are read: the file of the messages, and the type's name in the descriptor set of another
/// file, which is read strictly or leniently.
#[derive(Clone, Copy, Debug, PartialEq, Eq)]
pub struct Source<'a> {
    pub reading: Reading,
    pub set: &'a str,
    pub type_name: &'a str,
    pub file: &'a str,
}

/// Where sources are looked for: under the root, and one that is not there under the first of the others that has it. They are read
/// strictly or leniently.
#[derive(Clone, Copy, Debug, PartialEq, Eq)]
pub struct Roots<'a> {
    pub reading: Reading,
    pub root: &'a str,
    pub others: &'a [&'a str],
}

/// Which descriptor sets are compared, and for which readers: those of two files, read strictly or leniently. A full name says of which
/// message type; without one all types are compared.
#[derive(Clone, Copy, Debug, PartialEq, Eq)]
pub struct Comparison<'a> {
    pub reading: Reading,
    pub old: &'a str,
    pub new: &'a str,
    pub type_name: Option<&'a str>,
    pub readers: Readers,
}

/// How the records of a file are shown.
#[derive(Clone, Copy, Debug, PartialEq, Eq)]
pub enum RawForm {
    /// A line each.
    Listing,
    /// A line each, but a payload that is a list of records itself is listed as a message.
    Nested,
    /// Their shortest encoding, as one line of hexadecimal.
    Shortest,
}

/// How the messages of a stream are printed.
#[derive(Clone, Copy, Debug, PartialEq, Eq)]
pub enum FrameForm {
    /// Each as a line that says where its frame is, and its listing, with floats in a form.
    Listing(FloatForm),
    /// Each as its JSON text on one line.
    Json,
}

/// A command with its values.
#[derive(Clone, Copy, Debug, PartialEq, Eq)]
pub enum Command<'a> {
    /// Shows the records of a file in a form.
    Raw {
        form: RawForm,
        file: &'a str,
    },
    /// Says that a file is a message of a type.
    Check {
        source: Source<'a>,
    },
    /// Shows the message of a file, with its floats in a form.
    Show {
        floats: FloatForm,
        source: Source<'a>,
    },
    /// Writes the canonical bytes of a file's message: as a line of hexadecimal, or to the file `out`.
    Canon {
        out: Option<&'a str>,
        source: Source<'a>,
    },
    /// Writes the message of a file as JSON.
    Json {
        layout: Layout,
        source: Source<'a>,
    },
    /// Writes the message of a file in a form of the text format.
    Text {
        form: TextForm,
        source: Source<'a>,
    },
    /// Writes the canonical bytes of the message that a file holds as JSON, by rules, to the file `out`.
    FromJson {
        rules: JsonRules,
        out: &'a str,
        source: Source<'a>,
    },
    /// Shows the messages of a file, each after its length, in a form.
    Frames {
        form: FrameForm,
        source: Source<'a>,
    },
    /// Shows the messages of a file as `Frames` does, but passes over those that are refused, and reports them at the end.
    AllFrames {
        form: FrameForm,
        source: Source<'a>,
    },
    /// Shows what a descriptor set declares, and what reading left out of it: all of it, or the message type or enum of a name.
    Types {
        reading: Reading,
        set: &'a str,
        name: Option<&'a str>,
    },
    /// Writes the descriptor set of files, which are sources under roots, and of their imports to the file `out`.
    Compile {
        roots: Roots<'a>,
        out: &'a str,
        names: &'a [&'a str],
    },
    /// Shows what happens to messages of the types of one descriptor set that are read by those of another.
    Compat {
        comparison: Comparison<'a>,
    },
}
