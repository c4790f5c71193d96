//! Which declaration of a file in a set shows a cause.

use crate::lines::put;
use pb_decode::decode;
use pb_descr::{DeclCause, TypeCode, descriptor_pool};
use pb_value::{Content, MessageRef, Value};
use pb_wire::{Limits, MemOutput};
use pbtool_files::Reading;
use std::alloc::{AllocError, Global};

/// What a declaration is.
#[derive(Clone, Copy, Debug, PartialEq, Eq)]
enum Kind {
    File,
    Message,
    Field,
    Oneof,
    Enum,
    EnumValue,
    Service,
    Method,
}

/// A cause that is looked for in a file, which may be of proto3, in a set that is read strictly or leniently.
#[derive(Clone, Copy)]
struct Wanted {
    cause: DeclCause,
    reading: Reading,
    is_proto3: bool,
}

/// A declaration, and the full name of what it is in; of a file its package.
#[derive(Drop)]
struct Declared<'a> {
    kind: Kind,
    scope: String,
    decl: MessageRef<'a>,
}

/// Writes the name of a file of a set, and the full name of its first declaration that shows a cause; of the syntax of a file what it is.
pub(crate) fn put_shown(
    alloc: Global,
    reading: Reading,
    set: &[u8],
    file: usize,
    cause: DeclCause,
    lines: &mut MemOutput,
) {
    let Ok(pool) = descriptor_pool(alloc) else {
        return;
    };
    let Some(set_type) = pool.message_by_name("google.protobuf.FileDescriptorSet") else {
        return;
    };
    let Ok(message) = decode(alloc, &pool, set_type, set, Limits::FULL) else {
        return;
    };
    let Some(decl) = message.message_at(1, file) else {
        return;
    };
    put_text(b"  the file is ", &decl, 1, lines);
    if cause == DeclCause::NotProto3 {
        put_text(b"  its syntax is ", &decl, 12, lines);
        return;
    }
    let wanted = Wanted {
        cause,
        reading,
        is_proto3: text(&decl, 12) == "proto3",
    };
    if let Ok(Some(declared)) = first_shown(alloc, decl, wanted) {
        put_declared(alloc, &declared, lines);
    }
}

/// Writes a line with a string of a declaration, if that is not empty.
fn put_text(before: &[u8], decl: &MessageRef<'_>, number: u32, lines: &mut MemOutput) {
    let text = text(decl, number);
    if text.is_empty() {
        return;
    }
    put(lines, before);
    put(lines, text.as_bytes());
    put(lines, b"\n");
}

/// The first declaration of a file that shows a cause.
fn first_shown<'a>(
    alloc: Global,
    file: MessageRef<'a>,
    wanted: Wanted,
) -> Result<Option<Declared<'a>>, AllocError> {
    let scope = String::from_str(alloc, text(&file, 2))?;
    let mut left = Vec::new(alloc);
    left.push(Declared {
        kind: Kind::File,
        scope,
        decl: file,
    })?;
    for _ in 0..u64::MAX {
        let Some(declared) = left.pop() else {
            return Ok(None);
        };
        if declared.shows(wanted) {
            return Ok(Some(declared.refused_part(alloc, wanted)?));
        }
        declared.push_parts(alloc, &mut left)?;
    }
    Ok(None)
}

impl<'a> Declared<'a> {
    /// Whether it shows the cause itself.
    fn shows(&self, wanted: Wanted) -> bool {
        match wanted.cause {
            DeclCause::MissingName => text(&self.decl, 1).is_empty(),
            DeclCause::Extension => self.extends(wanted.reading),
            DeclCause::NotProto3 => self.kind == Kind::File,
            _ => self.kind == Kind::Field && field_shows(&self.decl, wanted),
        }
    }

    /// Whether it declares an extension or a range of them, or extends a message. What lenient reading leaves out does not count.
    fn extends(&self, reading: Reading) -> bool {
        match self.kind {
            Kind::File => reading == Reading::Strict && list_size(&self.decl, 7) > 0,
            Kind::Message => {
                reading == Reading::Strict
                    && (list_size(&self.decl, 5) > 0 || list_size(&self.decl, 6) > 0)
            }
            Kind::Field => self.decl.has(2),
            _ => false,
        }
    }

    /// The declaration that is refused: where it has extensions and no range of them, the first extension.
    fn refused_part(self, alloc: Global, wanted: Wanted) -> Result<Declared<'a>, AllocError> {
        if wanted.cause != DeclCause::Extension {
            return Ok(self);
        }
        let Some(decl) = self.first_extension() else {
            return Ok(self);
        };
        Ok(Declared {
            kind: Kind::Field,
            scope: self.full_name(alloc)?,
            decl,
        })
    }

    fn first_extension(&self) -> Option<MessageRef<'a>> {
        match self.kind {
            Kind::File => self.decl.message_at(7, 0),
            Kind::Message if list_size(&self.decl, 5) == 0 => self.decl.message_at(6, 0),
            _ => None,
        }
    }

    /// Its full name, which of a file is its package.
    fn full_name(&self, alloc: Global) -> Result<String, AllocError> {
        let mut name = self.scope.clone()?;
        if self.kind == Kind::File {
            return Ok(name);
        }
        if !name.is_empty() {
            name.push_str(".")?;
        }
        name.push_str(text(&self.decl, 1))?;
        Ok(name)
    }

    /// Appends what it declares, the first at the end.
    fn push_parts(&self, alloc: Global, left: &mut Vec<Declared<'a>>) -> Result<(), AllocError> {
        let parts = parts_of(self.kind);
        for done in 0..parts.len() {
            let (number, kind) = parts[parts.len() - 1 - done];
            self.push_list(alloc, number, kind, left)?;
        }
        Ok(())
    }

    /// Appends the declarations of one list, the first at the end.
    fn push_list(
        &self,
        alloc: Global,
        number: u32,
        kind: Kind,
        left: &mut Vec<Declared<'a>>,
    ) -> Result<(), AllocError> {
        let count = list_size(&self.decl, number);
        for done in 0..count {
            if let Some(decl) = self.decl.message_at(number, count - 1 - done) {
                let scope = self.full_name(alloc)?;
                left.push(Declared { kind, scope, decl })?;
            }
        }
        Ok(())
    }
}

/// The lists of what a declaration declares, in the order in which their causes are reported: numbers of fields in descriptor.proto.
fn parts_of(kind: Kind) -> &'static [(u32, Kind)] {
    match kind {
        Kind::File => &[(4, Kind::Message), (5, Kind::Enum), (6, Kind::Service)],
        Kind::Message => &[
            (2, Kind::Field),
            (8, Kind::Oneof),
            (3, Kind::Message),
            (4, Kind::Enum),
        ],
        Kind::Enum => &[(2, Kind::EnumValue)],
        Kind::Service => &[(2, Kind::Method)],
        Kind::Field | Kind::Oneof | Kind::EnumValue | Kind::Method => &[],
    }
}

/// What a declaration is, for a person.
fn kind_name(kind: Kind) -> &'static [u8] {
    match kind {
        Kind::File => b"file",
        Kind::Message => b"message",
        Kind::Field => b"field",
        Kind::Oneof => b"oneof",
        Kind::Enum => b"enum",
        Kind::EnumValue => b"value",
        Kind::Service => b"service",
        Kind::Method => b"method",
    }
}

/// Writes the full name of a declaration, or in what the one without a name is.
fn put_declared(alloc: Global, declared: &Declared<'_>, lines: &mut MemOutput) {
    if text(&declared.decl, 1).is_empty() {
        put_nameless(declared.kind, &declared.scope, lines);
    } else if let Ok(name) = declared.full_name(alloc) {
        put(lines, b"  at ");
        put(lines, name.as_str().as_bytes());
        put(lines, b"\n");
    }
}

fn put_nameless(kind: Kind, scope: &str, lines: &mut MemOutput) {
    put(lines, b"  a ");
    put(lines, kind_name(kind));
    if !scope.is_empty() {
        put(lines, b" in ");
        put(lines, scope.as_bytes());
    }
    put(lines, b" has no name\n");
}

/// A string that a declaration holds; where it is missing, an empty one.
fn text<'a>(decl: &MessageRef<'a>, number: u32) -> &'a str {
    match decl.get(number) {
        Some(Content::One(Value::Text(text))) => text.as_str(),
        _ => "",
    }
}

/// A number that a declaration holds.
fn number_at(decl: &MessageRef<'_>, number: u32) -> Option<i32> {
    match decl.get(number) {
        Some(Content::One(Value::I32(held))) => Some(*held),
        _ => None,
    }
}

/// How many elements a list has.
fn list_size(decl: &MessageRef<'_>, number: u32) -> usize {
    match decl.get(number) {
        Some(Content::List(values)) => values.len(),
        _ => 0,
    }
}

/// Whether a field shows a cause of fields.
fn field_shows(field: &MessageRef<'_>, wanted: Wanted) -> bool {
    match wanted.cause {
        DeclCause::BadLabel => !matches!(label_of(field), 1..=3),
        DeclCause::BadTypeNumber => has_bad_type(field),
        DeclCause::Required => label_of(field) == REQUIRED,
        DeclCause::Group => wanted.is_proto3 && number_at(field, 5) == Some(GROUP),
        DeclCause::DefaultValue => field.has(7),
        _ => false,
    }
}

/// The number of an optional field's label, which is that of a field without a label too.
const OPTIONAL: i32 = 1;

/// The number of a required field's label.
const REQUIRED: i32 = 2;

/// The type number of a group.
const GROUP: i32 = 10;

fn label_of(field: &MessageRef<'_>) -> i32 {
    number_at(field, 4).unwrap_or(OPTIONAL)
}

/// Whether the type is none of those that are known, or there is neither a type nor the name of one.
fn has_bad_type(field: &MessageRef<'_>) -> bool {
    match number_at(field, 5) {
        Some(number) => TypeCode::from_number(number).is_none(),
        None => !field.has(6),
    }
}
