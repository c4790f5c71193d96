//! Sets made to hurt: messages that nest deep, names of many words, many files, and many fields, ranges and reserved names in one message.

use super::declarations::is_message;
use super::rows::{answers, files_answer};
use super::set_bytes::{put_number, put_record, with_record};
use pb_descr::{FieldDecl, FileDecl, MessageDecl, write_set};
use pb_link::{LinkError, link, to_decls};
use pb_schema::Pool;
use std::alloc::{AllocError, Global};
use std::test::Fail;

/// A field of the innermost message N around it.
fn around(alloc: Global) -> Result<FieldDecl, AllocError> {
    let name = String::from_str(alloc, "around")?;
    let type_name = String::from_str(alloc, "N")?;
    Ok(FieldDecl {
        name,
        number: 1,
        repeated: false,
        ty: None,
        type_name: Some(type_name),
        packed: None,
        oneof: None,
        proto3_optional: false,
    })
}

/// A message with such a field, and with messages in it.
fn level(alloc: Global, messages: Vec<MessageDecl>) -> Result<MessageDecl, AllocError> {
    let name = String::from_str(alloc, "N")?;
    let mut fields = Vec::new(alloc);
    fields.push(around(alloc)?)?;
    Ok(MessageDecl {
        name,
        fields,
        messages,
        enums: Vec::new(alloc),
        oneofs: Vec::new(alloc),
        reserved: Vec::new(alloc),
        reserved_names: Vec::new(alloc),
        map_entry: false,
    })
}

/// `count` messages, each in the one before.
fn levels(alloc: Global, count: usize) -> Result<Vec<MessageDecl>, AllocError> {
    let mut messages = Vec::new(alloc);
    for _ in 0..count {
        let around = level(alloc, messages)?;
        messages = vec![in alloc; around]?;
    }
    Ok(messages)
}

/// A file of messages.
fn file(alloc: Global, messages: Vec<MessageDecl>) -> Result<FileDecl, AllocError> {
    Ok(FileDecl {
        name: String::from_str(alloc, "nest")?,
        package: String::new(alloc),
        imports: Vec::new(alloc),
        public: Vec::new(alloc),
        messages,
        enums: Vec::new(alloc),
        services: Vec::new(alloc),
        proto2: false,
    })
}

/// A file of `count` messages, each in the one before.
fn nest(alloc: Global, count: usize) -> Result<Vec<FileDecl>, AllocError> {
    let messages = levels(alloc, count)?;
    let decl = file(alloc, messages)?;
    Ok(vec![in alloc; decl]?)
}

/// Whether the files link that the set of these files declares.
fn links_as_set(alloc: Global, files: &[FileDecl]) -> Result<bool, Fail> {
    let bytes = write_set(alloc, files)?;
    answers(alloc, &bytes, "ok")
}

fn deepest_links(alloc: Global) -> Result<bool, Fail> {
    let files = nest(alloc, 98)?;
    links_as_set(alloc, &files)
}

fn are_nested(files: &[FileDecl]) -> bool {
    match files.get(0) {
        Some(file) => is_message(&file.messages, 0, "N", 1),
        None => false,
    }
}

fn declares_nested(alloc: Global, pool: &Pool) -> Result<bool, LinkError> {
    let files = to_decls(alloc, pool)?;
    Ok(are_nested(&files))
}

/// Whether the files link to a pool that is declared with messages in each other.
fn link_nested(alloc: Global, files: &[FileDecl]) -> Result<bool, LinkError> {
    let pool = link(alloc, files)?;
    declares_nested(alloc, &pool)
}

fn answer_nested(alloc: Global, files: &[FileDecl]) -> Result<bool, Fail> {
    Ok(files_answer(alloc, files, "ok")? && link_nested(alloc, files)?)
}

/// Messages in each other, deeper than any set may nest.
fn deeper_links(alloc: Global) -> Result<bool, Fail> {
    let files = nest(alloc, 1_000)?;
    answer_nested(alloc, &files)
}

// A set is level 0, and the innermost field is at level 100. Declarations by themselves may nest deeper.
#[test]
fn nests(rt: HostRuntime) -> Result<(), Fail> {
    assert!(rt; deepest_links(rt.alloc())? && deeper_links(rt.alloc())?);
    Ok(())
}

/// What the set of this file answers.
fn file_answers(alloc: Global, file: &[u8], wanted: &str) -> Result<bool, Fail> {
    let set = with_record(alloc, b"", 0x0a, file)?;
    answers(alloc, &set, wanted)
}

/// What a file of this package and of one message answers.
fn message_answers(
    alloc: Global,
    package: &str,
    message: &[u8],
    wanted: &str,
) -> Result<bool, Fail> {
    let mut file = with_record(alloc, b"\x0a\x01m\x62\x06proto3", 0x22, message)?;
    put_record(&mut file, 0x12, package.as_bytes())?;
    file_answers(alloc, &file, wanted)
}

/// What a message M of one field answers, in this package.
fn field_answers(alloc: Global, package: &str, field: &[u8], wanted: &str) -> Result<bool, Fail> {
    let message = with_record(alloc, b"\x0a\x01M", 0x12, field)?;
    message_answers(alloc, package, &message, wanted)
}

/// What a field M.f of this type answers, in this package.
fn type_answers(alloc: Global, package: &str, type_name: &str, wanted: &str) -> Result<bool, Fail> {
    let field = with_record(
        alloc,
        b"\x0a\x01f\x18\x01\x20\x01",
        0x32,
        type_name.as_bytes(),
    )?;
    field_answers(alloc, package, &field, wanted)
}

fn is_not_found(alloc: Global, package: &str, type_name: &str) -> Result<bool, Fail> {
    let fault = format!(in alloc; "m {package}.M.f NotFound")?;
    type_answers(alloc, package, type_name, fault.as_str())
}

fn dot_name_is_found(alloc: Global, package: &str) -> Result<bool, Fail> {
    let name = format!(in alloc; ".{package}.M")?;
    type_answers(alloc, package, name.as_str(), "ok")
}

// Without a leading dot the package all but its last word decides, in which there is no such package.
fn full_name_is_not_found(alloc: Global, package: &str) -> Result<bool, Fail> {
    let name = format!(in alloc; "{package}.M")?;
    is_not_found(alloc, package, name.as_str())
}

fn names_answer(alloc: Global, package: &str) -> Result<bool, Fail> {
    Ok(
        type_answers(alloc, package, "M", "ok")?
            && is_not_found(alloc, package, "x")?
            && dot_name_is_found(alloc, package)?
            && full_name_is_not_found(alloc, package)?,
    )
}

/// The word p repeated `times` times, with dots between.
fn dotted(alloc: Global, times: usize) -> Result<String, AllocError> {
    let mut name = String::from_str(alloc, "p")?;
    for _ in 1..times {
        name.push_str(".p")?;
    }
    Ok(name)
}

fn dotted_answer(alloc: Global) -> Result<bool, Fail> {
    let package = dotted(alloc, 1_000)?;
    names_answer(alloc, package.as_str())
}

#[test]
fn long_names(rt: HostRuntime) -> Result<(), Fail> {
    assert!(rt; dotted_answer(rt.alloc())?);
    Ok(())
}

/// A file that declares nothing.
fn put_file(alloc: Global, set: &mut Vec<u8>, index: u32) -> Result<(), AllocError> {
    let file = format!(in alloc; "\x0a\x06e{index}\x62\x06proto3")?;
    put_record(set, 0x0a, file.as_bytes())
}

/// 20,000 files that declare nothing, and one more.
fn empty_files(alloc: Global, last: &[u8]) -> Result<Vec<u8>, AllocError> {
    let mut set = Vec::new(alloc);
    for index in 10_000..30_000u32 {
        put_file(alloc, &mut set, index)?;
    }
    put_record(&mut set, 0x0a, last)?;
    Ok(set)
}

fn files_answer_as(alloc: Global, last: &[u8], wanted: &str) -> Result<bool, Fail> {
    let set = empty_files(alloc, last)?;
    answers(alloc, &set, wanted)
}

#[test]
fn many_files(rt: HostRuntime) -> Result<(), Fail> {
    assert!(rt;
        files_answer_as(rt.alloc(), b"\x0a\x04last\x62\x06proto3", "ok")?
            && files_answer_as(
                rt.alloc(),
                b"\x0a\x06e10000\x62\x06proto3",
                "e10000 - TwoFiles"
            )?
    );
    Ok(())
}

/// An int32 field.
fn put_field(
    alloc: Global,
    message: &mut Vec<u8>,
    name: &str,
    number: u64,
) -> Result<(), AllocError> {
    let mut field = with_record(alloc, b"\x20\x01\x28\x05", 0x0a, name.as_bytes())?;
    field.push(0x18)?;
    put_number(&mut field, number)?;
    put_record(message, 0x12, &field)
}

fn put_numbered(alloc: Global, message: &mut Vec<u8>, number: u64) -> Result<(), AllocError> {
    let name = format!(in alloc; "f{number}")?;
    put_field(alloc, message, name.as_str(), number)
}

/// A message M of fields with the numbers from 20,000 up to this one, and one more of this number.
fn wide(alloc: Global, end: u64, last: u64) -> Result<Vec<u8>, AllocError> {
    let mut message = Vec::from_slice(alloc, b"\x0a\x01M")?;
    for number in 20_000..end {
        put_numbered(alloc, &mut message, number)?;
    }
    put_field(alloc, &mut message, "last", last)?;
    Ok(message)
}

/// A range of reserved numbers, of which the end is none.
fn put_range(message: &mut Vec<u8>, start: u64, end: u64) -> Result<(), AllocError> {
    message.extend_from_slice(b"\x4a\x0a\x08")?;
    put_number(message, start)?;
    message.push(0x10)?;
    put_number(message, end)
}

/// 20,000 reserved ranges of one number each, and one more that begins at this number.
fn put_ranges(message: &mut Vec<u8>, last: u64) -> Result<(), AllocError> {
    for index in 1_000_000..1_020_000u64 {
        put_range(message, 2 * index, 2 * index + 1)?;
    }
    put_range(message, last, 10_000_000)
}

fn fields_answer(alloc: Global, last: u64, wanted: &str) -> Result<bool, Fail> {
    let message = wide(alloc, 40_000, last)?;
    message_answers(alloc, "", &message, wanted)
}

/// What 20,000 fields beside as many ranges answer, with one more of each.
fn ranges_answer(alloc: Global, field: u64, range: u64, wanted: &str) -> Result<bool, Fail> {
    let mut message = wide(alloc, 40_000, field)?;
    put_ranges(&mut message, range)?;
    message_answers(alloc, "", &message, wanted)
}

fn put_name(alloc: Global, message: &mut Vec<u8>, index: u32) -> Result<(), AllocError> {
    let name = format!(in alloc; "n{index}")?;
    put_record(message, 0x52, name.as_bytes())
}

/// 20,000 reserved names, and one more.
fn put_names(alloc: Global, message: &mut Vec<u8>, last: &str) -> Result<(), AllocError> {
    for index in 0..20_000u32 {
        put_name(alloc, message, index)?;
    }
    put_record(message, 0x52, last.as_bytes())
}

/// What 20,000 fields beside as many reserved names answer, with one more of these.
fn kept_names_answer(alloc: Global, last: &str, wanted: &str) -> Result<bool, Fail> {
    let mut message = wide(alloc, 40_000, 1)?;
    put_names(alloc, &mut message, last)?;
    message_answers(alloc, "", &message, wanted)
}

#[test]
fn wide_messages(rt: HostRuntime) -> Result<(), Fail> {
    assert!(rt;
        fields_answer(rt.alloc(), 1, "ok")?
            && fields_answer(rt.alloc(), 20_000, "m M.last NumberTaken")?
    );
    Ok(())
}

#[test]
fn many_ranges(rt: HostRuntime) -> Result<(), Fail> {
    assert!(rt;
        ranges_answer(rt.alloc(), 1, 2_000_000, "m M BadRange")?
            && ranges_answer(rt.alloc(), 2_000_002, 5_000_000, "m M.last Reserved")?
    );
    Ok(())
}

#[test]
fn many_reserved_names(rt: HostRuntime) -> Result<(), Fail> {
    assert!(rt;
        kept_names_answer(rt.alloc(), "x", "ok")?
            && kept_names_answer(rt.alloc(), "last", "m M.last Reserved")?
    );
    Ok(())
}
