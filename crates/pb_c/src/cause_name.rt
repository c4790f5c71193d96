//! The names of causes, by their numbers.

ghost use Rattle.std.specs.Prelude.{◌≡◌, ◌≢◌, ◌⊎◌, ℕ, List, IfSome, IfNone};
ghost use Rattle.pb_wire.specs.CauseName.{number_of as wire_number};
ghost use Rattle.pb_value.specs.ErrorName.{number_of as value_number};
ghost use Rattle.pb_source_tokens.specs.CauseName.{number_of as source_number};
ghost use Rattle.pb_descr_message.specs.CauseName.{number_of as set_number};
ghost use Rattle.pb_link_rules.specs.CauseName.{cause_number as link_number};
ghost use Rattle.pb_wire.specs.declared.fault.Cause.{Cause};
ghost use Rattle.pb_value.specs.declared.error.ValueError.{ValueError};
ghost use Rattle.pb_source_tokens.specs.declared.fault.SourceCause.{SourceCause};
ghost use Rattle.pb_descr_message.specs.declared.cause.DeclCause.{DeclCause};
ghost use Rattle.pb_link_rules.specs.declared.cause.LinkCause.{LinkCause};
ghost use Rattle.pb_json.specs.declared.error.JsonCause.{JsonCause};
ghost use Rattle.pb_json_read.specs.declared.error.JsonReadCause.{JsonReadCause};
ghost use Rattle.pb_c_answers.specs.Json.Numbers.{json_number, read_number};
ghost use Rattle.pb_c.specs.CauseNames.{Names};
ghost use Rattle.pb_c_answers.specs.Reporting.{IsLaid};

use pb_c_answers::{ABSENT, DONE, TOO_LARGE, write_out};
use pb_descr::DeclCause;
use pb_json::JsonCause;
use pb_json_read::JsonReadCause;
use pb_link_rules::LinkCause;
use pb_source::SourceCause;
use pb_value::ValueError;
use pb_wire::Cause;

/// The cause of this number why bytes are refused.
fn wire_cause(number: u32) -> Option<Cause>
    ensures found { IfSome result (λ c. wire_number c ≡ number) }
    ensures none { IfNone result ((c : Cause) → wire_number c ≢ number) }
{
    Some(match number {
        1 => Cause::Truncated,
        2 => Cause::PastEnd,
        3 => Cause::VarintTooLong,
        4 => Cause::TagTooLarge,
        5 => Cause::NumberZero,
        6 => Cause::BadType,
        7 => Cause::StrayEnd,
        8 => Cause::WrongEnd,
        9 => Cause::LengthTooLarge,
        10 => Cause::BadText,
        11 => Cause::TooDeep,
        12 => Cause::InputTooLarge,
        _ => return None,
    })
}

/// The cause of this number why a message refuses a change.
fn value_cause(number: u32) -> Option<ValueError>
    ensures found { IfSome result (λ c. value_number c ≡ number) }
    ensures none { IfNone result ((c : ValueError) → value_number c ≢ number) }
{
    Some(match number {
        21 => ValueError::NoSuchField,
        22 => ValueError::WrongKind,
        23 => ValueError::WrongShape,
        24 => ValueError::DefaultStored,
        25 => ValueError::TwoMembers,
        26 => ValueError::KnownAsUnknown,
        27 => ValueError::TooDeep,
        28 => ValueError::Memory,
        29 => ValueError::OtherType,
        30 => ValueError::NoSuchValue,
        _ => return None,
    })
}

/// The cause of this number why a source is refused.
fn source_cause(number: u32) -> Option<SourceCause>
    ensures found { IfSome result (λ c. source_number c ≡ number) }
    ensures none { IfNone result ((c : SourceCause) → source_number c ≢ number) }
{
    Some(match number {
        50 => SourceCause::SourceTooLarge,
        61 => SourceCause::BadUtf8,
        62 => SourceCause::BadToken,
        63 => SourceCause::OpenComment,
        64 => SourceCause::OpenText,
        65 => SourceCause::Unexpected,
        66 => SourceCause::NumberTooLarge,
        67 => SourceCause::CustomOption,
        68 => SourceCause::NotProto3,
        69 => SourceCause::NestedTooDeep,
        70 => SourceCause::Memory,
        _ => return None,
    })
}

/// The cause of this number why a file of a set is refused.
fn set_cause(number: u32) -> Option<DeclCause>
    ensures found { IfSome result (λ c. set_number c ≡ number) }
    ensures none { IfNone result ((c : DeclCause) → set_number c ≢ number) }
{
    Some(match number {
        52 => DeclCause::MissingName,
        53 => DeclCause::BadLabel,
        54 => DeclCause::BadTypeNumber,
        55 => DeclCause::Extension,
        56 => DeclCause::NotProto3,
        57 => DeclCause::Required,
        58 => DeclCause::Group,
        60 => DeclCause::DefaultValue,
        _ => return None,
    })
}

/// The cause of this number why declarations do not link.
fn link_cause(number: u32) -> Option<LinkCause>
    ensures found { IfSome result (λ c. link_number c ≡ number) }
    ensures none { IfNone result ((c : LinkCause) → link_number c ≢ number) }
{
    Some(match number {
        71 => LinkCause::TwoFiles,
        72 => LinkCause::MissingImport,
        73 => LinkCause::ImportCycle,
        74 => LinkCause::BadName,
        75 => LinkCause::NameTaken,
        76 => LinkCause::NotFound,
        77 => LinkCause::NotVisible,
        78 => LinkCause::NotAType,
        79 => LinkCause::BadNumber,
        80 => LinkCause::NumberTaken,
        81 => LinkCause::Reserved,
        82 => LinkCause::BadOneof,
        83 => LinkCause::BadMap,
        84 => LinkCause::BadPacked,
        85 => LinkCause::BadEnum,
        86 => LinkCause::KindMismatch,
        87 => LinkCause::BadRange,
        89 => LinkCause::ClosedEnum,
        _ => return None,
    })
}

/// The cause of this number why a message has no JSON form.
fn json_cause(number: u32) -> Option<JsonCause>
    ensures found { IfSome result (λ c. json_number c ≡ number) }
    ensures none { IfNone result ((c : JsonCause) → json_number c ≢ number) }
{
    Some(match number {
        91 => JsonCause::NoKind,
        92 => JsonCause::NotFinite,
        93 => JsonCause::OutOfRange,
        94 => JsonCause::BadPath,
        95 => JsonCause::Unsupported,
        _ => return None,
    })
}

/// The cause of this number why a JSON text is not read as a message.
fn read_cause(number: u32) -> Option<JsonReadCause>
    ensures found { IfSome result (λ c. read_number c ≡ number) }
    ensures none { IfNone result ((c : JsonReadCause) → read_number c ≢ number) }
{
    Some(match number {
        101 => JsonReadCause::UnexpectedByte,
        102 => JsonReadCause::UnexpectedEnd,
        103 => JsonReadCause::BadUtf8,
        104 => JsonReadCause::TooDeep,
        105 => JsonReadCause::UnknownName,
        106 => JsonReadCause::RepeatedName,
        107 => JsonReadCause::SecondMember,
        108 => JsonReadCause::BadKey,
        109 => JsonReadCause::BadValue,
        110 => JsonReadCause::OutOfMemory,
        _ => return None,
    })
}

/// The name of the cause of this number why bytes are refused.
fn wire_name(number: u32) -> Option<&'static str>
    ensures named { IfSome result (λ s. Names number s.now) }
    ensures none { IfNone result ((c : Cause) → wire_number c ≢ number) }
{
    match wire_cause(number) {
        Some(cause) => Some(cause.name()),
        None => None,
    }
}

/// The name of the cause of this number why a message refuses a change.
fn value_name(number: u32) -> Option<&'static str>
    ensures named { IfSome result (λ s. Names number s.now) }
    ensures none { IfNone result ((c : ValueError) → value_number c ≢ number) }
{
    match value_cause(number) {
        Some(cause) => Some(cause.name()),
        None => None,
    }
}

/// The name of the cause of this number why a source is refused.
fn source_name(number: u32) -> Option<&'static str>
    ensures named { IfSome result (λ s. Names number s.now) }
    ensures none { IfNone result ((c : SourceCause) → source_number c ≢ number) }
{
    match source_cause(number) {
        Some(cause) => Some(cause.name()),
        None => None,
    }
}

/// The name of the cause of this number why a file of a set is refused.
fn set_name(number: u32) -> Option<&'static str>
    ensures named { IfSome result (λ s. Names number s.now) }
    ensures none { IfNone result ((c : DeclCause) → set_number c ≢ number) }
{
    match set_cause(number) {
        Some(cause) => Some(cause.name()),
        None => None,
    }
}

/// The name of the cause of this number why declarations do not link.
fn link_name(number: u32) -> Option<&'static str>
    ensures named { IfSome result (λ s. Names number s.now) }
    ensures none { IfNone result ((c : LinkCause) → link_number c ≢ number) }
{
    match link_cause(number) {
        Some(cause) => Some(cause.name()),
        None => None,
    }
}

/// The name of the cause of this number why a message has no JSON form.
fn json_name(number: u32) -> Option<&'static str>
    ensures named { IfSome result (λ s. Names number s.now) }
    ensures none { IfNone result ((c : JsonCause) → json_number c ≢ number) }
{
    match json_cause(number) {
        Some(cause) => Some(cause.name()),
        None => None,
    }
}

/// The name of the cause of this number why a JSON text is not read as a message.
fn read_name(number: u32) -> Option<&'static str>
    ensures named { IfSome result (λ s. Names number s.now) }
    ensures none { IfNone result ((c : JsonReadCause) → read_number c ≢ number) }
{
    match read_cause(number) {
        Some(cause) => Some(cause.name()),
        None => None,
    }
}

/// The name of the cause of a number.
fn name_of(number: u32) -> Option<&'static str>
    ensures named { IfSome result (λ s. Names number s.now) }
    ensures none { IfNone result ((name : List ℕ) → ¬ Names number name) }
{
    if number == TOO_LARGE {
        return Some("TooLarge");
    }
    if let Some(name) = wire_name(number) {
        return Some(name);
    }
    if let Some(name) = value_name(number) {
        return Some(name);
    }
    if let Some(name) = source_name(number) {
        return Some(name);
    }
    if let Some(name) = set_name(number) {
        return Some(name);
    }
    if let Some(name) = link_name(number) {
        return Some(name);
    }
    if let Some(name) = json_name(number) {
        return Some(name);
    }
    read_name(number)
}

/// Writes the name of the cause of a number, as much as the buffer holds, and reports its whole length. The cause is one of `mb_fault`, or an
/// answer from 21 on.
///
/// Answers DONE, or ABSENT where no cause has this number. Name and length are written at DONE alone.
#[unsafe(no_mangle)]
pub extern "C" fn mb_cause_name(cause: u32, name: &mut [u8], size: &mut usize) -> u32
    ensures named { result ≡ DONE → (s : List ℕ) × Names cause s
        × IsLaid s name.old name.new size.new }
    ensures absent { result ≡ ABSENT → (s : List ℕ) → ¬ Names cause s }
    ensures unwritten { result ≢ DONE → (name.new ≡ name.old) × (size.new ≡ size.old) }
    ensures answers { (result ≡ DONE) ⊎ (result ≡ ABSENT) }
{
    match name_of(cause) {
        Some(found) => {
            write_out(found.as_bytes(), name, size);
            DONE
        }
        None => ABSENT,
    }
}
