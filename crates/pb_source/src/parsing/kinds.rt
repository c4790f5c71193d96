//! What begins with a symbol.

ghost use Rattle.std.specs.Prelude.{◌≡◌};
ghost use Rattle.pb_source_tokens.specs.Symbols.{word as a_word};
ghost use Rattle.pb_source_tokens.specs.SymbolView.{symbol_of};
ghost use Rattle.pb_source.specs.Readers.Lines.{file_kind, message_kind, extend_kind, enum_kind, oneof_kind, service_kind, method_kind};

use crate::kind::{
    EnumKind, ExtendKind, FileKind, MessageKind, MethodKind, OneofKind, ServiceKind,
};
use pb_source_tokens::symbol::{Symbol, is_mark};

/// The kind of a statement of a file.
pub(crate) fn file_kind(symbol: &Symbol) -> Option<FileKind>
    ensures { result ≡ file_kind (symbol_of symbol.now) }
{
    if is_mark(symbol, ";") {
        return Some(FileKind::Empty);
    }
    let Symbol::Word(word) = symbol else {
        return None;
    };
    match *word {
        "option" => Some(FileKind::Option),
        "import" => Some(FileKind::Import),
        "package" => Some(FileKind::Package),
        "message" => Some(FileKind::Message),
        "enum" => Some(FileKind::Enum),
        "service" => Some(FileKind::Service),
        "extend" => Some(FileKind::Extend),
        _ => None,
    }
}

/// The kind of a statement of a message that this word begins.
fn message_word(word: &str) -> Option<MessageKind>
    ensures { result ≡ message_kind (a_word word.now) }
{
    match word {
        "option" => Some(MessageKind::Option),
        "message" => Some(MessageKind::Message),
        "enum" => Some(MessageKind::Enum),
        "oneof" => Some(MessageKind::Oneof),
        "reserved" => Some(MessageKind::Reserved),
        "repeated" => Some(MessageKind::Repeated),
        "optional" => Some(MessageKind::Optional),
        "map" => Some(MessageKind::Map),
        "extend" => Some(MessageKind::Extend),
        "extensions" => Some(MessageKind::Extensions),
        "required" => Some(MessageKind::Required),
        _ => Some(MessageKind::Field),
    }
}

/// The kind of a statement of a message.
pub(crate) fn message_kind(symbol: &Symbol) -> Option<MessageKind>
    ensures { result ≡ message_kind (symbol_of symbol.now) }
{
    if is_mark(symbol, ";") {
        return Some(MessageKind::Empty);
    }
    if is_mark(symbol, ".") {
        return Some(MessageKind::Field);
    }
    match symbol {
        Symbol::Word(word) => message_word(word),
        _ => None,
    }
}

/// The kind of a statement of a block of `extend`.
pub(crate) fn extend_kind(symbol: &Symbol) -> Option<ExtendKind>
    ensures { result ≡ extend_kind (symbol_of symbol.now) }
{
    if is_mark(symbol, ";") {
        return Some(ExtendKind::Empty);
    }
    if is_mark(symbol, ".") {
        return Some(ExtendKind::Field);
    }
    let Symbol::Word(word) = symbol else {
        return None;
    };
    match *word {
        "repeated" => Some(ExtendKind::Repeated),
        "optional" => Some(ExtendKind::Optional),
        "required" => Some(ExtendKind::Required),
        _ => Some(ExtendKind::Field),
    }
}

/// The kind of a statement of an enum.
pub(crate) fn enum_kind(symbol: &Symbol) -> Option<EnumKind>
    ensures { result ≡ enum_kind (symbol_of symbol.now) }
{
    if is_mark(symbol, ";") {
        return Some(EnumKind::Empty);
    }
    let Symbol::Word(word) = symbol else {
        return None;
    };
    match *word {
        "option" => Some(EnumKind::Option),
        "reserved" => Some(EnumKind::Reserved),
        _ => Some(EnumKind::Value),
    }
}

/// The kind of a statement of a oneof.
pub(crate) fn oneof_kind(symbol: &Symbol) -> Option<OneofKind>
    ensures { result ≡ oneof_kind (symbol_of symbol.now) }
{
    if is_mark(symbol, ";") {
        return Some(OneofKind::Empty);
    }
    if is_mark(symbol, ".") {
        return Some(OneofKind::Field);
    }
    let Symbol::Word(word) = symbol else {
        return None;
    };
    match *word {
        "option" => Some(OneofKind::Option),
        _ => Some(OneofKind::Field),
    }
}

/// The kind of a statement of a service.
pub(crate) fn service_kind(symbol: &Symbol) -> Option<ServiceKind>
    ensures { result ≡ service_kind (symbol_of symbol.now) }
{
    if is_mark(symbol, ";") {
        return Some(ServiceKind::Empty);
    }
    let Symbol::Word(word) = symbol else {
        return None;
    };
    match *word {
        "option" => Some(ServiceKind::Option),
        "rpc" => Some(ServiceKind::Method),
        _ => None,
    }
}

/// The kind of a statement of a method.
pub(crate) fn method_kind(symbol: &Symbol) -> Option<MethodKind>
    ensures { result ≡ method_kind (symbol_of symbol.now) }
{
    if is_mark(symbol, ";") {
        return Some(MethodKind::Empty);
    }
    let Symbol::Word(word) = symbol else {
        return None;
    };
    match *word {
        "option" => Some(MethodKind::Option),
        _ => None,
    }
}
