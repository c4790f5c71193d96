//! A source as its declaration.

ghost use Rattle.std.specs.Prelude.{◌≡◌, ◌^◌, ◌-◌, ◌≤◌, ◌⊎◌, ℕ, List, length, IfOk, IfErr, MatchResult, IsUtf8};
ghost use Rattle.pb_declarations.specs.Decls.{DeclaredFile};
ghost use Rattle.pb_declarations.specs.View.{file_view};
ghost use Rattle.pb_source_tokens.specs.declared.fault.SourceCause.{SourceCause};
ghost use Rattle.pb_source_tokens.specs.Fault.{fault, out_of_memory};
ghost use Rattle.pb_source_tokens.specs.Language.{reported};
ghost use Rattle.pb_source_tokens.specs.SymbolView.{symbols_of};
ghost use Rattle.pb_source.specs.declared.reading.Reading.{Reading};
ghost use Rattle.pb_source.specs.Source.{place_in, IsSourceIn, HasFaultIn, IsSource, HasFault, IsLenientSource, HasLenientFault};
ghost use Rattle.pb_source.specs.Readers.Reported.{fault_at};

use crate::parsing::file;
use crate::reading::Reading;
use pb_declarations::FileDecl;
use pb_source_tokens::refusal::Refusal;
use pb_source_tokens::rule::Rule;
use pb_source_tokens::symbol::Placed;
use pb_source_tokens::symbols::source_symbols;
use pb_source_tokens::{SourceCause, SourceFault};
use std::alloc::Global;

/// The greatest number of bytes that a source may have.
const MAX_BYTES: usize = 2147483647;

/// The cause that is reported where a rule is broken, or where a symbol was not expected.
fn cause_of(rule: Option<Rule>) -> SourceCause
    ensures { result ≡ reported rule }
{
    match rule {
        None => SourceCause::Unexpected,
        Some(Rule::NumbersFit) => SourceCause::NumberTooLarge,
        Some(Rule::OptionsKnown) => SourceCause::CustomOption,
        Some(Rule::SyntaxFirst) => SourceCause::NotProto3,
        Some(Rule::NestsBounded) => SourceCause::NestedTooDeep,
        Some(Rule::TextsValid) => SourceCause::BadUtf8,
    }
}

/// Where the symbol of this index begins; after the last, the end of the source.
fn place_in(symbols: &[Placed], end: u64, index: usize) -> u64
    ensures { result ≡ place_in (symbols_of symbols.now) end index }
{
    match symbols.get(index) {
        Some(placed) => placed.at,
        None => end,
    }
}

/// The fault of symbols that are refused.
fn fault_of(symbols: &[Placed], end: u64, refusal: Refusal) -> SourceFault
    ensures { result ≡ fault_at symbols.now end refusal }
{
    let Refusal::At { at, rule } = refusal else {
        return SourceFault {
            byte: 0,
            cause: SourceCause::Memory,
        };
    };
    let cause = if symbols.is_empty() {
        SourceCause::NotProto3
    } else {
        cause_of(rule)
    };
    SourceFault {
        byte: place_in(symbols, end, at),
        cause,
    }
}

/// The source as text.
fn text_of(source: &[u8]) -> Result<&str, SourceFault>
    ensures size { IfOk result (λ t. length source.now ≤ 2 ^ 31 - 1) }
    ensures valid { IfOk result (λ t. IsUtf8 source.now) }
    ensures text { IfOk result (λ t. t.now ≡ source.now) }
    ensures fault { IfErr result (λ e. (reading : Reading) → HasFaultIn reading source.now e.byte e.cause) }
    ensures only_fault { IfErr result (λ e. (reading : Reading) (place : ℕ) (cause : SourceCause) → HasFaultIn reading source.now place cause
        → (place ≡ e.byte) × (cause ≡ e.cause)) }
    ensures no_source { IfErr result (λ e. (reading : Reading) (name : List ℕ) (d : DeclaredFile) → IsSourceIn reading name source.now d → ⊥) }
{
    if source.len() > MAX_BYTES {
        return Err(SourceFault {
            byte: MAX_BYTES as u64,
            cause: SourceCause::SourceTooLarge,
        });
    }
    match simdutf8::compat::from_utf8(source) {
        Ok(text) => Ok(text),
        Err(error) => Err(SourceFault {
            byte: error.valid_up_to() as u64,
            cause: SourceCause::BadUtf8,
        }),
    }
}

/// What a source declares as it is read, as the file of this name.
fn parse_by(
    alloc: Global,
    reading: Reading,
    name: &str,
    source: &[u8],
) -> Result<FileDecl, SourceFault>
    ensures source { IfOk result (λ f. IsSourceIn reading name.now source.now (file_view f)) }
    ensures fault { IfErr result (λ e. (e ≡ out_of_memory) ⊎ HasFaultIn reading source.now e.byte e.cause) }

    // The declaration of a source is answered, and the fault of what is none, unless memory runs out.
    ensures accepted { (d : DeclaredFile) → IsSourceIn reading name.now source.now d → MatchResult result (λ f. file_view f ≡ d) (λ e. e ≡ out_of_memory) }
    ensures refused { (place : ℕ) (cause : SourceCause) → HasFaultIn reading source.now place cause
        → MatchResult result (λ f. ⊥) (λ e. (e ≡ fault place cause) ⊎ (e ≡ out_of_memory)) }
{
    let text = text_of(source)?;
    let symbols = source_symbols(alloc, text)?;
    match file(alloc, reading, name, &symbols) {
        Ok(decl) => Ok(decl),
        Err(refusal) => Err(fault_of(&symbols, source.len() as u64, refusal)),
    }
}

/// What a source of proto3 declares, as the file of this name.
///
/// The fault is that of the source's size or of its UTF-8, else the first of its tokens, else the first of its grammar, or `Memory`. (Protocol
/// Buffers Language Specification (Proto3))
pub fn parse(alloc: Global, name: &str, source: &[u8]) -> Result<FileDecl, SourceFault>
    ensures source { IfOk result (λ f. IsSource name.now source.now (file_view f)) }
    ensures fault { IfErr result (λ e. (e ≡ out_of_memory) ⊎ HasFault source.now e.byte e.cause) }

    // The declaration of a source is answered, and the fault of what is none, unless memory runs out.
    ensures accepted { (d : DeclaredFile) → IsSource name.now source.now d → MatchResult result (λ f. file_view f ≡ d) (λ e. e ≡ out_of_memory) }
    ensures refused { (place : ℕ) (cause : SourceCause) → HasFault source.now place cause
        → MatchResult result (λ f. ⊥) (λ e. (e ≡ fault place cause) ⊎ (e ≡ out_of_memory)) }
{
    parse_by(alloc, Reading::Strict, name, source)
}

/// What a source of proto2 or proto3 declares, as the file of this name.
///
/// Beside what `parse` takes it takes sources of proto2, which say so or say no syntax, and it reads and drops option names with parts in
/// parentheses, floating constants and constants in braces, blocks of `extend`, ranges of `extensions` and default values. The fault is reported as
/// by `parse`. (Protocol Buffers Language Specification, Proto2 and Proto3)
pub fn parse_lenient(alloc: Global, name: &str, source: &[u8]) -> Result<FileDecl, SourceFault>
    ensures source { IfOk result (λ f. IsLenientSource name.now source.now (file_view f)) }
    ensures fault { IfErr result (λ e. (e ≡ out_of_memory) ⊎ HasLenientFault source.now e.byte e.cause) }

    // The declaration of a source is answered, and the fault of what is none, unless memory runs out.
    ensures accepted { (d : DeclaredFile) → IsLenientSource name.now source.now d → MatchResult result (λ f. file_view f ≡ d) (λ e. e ≡ out_of_memory) }
    ensures refused { (place : ℕ) (cause : SourceCause) → HasLenientFault source.now place cause
        → MatchResult result (λ f. ⊥) (λ e. (e ≡ fault place cause) ⊎ (e ≡ out_of_memory)) }
{
    parse_by(alloc, Reading::Lenient, name, source)
}
