//! Whole texts.

ghost use Rattle.std.specs.Prelude.{◌≡◌, ◌⊎◌, IfOk, IfErr, IsErrAnd, MatchResult};
ghost use Rattle.pb_text_tree.specs.Fault.{out_of_memory};
ghost use Rattle.pb_text_tree.specs.Texts.{HasFault, HasFaultWithin, IsText, IsTextWithin};
ghost use Rattle.pb_text_tree.specs.Tree.{Fields};
ghost use Rattle.pb_text_tree.specs.View.{fields_view};
ghost use Rattle.pb_text_tree.specs.declared.fault.SyntaxFault.{SyntaxFault as FaultValue};

use crate::fault::SyntaxFault;
use crate::source::{Close, Source};
use crate::value::TextField;
use pb_text_tokens::lex;
use std::alloc::Global;

/// How deep messages may nest below the whole text.
pub const MAX_DEPTH: usize = 100;

/// Reads a text as `read_fields` does, with messages nested no deeper than the levels.
fn read_within<'a>(
    alloc: Global,
    bytes: &'a [u8],
    levels: usize,
) -> Result<Vec<TextField<'a>>, SyntaxFault>
    ensures fields { IfOk result (λ v. IsTextWithin levels bytes.now (fields_view v.items)) }
    ensures fault { IfErr result (λ e. (e ≡ out_of_memory) ⊎ HasFaultWithin levels bytes.now e) }
{
    let tokens = lex(alloc, bytes)?;
    let source = Source {
        alloc,
        tokens: &tokens,
        size: bytes.len(),
    };
    let (fields, _) = source.fields(levels, Close::End, 0)?;
    Ok(fields)
}

/// Reads a text as its fields, in order.
///
/// The fault of a text that has no tokens comes first. Then it is the first token with which no text goes on,
/// or the end of the text. Messages nest 100 deep at most. (Text Format Language Specification)
pub fn read_fields<'a>(alloc: Global, bytes: &'a [u8]) -> Result<Vec<TextField<'a>>, SyntaxFault>
    ensures fields { IfOk result (λ v. IsText bytes.now (fields_view v.items)) }
    ensures fault { IfErr result (λ e. (e ≡ out_of_memory) ⊎ HasFault bytes.now e) }

    // Each tree is answered and each fault is reported, unless memory runs out.
    ensures accepted { (fs : Fields) → IsText bytes.now fs
        → MatchResult result (λ v. fields_view v.items ≡ fs) (λ e. e ≡ out_of_memory) }
    ensures refused { (f : FaultValue) → HasFault bytes.now f
        → IsErrAnd result (λ e. (e ≡ out_of_memory) ⊎ (e ≡ f)) }
{
    let fields = read_within(alloc, bytes, MAX_DEPTH)?;
    Ok(fields)
}
