//! What sets the grammars apart.

ghost use Rattle.std.specs.Prelude.{◌≡◌};
ghost use Rattle.pb_source.specs.Syntaxes.{is_lenient, is_proto2, optional_label};

use crate::kind::Label;
use pb_source_tokens::grammar::{Grammar, Syntax};

/// Whether the grammar is lenient.
pub(crate) fn is_lenient(grammar: Grammar) -> bool
    ensures { result ≡ is_lenient grammar }
{
    match grammar {
        Grammar::Strict => false,
        Grammar::Lenient(_) => true,
    }
}

/// Whether the grammar is that of proto2.
pub(crate) fn is_proto2(grammar: Grammar) -> bool
    ensures { result ≡ is_proto2 grammar }
{
    match grammar {
        Grammar::Lenient(Syntax::Proto2) => true,
        Grammar::Strict | Grammar::Lenient(Syntax::Proto3) => false,
    }
}

/// What the label `optional` says: in proto2 it is a label like others.
pub(crate) fn optional_label(grammar: Grammar) -> Label
    ensures { result ≡ optional_label grammar }
{
    if is_proto2(grammar) {
        return Label::Unlabelled;
    }
    Label::Optional
}
