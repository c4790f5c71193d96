//! Brackets of aggregates (Protocol Buffers Text Format Language Specification, "Fields"), for the parser of `pb_source`.

ghost use Rattle.std.specs.Prelude.{◌≡◌};
ghost use Rattle.pb_source_tokens.specs.SymbolView.{symbol_of};
ghost use Rattle.pb_source_tokens.specs.Aggregates.{role_of};

use crate::symbol::Symbol;

/// A kind of brackets.
#[derive(Clone, Copy, PartialEq, Eq)]
pub(crate) enum Bracket {
    /// `{` and `}`.
    Curly,
    /// `[` and `]`.
    Square,
    /// `<` and `>`.
    Angle,
}

/// What a symbol does in an aggregate.
#[derive(Clone, Copy, PartialEq, Eq)]
pub(crate) enum Role {
    Plain,
    Opens(Bracket),
    Closes(Bracket),
}

/// What the symbol does in an aggregate.
pub(crate) fn role_of(symbol: &Symbol) -> Role
    ensures { result ≡ role_of (symbol_of symbol.now) }
{
    let Symbol::Sign(sign) = symbol else {
        return Role::Plain;
    };
    match *sign {
        "{" => Role::Opens(Bracket::Curly),
        "}" => Role::Closes(Bracket::Curly),
        "[" => Role::Opens(Bracket::Square),
        "]" => Role::Closes(Bracket::Square),
        "<" => Role::Opens(Bracket::Angle),
        ">" => Role::Closes(Bracket::Angle),
        _ => Role::Plain,
    }
}
