//! The symbols of the grammar, for the parser of `pb_source`.

ghost use Rattle.std.specs.Prelude.{◌≡◌};
ghost use Rattle.pb_source_tokens.specs.SymbolView.{symbol_of};
ghost use Rattle.pb_source_tokens.specs.Readers.Forms.{is_keyword, is_mark};
ghost use Rattle.pb_source_tokens.specs.Readers.Phrases.{is_text, is_word, is_number};

/// A token, or texts that follow one another, joined.
#[derive(Drop)]
pub enum Symbol<'a> {
    Word(&'a str),
    Number(&'a str),
    /// The bytes that the texts mean.
    Text(Vec<u8>),
    Sign(&'a str),
}

/// A symbol, and the byte of the source that it begins at.
#[derive(Drop)]
pub struct Placed<'a> {
    pub at: u64,
    pub symbol: Symbol<'a>,
}

/// Whether the symbol is this word.
pub fn is_keyword(symbol: &Symbol, word: &str) -> bool
    ensures { result ≡ is_keyword word.now (symbol_of symbol.now) }
{
    match symbol {
        Symbol::Word(text) => *text == word,
        _ => false,
    }
}

/// Whether the symbol is this sign.
pub fn is_mark(symbol: &Symbol, sign: &str) -> bool
    ensures { result ≡ is_mark sign.now (symbol_of symbol.now) }
{
    match symbol {
        Symbol::Sign(text) => *text == sign,
        _ => false,
    }
}

/// Whether the symbol is a text.
pub(crate) fn is_text(symbol: &Symbol) -> bool
    ensures { result ≡ is_text (symbol_of symbol.now) }
{
    match symbol {
        Symbol::Text(_) => true,
        _ => false,
    }
}

/// Whether the symbol is a word.
pub(crate) fn is_word(symbol: &Symbol) -> bool
    ensures { result ≡ is_word (symbol_of symbol.now) }
{
    match symbol {
        Symbol::Word(_) => true,
        _ => false,
    }
}

/// Whether the symbol is a number word.
pub(crate) fn is_number(symbol: &Symbol) -> bool
    ensures { result ≡ is_number (symbol_of symbol.now) }
{
    match symbol {
        Symbol::Number(_) => true,
        _ => false,
    }
}
