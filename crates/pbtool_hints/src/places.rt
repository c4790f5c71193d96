//! Where a source declares or imports something.

use pb_source::{Token, TokenKind, lex};
use std::alloc::{AllocError, Global};

/// What the braces are around that are open.
#[derive(Clone, Copy, Debug, PartialEq, Eq)]
enum Scope {
    /// A message or a service whose name the full name goes on with.
    Matched,
    /// A oneof, an enum or the like, whose parts are named beside it.
    Open,
    /// Anything else, as an option or another message.
    Passed,
}

/// A walk over the tokens of a source to the declaration of a full name.
#[derive(Drop)]
struct Walk<'t> {
    tokens: &'t [Token<'t>],
    /// The parts of the name, without the package.
    parts: Vec<&'t str>,
    scopes: Vec<Scope>,
    /// How many of the scopes are matched, and how many are passed over.
    matched: usize,
    passed: usize,
    /// The token that the statement begins with, and whether it had its sign `=`.
    start: usize,
    has_value: bool,
    found: Option<u64>,
}

/// The byte at which the last declaration of a full name without its package has its name. None where the source has none, or memory runs out.
pub(crate) fn declaration_in(alloc: Global, source: &[u8], name: &str) -> Option<u64> {
    let Ok(text) = std::str::from_utf8(source) else {
        return None;
    };
    let Ok(tokens) = lex(alloc, text) else {
        return None;
    };
    match find_declaration(alloc, tokens.as_slice(), name) {
        Ok(found) => found,
        Err(_) => None,
    }
}

fn find_declaration<'t>(
    alloc: Global,
    tokens: &'t [Token<'t>],
    name: &'t str,
) -> Result<Option<u64>, AllocError> {
    let mut parts = Vec::new(alloc);
    for part in name.split('.') {
        parts.push(part)?;
    }
    let mut walk = Walk {
        tokens,
        parts,
        scopes: Vec::new(alloc),
        matched: 0,
        passed: 0,
        start: 0,
        has_value: false,
        found: None,
    };
    for (index, token) in tokens.iter().enumerate() {
        if token.kind == TokenKind::Sign {
            walk.take_sign(index, token.text)?;
        }
    }
    Ok(walk.found)
}

impl<'t> Walk<'t> {
    /// Goes on with a sign. Only these end a statement, or the name of a declaration.
    fn take_sign(&mut self, index: usize, sign: &str) -> Result<(), AllocError> {
        match sign {
            "=" => self.take_value(index),
            "(" => self.take_method(index),
            "{" => self.take_open(index)?,
            "}" => self.take_close(index),
            ";" => self.begin(index),
            _ => {}
        }
        Ok(())
    }

    /// A statement begins after a sign.
    fn begin(&mut self, index: usize) {
        self.start = index.saturating_add(1);
        self.has_value = false;
    }

    /// A field or a value of an enum has its name before the first `=`.
    fn take_value(&mut self, index: usize) {
        if !self.has_value && self.keyword() != "option" {
            self.declare(index.saturating_sub(1));
        }
        self.has_value = true;
    }

    /// A method has its name before what it takes.
    fn take_method(&mut self, index: usize) {
        if self.keyword() == "rpc" && self.start.saturating_add(2) == index {
            self.declare(index.saturating_sub(1));
        }
    }

    /// A block begins, after its keyword and its name.
    fn take_open(&mut self, index: usize) -> Result<(), AllocError> {
        let scope = self.scope_before(index);
        self.scopes.push(scope)?;
        match scope {
            Scope::Matched => self.matched = self.matched.saturating_add(1),
            Scope::Passed => self.passed = self.passed.saturating_add(1),
            Scope::Open => {}
        }
        self.begin(index);
        Ok(())
    }

    /// The innermost block ends.
    fn take_close(&mut self, index: usize) {
        match self.scopes.pop() {
            Some(Scope::Matched) => self.matched = self.matched.saturating_sub(1),
            Some(Scope::Passed) => self.passed = self.passed.saturating_sub(1),
            Some(Scope::Open) | None => {}
        }
        self.begin(index);
    }

    /// What a block is that begins at a token.
    fn scope_before(&mut self, index: usize) -> Scope {
        let name = self.start.saturating_add(1);
        match self.keyword() {
            "message" | "service" => {
                self.declare(name);
                self.scope_of(name)
            }
            "enum" | "oneof" => {
                self.declare(name);
                Scope::Open
            }
            "extend" => Scope::Open,
            _ => self.group_before(index),
        }
    }

    /// The block of a group, whose name follows its keyword; of anything else that is passed over.
    fn group_before(&mut self, index: usize) -> Scope {
        for at in self.start..index {
            if self.word(at) == "group" {
                let name = at.saturating_add(1);
                self.declare(name);
                return self.scope_of(name);
            }
        }
        Scope::Passed
    }

    /// The scope of a message or a service by its name.
    fn scope_of(&self, name: usize) -> Scope {
        if self.passed == 0 && self.is_part(name) {
            Scope::Matched
        } else {
            Scope::Passed
        }
    }

    /// Keeps the place of a name, if it is the one that is looked for.
    fn declare(&mut self, name: usize) {
        if self.passed > 0
            || self.matched.saturating_add(1) != self.parts.len()
            || !self.is_part(name)
        {
            return;
        }
        if let Some(token) = self.tokens.get(name) {
            self.found = Some(token.at);
        }
    }

    /// Whether a token is the part of the name that comes next.
    fn is_part(&self, name: usize) -> bool {
        match self.parts.as_slice().get(self.matched) {
            Some(part) => self.word(name) == *part,
            None => false,
        }
    }

    /// The word that the statement begins with.
    fn keyword(&self) -> &'t str {
        let start = self.start;
        self.word(start)
    }

    /// The word at an index, or nothing where there is none.
    fn word(&self, index: usize) -> &'t str {
        match self.tokens.get(index) {
            Some(token) if token.kind == TokenKind::Word => token.text,
            _ => "",
        }
    }
}

/// The byte at which a source imports a file of this name.
pub(crate) fn import_in(alloc: Global, source: &[u8], name: &str) -> Option<u64> {
    let Ok(text) = std::str::from_utf8(source) else {
        return None;
    };
    let Ok(tokens) = lex(alloc, text) else {
        return None;
    };
    let mut is_import = false;
    for token in tokens.as_slice() {
        match token.kind {
            TokenKind::Word => is_import = is_import || token.text == "import",
            TokenKind::Text if is_import && is_quoted(token.text, name) => return Some(token.at),
            _ => is_import = false,
        }
    }
    None
}

/// Whether a token is a name in quotes.
fn is_quoted(token: &str, name: &str) -> bool {
    for quote in ['"', '\''] {
        if let Some(rest) = token.strip_prefix(quote) {
            return rest.strip_suffix(quote) == Some(name);
        }
    }
    false
}
