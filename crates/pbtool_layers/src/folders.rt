//! The folder that is built in, among those of the command line.

ghost use Rattle.std.specs.Prelude.{◌≡◌, ◌≤◌, codes, length, map, not, string_bytes, IfOk};
ghost use Rattle.std.specs.List.{prefix_len};
ghost use Rattle.std.specs.Str.{bytes_eq};
ghost use Rattle.pbtool_layers.specs.Folders.{is_compile, with_built_in};

use crate::well_known::BUILT_IN;
use std::alloc::{AllocError, Global};

/// The words of the command line, the program's name first; those of `compile` with the folder that is built
/// in after all other folders.
pub fn with_built_in(alloc: Global, mut words: Vec<String>) -> Result<Vec<String>, AllocError>
    ensures { IfOk result (λ v. map string_bytes v.items ≡ with_built_in (map string_bytes words.items)) }
{
    if !is_compile(&words) {
        return Ok(words);
    }
    let end = end_of(&words);
    words.insert(end, String::from_str(alloc, BUILT_IN)?)?;
    words.insert(end, String::from_str(alloc, "-I")?)?;
    Ok(words)
}

/// Whether the words name `compile`.
fn is_compile(words: &[String]) -> bool
    ensures { result ≡ is_compile (map string_bytes words.now) }
{
    let Some((_program, rest)) = words.split_first() else {
        return false;
    };
    let Some((word, _others)) = rest.split_first() else {
        return false;
    };
    word.as_str() == "compile"
}

/// How many words come before the first `--`, after which no word is an option.
fn end_of(words: &[String]) -> usize
    ensures is { result ≡ prefix_len (λ w. not (bytes_eq (string_bytes w) (codes "--"))) words.now }
    ensures within { result ≤ length words.now }
{
    for (at, word) in words.iter().enumerate() {
        if word.as_str() == "--" {
            return at;
        }
    }
    words.len()
}
