//! Field masks.

ghost use Rattle.std.specs.Prelude.{◌≡◌, ◌==◌, ◌≤◌, ◌<◌, length, map, not, string_bytes, IfOk, OnOk, ◌++◌, option_map};
ghost use Rattle.std.specs.List.{prefix_len};
ghost use Rattle.std.specs.Str.{is_utf8};
ghost use Rattle.pb_json_scalars.specs.Paths.{as_text, has_no_underscore, mask_paths, path_of, snake_case, snake_letter};

use std::alloc::{AllocError, Global};
use std::str;

/// The paths that a string means: names in lowerCamelCase, joined by commas. Nothing where a name is empty or has an underscore.
pub fn read_mask(alloc: Global, characters: &[u8]) -> Result<Option<Vec<String>>, AllocError>
    ensures { IfOk result (λ read. option_map (λ v. map string_bytes v.items) read ≡ mask_paths characters.now) }
{
    let mut paths = Vec::new(alloc);
    if characters.is_empty() {
        return Ok(Some(paths));
    }
    let mut at = 0;
    let mut is_more = true;
    'names: while is_more {
        let end = at + name_len(&characters[at..]);
        let Some(path) = path_of(alloc, &characters[at..end])? else {
            return Ok(None);
        };
        paths.push(path)?;
        is_more = end < characters.len();
        at = end + 1;
    }
    Ok(Some(paths))
}

/// How many bytes there are before the first comma.
fn name_len(characters: &[u8]) -> usize
    ensures is { result ≡ prefix_len (λ c. not (c == 44)) characters.now }
    ensures within { result ≤ length characters.now }
{
    for (at, byte) in characters.iter().enumerate() {
        if *byte == b',' {
            return at;
        }
    }
    characters.len()
}

/// The path of a name in lowerCamelCase.
fn path_of(alloc: Global, name: &[u8]) -> Result<Option<String>, AllocError>
    ensures { IfOk result (λ read. option_map string_bytes read ≡ path_of name.now) }
{
    if name.is_empty() || !has_no_underscore(name) {
        return Ok(None);
    }
    Ok(as_text(snake_case(alloc, name)?))
}

fn has_no_underscore(name: &[u8]) -> bool
    ensures { result ≡ has_no_underscore name.now }
{
    name.iter().all(|byte| *byte != b'_')
}

/// A name with an underscore and a lower-case letter for each upper-case letter.
fn snake_case(alloc: Global, name: &[u8]) -> Result<Vec<u8>, AllocError>
    ensures { IfOk result (λ v. v.items ≡ snake_case name.now) }
{
    let mut snake = Vec::new(alloc);
    for byte in name {
        push_letter(&mut snake, *byte)?;
    }
    Ok(snake)
}

fn push_letter(snake: &mut Vec<u8>, byte: u8) -> Result<(), AllocError>
    ensures { OnOk result (snake.new.items ≡ snake.old.items ++ snake_letter byte) }
{
    if byte.is_ascii_uppercase() {
        snake.push(b'_')?;
        snake.push(byte + 32)?;
    } else {
        snake.push(byte)?;
    }
    Ok(())
}

fn as_text(bytes: Vec<u8>) -> Option<String>
    ensures { option_map string_bytes result ≡ as_text bytes.items }
{
    if is_utf8(bytes.as_slice()) {
        String::from_utf8(bytes).ok()
    } else {
        None
    }
}

fn is_utf8(bytes: &[u8]) -> bool
    ensures { result ≡ is_utf8 bytes.now }
{
    str::from_utf8(bytes).is_ok()
}
