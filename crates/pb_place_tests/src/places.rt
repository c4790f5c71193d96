//! Places, read from words: `f3` the field 3, `#0` the index 0, `ku9` the key `u9`.

use pb_place::PlaceStep;
use pb_test_types::key_of;
use std::alloc::Global;
use std::test::Fail;

fn step_of(alloc: Global, word: &str) -> Result<PlaceStep, Fail> {
    if let Some(number) = word.strip_prefix('f') {
        return Ok(PlaceStep::Field(number.parse().map_err(|_| "no number")?));
    }
    if let Some(index) = word.strip_prefix('#') {
        return Ok(PlaceStep::Index(index.parse().map_err(|_| "no index")?));
    }
    let key = word.strip_prefix('k').ok_or("no step")?;
    Ok(PlaceStep::Key(key_of(alloc, key)?))
}

pub(crate) fn place_of(alloc: Global, words: &str) -> Result<Vec<PlaceStep>, Fail> {
    let mut place = Vec::new(alloc);
    for word in words.split_whitespace() {
        place.push(step_of(alloc, word)?)?;
    }
    Ok(place)
}
