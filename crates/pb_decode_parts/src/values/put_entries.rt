//! The entries of a run go into their map at once.

ghost use Rattle.std.specs.Prelude.{◌≡◌, option_map, OnOk};
ghost use Rattle.pb_value.specs.KeyOrder.{map_key_cmp};
ghost use Rattle.pb_value.specs.Data.{fields_of};
ghost use Rattle.pb_value.specs.Change.{with_fields, entries_of};
ghost use Rattle.pb_value.specs.View.{body_view, content_view, entries_view};
ghost use Rattle.pb_value.specs.WellFormed.{RisesFrom};
ghost use Rattle.pb_decode_parts.specs.Open.Parents.{message_part};
ghost use Rattle.pb_decode_parts.specs.Open.PartView.{part_view};
ghost use Rattle.pb_decode_parts.specs.Close.Mapped.{pairs_view, put_pairs, FitInTurn, insert_in_turn, insert_pairs, put_all_mapped, FitMapped, RisesIn};

use crate::error::memory_alone;
use crate::{Part, Put};
use pb_value::bodies::{put_field, take_field};
use pb_value::{Body, Content, MapKey, Value};
use std::alloc::Global;
use std::collections::BTreeMap;

type Entries = Vec<(MapKey, Value)>;

type Map = BTreeMap<MapKey, Value>;

/// This many entries are sorted, and made a map of their own. Fewer cost less one by one.
const MANY: usize = 16;

/// Puts entries into a map, one by one.
fn insert_each(map: &mut Map, entries: Entries) -> Put
    ensures { OnOk result (map.new.entries ≡ insert_in_turn map_key_cmp entries.items map.old.entries) }
{
    for (key, value) in entries {
        drop(map.insert(key, value)?);
    }
    Ok(())
}

/// Puts entries into a map: few one by one, many by way of a map of their own. Of two with one key the later one stays.
fn insert_all(alloc: Global, map: &mut Map, entries: Entries) -> Put
    requires { FitInTurn (pairs_view entries.items) (entries_view map.old.entries) }
    ensures { OnOk result (entries_view map.new.entries ≡ put_pairs (pairs_view entries.items) (entries_view map.old.entries)) }
{
    // Gives that the keys are in order.
    let _len = map.len();
    if entries.len() < MANY {
        return insert_each(map, entries);
    }
    let mut more: Map = entries.into_iter().collect(alloc)?;
    Ok(map.append(&mut more)?)
}

/// The map that a field holds; where there is none it is empty.
fn map_held(alloc: Global, content: Option<Content>) -> Map
    ensures { entries_view result.entries ≡ entries_of (option_map content_view content) }
{
    match content {
        Some(content) => match content {
            Content::Map(map) => map,
            Content::One(_) | Content::List(_) => BTreeMap::new(alloc),
        },
        None => BTreeMap::new(alloc),
    }
}

/// Puts entries into the map of a number.
fn store_entries(alloc: Global, message: &mut Body, number: u32, entries: Entries) -> Put
    requires fits { FitMapped number (pairs_view entries.items) (message_part 0 (body_view message.old)) }
    requires rises { RisesFrom 0 (fields_of (body_view message.old)) }
    ensures { OnOk result (body_view message.new
        ≡ with_fields (body_view message.old) (insert_pairs number (pairs_view entries.items) (fields_of (body_view message.old)))) }
{
    if entries.is_empty() {
        return Ok(());
    }
    let mut map = map_held(alloc, take_field(message, number));
    insert_all(alloc, &mut map, entries)?;
    put_field(message, number, Content::Map(map)).map_err(memory_alone)
}

/// Puts entries into the map of a number in the part that their records belong to.
pub fn put_entries(alloc: Global, part: &mut Part, number: u32, entries: Entries) -> Put
    requires fits { FitMapped number (pairs_view entries.items) (part_view part.old) }
    requires rises { RisesIn (part_view part.old) }
    ensures { OnOk result (part_view part.new ≡ put_all_mapped number (pairs_view entries.items) (part_view part.old)) }
{
    match part {
        Part::Message(_, body) => store_entries(alloc, body, number, entries),
        Part::Entry(_) => Ok(()),
        Part::Group(_) => Ok(()),
    }
}
