//! What a whole length or the tag of a group opens.

ghost use Rattle.std.specs.Prelude.{◌≡◌, ℕ, true, IfSome, IfNone, option_map};
ghost use Rattle.pb_value.specs.Data.{empty};
ghost use Rattle.pb_value.specs.View.{body_view, content_view, value_view};
ghost use Rattle.pb_decode_parts.specs.declared.open.target.Target.TheVariants as target;
ghost use Rattle.pb_decode_parts.specs.Open.Parents.{parent_of};
ghost use Rattle.pb_decode_parts.specs.Open.PartView.{part_view, scope_view, parent_view};
ghost use Rattle.pb_decode_parts.specs.Open.Occurrences.{counts_view};
ghost use Rattle.pb_decode_parts.specs.Open.Targets.{IsNoMessage};
ghost use Rattle.pb_decode_parts.specs.Open.Openings.{message_given, message_held, taken_message, without_message, depth_left_in as levels_in};
ghost use Rattle.pb_decode_parts.specs.Open.Opens.{OpensAtLength, OpensAtTag};

use crate::{Entry, Occurrences, Parent, Part, Scope, Slot, Target};
use pb_schema::{Kind, MessageId};
use pb_value::bodies::{empty_body, take_field};
use pb_value::{Body, Content, Value};
use std::alloc::Global;
use std::mem;

/// The message that a value is, or an empty one.
fn message_of(alloc: Global, value: Option<Value>) -> Body
    ensures { body_view result ≡ message_given (option_map value_view value) }
{
    match value {
        Some(Value::Message(message)) => message,
        _ => empty_body(alloc),
    }
}

/// The message that a field of one value held, or an empty one.
#[inline(always)]
fn message_in(alloc: Global, content: Option<Content>) -> Body
    ensures { body_view result ≡ message_held (option_map content_view content) }
{
    match content {
        Some(Content::One(value)) => message_of(alloc, Some(value)),
        Some(Content::List(_)) | Some(Content::Map(_)) | None => empty_body(alloc),
    }
}

/// Says that a slot of a part holds nothing that a message for it goes on from.
#[inline(always)]
pub fn is_free(part: &Part, slot: Slot) -> bool
    ensures { result ≡ true → (taken_message slot (part_view part.now) ≡ empty) × (without_message slot (part_view part.now) ≡ part_view part.now) }
{
    match (part, slot) {
        (Part::Message(_, body), Slot::One(_, number)) => !body.fields.contains_key(&number),
        (Part::Message(_, _), Slot::List(_)) => true,
        (Part::Entry(entry), Slot::Entry) => entry.value.is_none(),
        _ => false,
    }
}

/// Takes the message out of a slot that isn't free. Few slots are such, and what this keeps on the stack costs nothing in a function of its own.
#[inline(never)]
fn take_held(alloc: Global, slot: Slot, outer: &mut Part) -> Body
    ensures taken { body_view result ≡ taken_message slot (part_view outer.old) }
    ensures left { part_view outer.new ≡ without_message slot (part_view outer.old) }
{
    match outer {
        Part::Message(_, body) => match slot {
            Slot::One(_, number) => message_in(alloc, take_field(body, number)),
            Slot::List(_) | Slot::Map(_) | Slot::Entry | Slot::Unknown(_) => empty_body(alloc),
        },
        Part::Entry(entry) => match slot {
            Slot::Entry => message_of(alloc, entry.value.take()),
            Slot::One(_, _) | Slot::List(_) | Slot::Map(_) | Slot::Unknown(_) => empty_body(alloc),
        },
        Part::Group(_) => empty_body(alloc),
    }
}

/// Takes out what a message that is opened for a slot goes on from.
#[inline(always)]
pub fn take_message(alloc: Global, slot: Slot, outer: &mut Part) -> Body
    ensures taken { body_view result ≡ taken_message slot (part_view outer.old) }
    ensures left { part_view outer.new ≡ without_message slot (part_view outer.old) }
{
    if is_free(outer, slot) {
        empty_body(alloc)
    } else {
        take_held(alloc, slot, outer)
    }
}

/// How many levels are left in a message that is opened for a slot.
#[inline(always)]
pub fn depth_left_in(slot: Slot, depth_left: u8) -> u8
    ensures { result ≡ levels_in slot depth_left }
{
    match slot {
        Slot::Entry => depth_left,
        _ => depth_left.saturating_sub(1),
    }
}

/// The scope of a part that has no record yet.
#[inline(always)]
fn new_scope(alloc: Global, depth_left: u8, end: Option<u32>) -> Scope
    ensures depth_left { result.depth_left ≡ depth_left }
    ensures end { result.end ≡ end }
    ensures none { (k : ℕ) → counts_view result.occurrences k ≡ 0 }
{
    Scope {
        depth_left,
        end,
        occurrences: Occurrences::new(alloc),
    }
}

/// Another part is open, with its scope, and the one before it is its parent.
#[inline(always)]
fn open_part(
    part: &mut Part,
    scope: &mut Scope,
    inner: Part,
    inner_scope: Scope,
    number: u32,
    slot: Slot,
    group: bool,
) -> Parent
    ensures parent { parent_view result ≡ parent_of (part_view part.old) number slot group (scope_view scope.old) }
    ensures part { part.new ≡ inner }
    ensures scope { scope.new ≡ inner_scope }
{
    Parent {
        part: mem::replace(part, inner),
        number,
        slot,
        group,
        scope: mem::replace(scope, inner_scope),
    }
}

/// After the length of a record of a message the message is open, up to its end. It goes on from what its slot holds.
#[inline(always)]
pub fn open_message(
    alloc: Global,
    part: &mut Part,
    scope: &mut Scope,
    number: u32,
    message_type: MessageId,
    slot: Slot,
    end: u32,
) -> Parent
    ensures { OpensAtLength number (target.Message message_type slot) end part.old scope.old result part.new scope.new }
{
    let message = Part::Message(message_type, take_message(alloc, slot, part));
    let inner = new_scope(alloc, depth_left_in(slot, scope.depth_left), Some(end));
    open_part(part, scope, message, inner, number, slot, false)
}

/// After the length of a record of a map an entry is open, up to its end.
#[inline(always)]
pub fn open_entry(
    alloc: Global,
    part: &mut Part,
    scope: &mut Scope,
    number: u32,
    key_kind: Kind,
    value_kind: Kind,
    end: u32,
) -> Parent
    ensures { OpensAtLength number (target.Entry key_kind value_kind) end part.old scope.old result part.new scope.new }
{
    let entry = Part::Entry(Entry {
        key_kind,
        value_kind,
        key: None,
        value: None,
    });
    let inner = new_scope(alloc, scope.depth_left.saturating_sub(1), Some(end));
    open_part(part, scope, entry, inner, number, Slot::Map(number), false)
}

/// After the first tag of a group the group is open, by what its record is for: a message, which goes on from what its slot
/// holds, or a group that is no field. Its end is known where that of its parent is.
#[inline(always)]
pub fn open_group(
    alloc: Global,
    part: &mut Part,
    scope: &mut Scope,
    number: u32,
    meant: Target,
) -> Parent
    ensures { OpensAtTag number meant part.old scope.old result part.new scope.new }
{
    let inner = new_scope(alloc, scope.depth_left.saturating_sub(1), scope.end);
    match meant {
        Target::Message(kind, slot) => {
            let message = Part::Message(kind, take_message(alloc, slot, part));
            open_part(part, scope, message, inner, number, slot, true)
        }
        _ => {
            let group = Part::Group(Vec::new(alloc));
            let slot = Slot::Unknown(number);
            open_part(part, scope, group, inner, number, slot, true)
        }
    }
}

/// The message that a record opens, and the slot that it goes into, if it opens one.
#[inline(always)]
pub fn message_slot(meant: Target) -> Option<(MessageId, Slot)>
    ensures some { IfSome result (λ r. meant ≡ target.Message r.0 r.1) }
    ensures none { IfNone result (IsNoMessage meant) }
{
    match meant {
        Target::Message(kind, slot) => Some((kind, slot)),
        _ => None,
    }
}
