//! The rules of declaration order.

ghost use Rattle.std.specs.Prelude.{◌≡◌, ◌↔◌, ◌<◌, ◌+◌, ℕ, IsTrue, map};
ghost use Rattle.pb_schema.specs.View.{message_view, enum_view, parent_view};
ghost use Rattle.pb_schema.specs.Nesting.{parent_of, IsWithin, ParentsStandBefore};
ghost use Rattle.pb_schema.specs.Rules.{FilesRise, FollowsParent, MessagesStandInOrder, EndsNoLater, StandsBefore, EnumsStandInOrder};

use crate::types::{EnumType, MessageId, MessageType};

/// The message that one is declared in directly.
fn parent_of(messages: &[MessageType], index: usize) -> Option<MessageId>
    ensures { parent_view result ≡ parent_of (map message_view messages.now) index }
{
    match messages.get(index) {
        Some(message) => message.parent,
        None => None,
    }
}

/// The inner message is the outer one, or is declared in it.
fn is_within(messages: &[MessageType], outer: usize, inner: usize) -> bool
    requires { ParentsStandBefore (map message_view messages.now) (inner + 1) }
    ensures { IsTrue result ↔ IsWithin (map message_view messages.now) outer inner }
{
    let mut at = inner;
    while at > outer {
        match parent_of(messages, at) {
            Some(parent) => at = parent.0,
            None => return false,
        }
    }
    at == outer
}

fn follows_parent(messages: &[MessageType], index: usize) -> bool
    requires { ParentsStandBefore (map message_view messages.now) index }
    ensures { IsTrue result ↔ FollowsParent (map message_view messages.now) index }
{
    match parent_of(messages, index) {
        None => true,
        Some(parent) => index > 0 && is_within(messages, parent.0, index - 1),
    }
}

fn all_follow_parents(messages: &[MessageType]) -> bool
    ensures { IsTrue result ↔ ((i : ℕ) → FollowsParent (map message_view messages.now) i) }
{
    for index in 0..messages.len() {
        if !follows_parent(messages, index) {
            return false;
        }
    }
    true
}

fn files_rise(messages: &[MessageType]) -> bool
    ensures { IsTrue result ↔ FilesRise (map message_view messages.now) }
{
    for next in 1..messages.len() {
        if messages[next - 1].file > messages[next].file {
            return false;
        }
    }
    true
}

pub(crate) fn messages_stand_in_order(messages: &[MessageType]) -> bool
    ensures { IsTrue result ↔ MessagesStandInOrder (map message_view messages.now) }
{
    files_rise(messages) && all_follow_parents(messages)
}

/// The enums in one message come before those in the other, or both are the same.
fn ends_no_later(
    messages: &[MessageType],
    before: Option<MessageId>,
    after: Option<MessageId>,
) -> bool
    requires { (i : ℕ) → FollowsParent (map message_view messages.now) i }
    ensures { IsTrue result ↔ EndsNoLater (map message_view messages.now) (parent_view before) (parent_view after) }
{
    match (before, after) {
        (_, None) => true,
        (None, Some(_)) => false,
        (Some(a), Some(b)) => {
            is_within(messages, b.0, a.0) || (a.0 < b.0 && !is_within(messages, a.0, b.0))
        }
    }
}

fn stands_before(messages: &[MessageType], before: &EnumType, after: &EnumType) -> bool
    requires { (i : ℕ) → FollowsParent (map message_view messages.now) i }
    ensures { IsTrue result ↔ StandsBefore (map message_view messages.now) (enum_view before.now) (enum_view after.now) }
{
    before.file < after.file
        || (before.file == after.file && ends_no_later(messages, before.parent, after.parent))
}

pub(crate) fn enums_stand_in_order(messages: &[MessageType], enums: &[EnumType]) -> bool
    requires { (i : ℕ) → FollowsParent (map message_view messages.now) i }
    ensures { IsTrue result ↔ EnumsStandInOrder (map message_view messages.now) (map enum_view enums.now) }
{
    for next in 1..enums.len() {
        if !stands_before(messages, &enums[next - 1], &enums[next]) {
            return false;
        }
    }
    true
}
