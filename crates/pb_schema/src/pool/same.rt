//! Whether the parts of two pools are the same. By value: the language compares no addresses.

ghost use Rattle.std.specs.Prelude.{◌≡◌, map};
ghost use Rattle.std.specs.Bool.{Decides};
ghost use Rattle.pb_schema.specs.View.{file_view, message_view, enum_view};

use crate::types::{EnumType, FileInfo, MessageType};

pub(crate) fn same_files(a: &[FileInfo], b: &[FileInfo]) -> bool
    ensures { Decides result (map file_view a.now ≡ map file_view b.now) }
{
    a == b
}

pub(crate) fn same_messages(a: &[MessageType], b: &[MessageType]) -> bool
    ensures { Decides result (map message_view a.now ≡ map message_view b.now) }
{
    a == b
}

pub(crate) fn same_enums(a: &[EnumType], b: &[EnumType]) -> bool
    ensures { Decides result (map enum_view a.now ≡ map enum_view b.now) }
{
    a == b
}
