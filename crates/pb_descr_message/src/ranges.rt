//! Reads the numbers of declarations, so that proofs know that they fit 32 bits.

ghost use Rattle.std.specs.Prelude.{◌≤◌, map, IfSome};
ghost use Rattle.std.specs.List.{AllByRecursion};
ghost use Rattle.pb_declarations.specs.Decls.{messages_of};
ghost use Rattle.pb_declarations.specs.Nests.{nests, all_nest};
ghost use Rattle.pb_declarations.specs.View.{field_view, numbered_view, enum_view, message_view, file_view};
ghost use Rattle.pb_descr_message.specs.Ranges.{IsInt32, IsFieldInRange, IsRangeInRange, IsValueInRange, IsEnumInRange};
ghost use Rattle.pb_descr_message.specs.Ranges.{IsMessageInRange, IsFileInRange};

use pb_declarations::{EnumDecl, FieldDecl, FileDecl, MessageDecl};

/// What has numbers, which are in range once they are read.
trait Ranged {
    ghost InRange: { Self → Type 0 };

    fn read(&self)
        ensures { InRange self.now };
}

fn read_all<T: Ranged>(items: &[T])
    ensures { AllByRecursion T.InRange items.now }
{
    for item in items {
        item.read();
    }
}

impl Ranged for i32 {
    ghost InRange = { IsInt32 };

    fn read(&self) {
        let _number = *self;
    }
}

impl Ranged for (i32, i32) {
    ghost InRange = { IsRangeInRange };

    fn read(&self) {
        let (_start, _end) = *self;
    }
}

impl Ranged for (String, i32) {
    ghost InRange = { λ v. IsValueInRange (numbered_view v) };

    fn read(&self) {
        let _number = self.1;
    }
}

fn read_optional(number: Option<i32>)
    ensures { IfSome number IsInt32 }
{
    if let Some(number) = number {
        let _number = number;
    }
}

impl Ranged for FieldDecl {
    ghost InRange = { λ f. IsFieldInRange (field_view f) };

    fn read(&self) {
        let _number = self.number;
        read_optional(self.oneof);
    }
}

impl Ranged for EnumDecl {
    ghost InRange = { λ e. IsEnumInRange (enum_view e) };

    fn read(&self) {
        read_all(&self.values);
        read_all(&self.reserved);
    }
}

/// Shows that a message is in range, if it nests at most `levels` deep, itself included.
#[cycle(read_messages)]
fn read_message(message: &MessageDecl, levels: u8)
    ensures { nests (message_view message.now) ≤ levels
        → IsMessageInRange (message_view message.now) }
{
    if levels == 0 {
        return;
    }
    read_all(&message.fields);
    read_all(&message.enums);
    read_all(&message.reserved);
    read_messages(&message.messages, levels - 1);
}

#[cycle(read_messages)]
fn read_messages(messages: &Vec<MessageDecl>, levels: u8)
    ensures { AllByRecursion (λ m. nests m ≤ levels → IsMessageInRange m)
        (map message_view messages.now.items) }
{
    for message in messages {
        read_message(message, levels);
    }
}

fn read_file(file: &FileDecl)
    ensures { all_nest (file_view file.now).messages ≤ 100 → IsFileInRange (file_view file.now) }
{
    read_all(&file.public);
    read_all(&file.enums);
    read_messages(&file.messages, 100);
}

/// Reads the numbers of files.
pub(crate) fn read_files(files: &[FileDecl])
    ensures { AllByRecursion (λ f. all_nest f.messages ≤ 100 → IsFileInRange f)
        (map file_view files.now) }
{
    for file in files {
        read_file(file);
    }
}
