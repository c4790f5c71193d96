//! The text of a message, in the text format.

ghost use Rattle.std.specs.Prelude.{◌≡◌, ◌≢◌, ◌⊎◌};
ghost use Rattle.pb_c_answers.specs.Text.{IsTextLaid, form_of};

use crate::reporting::{DONE, MEMORY};
use crate::typed::write_out;
use pb_text::{Characters, Layout, TextForm, UnknownRecords, write_text};
use pb_value::DynamicMessage;
use pb_wire::{FailurePlan, MemOutput};

/// A form of the text format. Without any flag it is the form of `protoc --decode`.
#[repr(C)]
#[derive(Clone, Copy, Debug, PartialEq, Eq)]
pub struct TextFlags {
    /// All fields are on one line.
    pub single_line: bool,
    /// Strings are written as they are.
    pub utf8: bool,
    /// The records that no field has are left out.
    pub omit_unknown: bool,
}

impl TextFlags {
    /// The form that the flags name.
    fn form(self) -> TextForm
        ensures { result ≡ form_of self }
    {
        TextForm {
            layout: if self.single_line {
                Layout::OneLine
            } else {
                Layout::Lines
            },
            characters: if self.utf8 {
                Characters::Utf8
            } else {
                Characters::Escaped
            },
            unknown: if self.omit_unknown {
                UnknownRecords::Omitted
            } else {
                UnknownRecords::ByNumber
            },
        }
    }
}

/// Writes the text of a message, in the form of flags. It is made in memory first, so nothing is written where that runs out.
pub fn write_as_text(
    message: &DynamicMessage<'_>,
    flags: TextFlags,
    out: &mut [u8],
    size: &mut usize,
) -> u32
    ensures written { result ≡ DONE → IsTextLaid flags message.now out.old out.new size.new }
    ensures unwritten { result ≢ DONE → (out.new ≡ out.old) × (size.new ≡ size.old) }
    ensures answers { (result ≡ DONE) ⊎ (result ≡ MEMORY) }
{
    let mut text = MemOutput::new(message.alloc(), usize::MAX, FailurePlan::NEVER);
    match write_text(&mut text, &message.view(), flags.form()) {
        Ok(()) => {
            write_out(text.bytes(), out, size);
            DONE
        }
        Err(_) => MEMORY,
    }
}
