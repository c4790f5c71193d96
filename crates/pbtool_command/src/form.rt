//! What is made of a message.

ghost use Rattle.std.specs.Prelude.{◌≡◌, ◌++◌, ◌<◌, ◌≤◌, ◌^◌, [], codes, length, IfOk, IfErr, OnOk, MatchResult, true};
ghost use Rattle.hex.specs.Hex.{encode_lower};
ghost use Rattle.pb_encode.specs.Encoding.{bytes_of};
ghost use Rattle.pbtool_files.specs.Answer.{done, saves, refused};
ghost use Rattle.pbtool_files.specs.FileMap.{IsSaved, IsUnsaved};
ghost use Rattle.pb_json.specs.Answers.{RefusedAs};
ghost use Rattle.pbtool_command.specs.JsonAnswer.{IsJsonLine, JsonAnswer};
ghost use Rattle.pbtool_command.specs.MessageAnswer.{CanonAnswer, FormAnswer, ListingAnswer};
ghost use Rattle.pbtool_command.specs.TextAnswer.{AreTextLines, TextAnswer, text_end};
ghost use Rattle.pb_listing.specs.Putting.{CutSome, PutsSome, SentSome};
ghost use Rattle.pb_listing.specs.RawListing.{line_feed};
ghost use Rattle.pbtool_files.specs.Refusal.{KeepsFailures, Refuses};
ghost use Rattle.pbtool_files.specs.Report.{too_large_line};
ghost use Rattle.pb_output.specs.Sending.{Cut, Sent};
ghost use Rattle.pbtool_command.specs.Steps.{Comes, IsNothing, NoFile, WritesLine};

use pb_encode::{EncodeError, encode};
use pb_json::{JsonError, JsonForm, JsonNames, Layout, Names, put_json};
use pb_listing::{FloatForm, write_message_as};
use pb_output::Sink;
use pb_text::{Layout as TextLayout, TextForm, put_text};
use pb_value::DynamicMessage;
use pb_wire::{DeviceFault, Output, write_all};
use pbtool_files::{Files, OUTPUT, Refusal};

/// What is made of a message.
#[derive(Clone, Copy, Debug)]
pub enum Form<'a, 'n> {
    /// A line that says that it is one.
    Check,
    /// Its listing, with floats in a form.
    Listing(FloatForm),
    /// Its JSON text, with these names of fields, and a line feed.
    Json(Layout, &'n JsonNames),
    /// Its text in a form of the text format, as whole lines.
    Text(TextForm),
    /// Its canonical bytes, as a line of hexadecimal.
    Canonical,
    /// Its canonical bytes, in the file of a path.
    CanonicalFile(&'a str),
}

/// Makes it of a message: on standard output, or in a file.
pub fn make<'a, F: Files, O: Output>(
    form: Form<'a, '_>,
    message: &DynamicMessage<'_>,
    files: &mut F,
    out: &mut O,
) -> Result<(), Refusal<'a>>
    ensures comes { Comes (Sent O.written O.failures out.old out.new)
        (Cut O.written O.failures out.old out.new)
        (IsSaved F.contents files.old files.new)
        (IsUnsaved F.contents F.failures files.old files.new)
        (FormAnswer form.entry message.now) IsNothing result }
    ensures kept { KeepsFailures F.failures files.old files.new result }
    ensures unfailing { F.takes_writes files.old ≡ true
        → F.failures files.new ≡ F.failures files.old }
{
    match form {
        Form::Check => print_ok(out),
        Form::Listing(floats) => print_listing(floats, message, out),
        Form::Json(layout, names) => print_json(layout, names, message, out),
        Form::Text(text_form) => print_text(text_form, message, out),
        Form::Canonical => print_canonical(message, out),
        Form::CanonicalFile(path) => save_canonical(message, path, files),
    }
}

/// Says that a file is a message.
pub(crate) fn print_ok<'a, O: Output>(out: &mut O) -> Result<(), Refusal<'a>>
    ensures { Comes (Sent O.written O.failures out.old out.new)
        (Cut O.written O.failures out.old out.new) NoFile (λ _. ⊥)
        (λ a. a ≡ done (codes "ok\n")) IsNothing result }
{
    match write_all(out, b"ok\n") {
        Ok(()) => Ok(()),
        Err(_) => Err(Refusal::Device(OUTPUT)),
    }
}

fn print_listing<'a, O: Output>(
    floats: FloatForm,
    message: &DynamicMessage<'_>,
    out: &mut O,
) -> Result<(), Refusal<'a>>
    ensures { Comes (Sent O.written O.failures out.old out.new)
        (Cut O.written O.failures out.old out.new) NoFile (λ _. ⊥)
        (ListingAnswer floats message.now) IsNothing result }
{
    match write_message_as(out, message, floats) {
        Ok(()) => Ok(()),
        Err(_) => Err(Refusal::Device(OUTPUT)),
    }
}

fn print_json<'a, O: Output>(
    layout: Layout,
    names: &JsonNames,
    message: &DynamicMessage<'_>,
    out: &mut O,
) -> Result<(), Refusal<'a>>
    ensures { Comes (Sent O.written O.failures out.old out.new)
        (Cut O.written O.failures out.old out.new) NoFile (λ _. ⊥)
        (JsonAnswer layout names.entry message.now) IsNothing result }
{
    match write_json_line(layout, names, message, out) {
        Ok(()) => Ok(()),
        Err(JsonError::Refused(refusal)) => Err(Refusal::Json {
            path: refusal.path,
            cause: refusal.cause,
        }),
        Err(JsonError::Memory) => Err(Refusal::Memory),
        Err(JsonError::Output) => Err(Refusal::Device(OUTPUT)),
    }
}

/// Writes the JSON text of a message, and a line feed.
fn write_json_line<O: Output>(
    layout: Layout,
    names: &JsonNames,
    message: &DynamicMessage<'_>,
    out: &mut O,
) -> Result<(), JsonError>
    ensures { WritesLine O.written O.failures out.old out.new layout names.entry
        message.now result }
{
    let mut sink = Sink::new();
    if let Err(error) = put_json_line(&mut sink, out, layout, names, message) {
        return Err(error);
    }
    match sink.finish(out) {
        Ok(()) => Ok(()),
        Err(_) => Err(JsonError::Output),
    }
}

/// Puts the JSON text of a message, and a line feed. Where a part of the message has no JSON form, nothing is put.
pub(crate) fn put_json_line<O: Output>(
    sink: &mut Sink,
    out: &mut O,
    layout: Layout,
    names: &JsonNames,
    message: &DynamicMessage<'_>,
) -> Result<(), JsonError>
    ensures put { OnOk result (PutsSome O.written O.failures out.old out.new sink.old sink.new
        (IsJsonLine layout names.entry message.now)) }
    ensures failed { IfErr result (λ e. RefusedAs message.now e × (out.new ≡ out.old)
        × (sink.new ≡ sink.old)) }
{
    let form = JsonForm {
        names: Names::Given(names),
        layout,
    };
    match put_json(sink, out, message.alloc(), &message.view(), form) {
        Ok(()) => {
            sink.put(out, b"\n");
            Ok(())
        }
        Err(error) => Err(error),
    }
}

fn print_text<'a, O: Output>(
    form: TextForm,
    message: &DynamicMessage<'_>,
    out: &mut O,
) -> Result<(), Refusal<'a>>
    ensures { Comes (Sent O.written O.failures out.old out.new)
        (Cut O.written O.failures out.old out.new) NoFile (λ _. ⊥)
        (TextAnswer form message.now) IsNothing result }
{
    match write_text_lines(form, message, out) {
        Ok(()) => Ok(()),
        Err(_) => Err(Refusal::Device(OUTPUT)),
    }
}

/// Writes the text of a message as whole lines: a text on one line has none of its own.
fn write_text_lines<O: Output>(
    form: TextForm,
    message: &DynamicMessage<'_>,
    out: &mut O,
) -> Result<(), DeviceFault>
    ensures { MatchResult result
        (λ _. SentSome O.written O.failures out.old out.new (AreTextLines form message.now))
        (λ _. CutSome O.written O.failures out.old out.new (AreTextLines form message.now)) }
{
    let mut sink = Sink::new();
    put_text(&mut sink, out, &message.view(), form);
    sink.put(out, text_end(form.layout));
    sink.finish(out)
}

/// What follows a text, so that its last line ends.
fn text_end(layout: TextLayout) -> &'static [u8]
    ensures { result.now ≡ text_end layout }
{
    match layout {
        TextLayout::Lines => b"",
        TextLayout::OneLine => b"\n",
    }
}

fn print_canonical<'a, O: Output>(
    message: &DynamicMessage<'_>,
    out: &mut O,
) -> Result<(), Refusal<'a>>
    ensures { Comes (Sent O.written O.failures out.old out.new)
        (Cut O.written O.failures out.old out.new) NoFile (λ _. ⊥)
        (CanonAnswer (bytes_of message.now) (done
        (encode_lower (bytes_of message.now) ++ line_feed))) IsNothing result }
{
    let bytes = canonical(message)?;
    match write_hex_line(&bytes, out) {
        Ok(()) => Ok(()),
        Err(_) => Err(Refusal::Device(OUTPUT)),
    }
}

/// The bytes in hexadecimal, as a line.
fn write_hex_line<O: Output>(bytes: &[u8], out: &mut O) -> Result<(), DeviceFault>
    ensures { MatchResult result (λ _. Sent O.written O.failures out.old out.new
        (encode_lower bytes.now ++ line_feed))
        (λ _. Cut O.written O.failures out.old out.new (encode_lower bytes.now ++ line_feed)) }
{
    let mut sink = Sink::new();
    sink.put_hex(out, bytes);
    sink.put(out, b"\n");
    sink.finish(out)
}

/// Writes its canonical bytes to a file.
pub(crate) fn save_canonical<'a, F: Files>(
    message: &DynamicMessage<'_>,
    path: &'a str,
    files: &mut F,
) -> Result<(), Refusal<'a>>
    ensures comes { Comes (λ text. text ≡ []) (λ _. ⊥)
        (IsSaved F.contents files.old files.new)
        (IsUnsaved F.contents F.failures files.old files.new)
        (CanonAnswer (bytes_of message.now) (saves path.entry.now (bytes_of message.now)))
        IsNothing result }
    ensures kept { KeepsFailures F.failures files.old files.new result }
    ensures unfailing { F.takes_writes files.old ≡ true
        → F.failures files.new ≡ F.failures files.old }
{
    let bytes = canonical(message)?;
    match files.write_whole(path, &bytes) {
        Ok(()) => Ok(()),
        Err(_) => Err(Refusal::Device(path)),
    }
}

/// The canonical bytes.
fn canonical<'a>(message: &DynamicMessage<'_>) -> Result<Vec<u8>, Refusal<'a>>
    ensures made { IfOk result (λ v. (v.items ≡ bytes_of message.now) × (length v.items < 2 ^ 31)) }
    ensures refused { IfErr result (Refuses (λ a. (2 ^ 31 ≤ length (bytes_of message.now))
        × (a ≡ refused too_large_line))) }
{
    match encode(message) {
        Ok(bytes) => Ok(bytes),
        Err(EncodeError::TooLarge) => Err(Refusal::TooLarge),
        Err(_) => Err(Refusal::Memory),
    }
}
