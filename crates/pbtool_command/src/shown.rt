//! How frames are shown, by the names that a set gives.

use pb_json::JsonNames;
use pb_listing::FloatForm;

/// How the messages of a stream are printed, where their types are known.
#[derive(Clone, Copy, Debug)]
pub(crate) enum Shown<'n> {
    /// Each as a line that says where its frame is, and its listing, with floats in a form.
    Listing(FloatForm),
    /// Each as its JSON text on one line, with these names of fields.
    Json(&'n JsonNames),
}
