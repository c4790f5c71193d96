//! What stays the same while a message is listed.

ghost use Rattle.std.specs.Prelude.{◌≡◌, true};
ghost use Rattle.pb_listing.specs.declared.form.FloatForm.TheVariants.{Bits};

use crate::form::FloatForm;
use pb_output::Sink;
use pb_schema::Pool;

/// The types of a message, and how its floats are listed.
#[derive(Clone, Copy)]
pub(crate) struct Context<'a> {
    pub pool: &'a Pool,
    pub floats: FloatForm,
}

impl Context<'_> {
    /// Whether nothing more need be put: the output failed. In decimal the rest is put all the same, since only printing a float gives its
    /// digits, of which the contracts speak.
    pub(crate) fn is_over(&self, sink: &Sink) -> bool
        ensures failed { result ≡ true → sink.now.failed ≡ true }
        ensures bits { result ≡ true → self.now.floats ≡ Bits }
    {
        self.floats == FloatForm::Bits && sink.has_failed()
    }
}
