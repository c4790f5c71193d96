//! The results of looking up type names, one declaration after another.

ghost use Rattle.std.specs.Prelude.{◌≡◌, drop};
ghost use Rattle.pb_link_names.specs.View.{type_names_view};
ghost use Rattle.pb_link.specs.Resolving.{coming, names_here};

use pb_link_names::found::TypeNames;

/// The types found for the names of the declarations that come next, in declaration order.
#[derive(Drop)]
pub(crate) struct Upcoming<'a> {
    pub(crate) rest: &'a [TypeNames],
}

/// What is left after the first `count`.
#[tactic(auto, using(std::proofs::lemmas::List::drop_all))]
fn behind(found: &[TypeNames], count: usize) -> &[TypeNames]
    ensures { result.now ≡ drop count found.now }
{
    if count < found.len() {
        return &found[count..];
    }
    &found[found.len()..]
}

impl<'a> Upcoming<'a> {
    /// Takes the types found for the names of the next declaration.
    pub(crate) fn next(&mut self) -> TypeNames
        ensures names { type_names_view result ≡ names_here (coming self.old) }
        ensures rest { coming self.new ≡ drop 1 (coming self.old) }
    {
        let Some((first, rest)) = self.rest.split_first() else {
            return TypeNames::None;
        };
        self.rest = rest;
        *first
    }

    /// Skips `count` declarations.
    pub(crate) fn skip(&mut self, count: usize)
        ensures { coming self.new ≡ drop count (coming self.old) }
    {
        self.rest = behind(self.rest, count);
    }
}
