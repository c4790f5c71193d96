//! The type names and files in declarations, as they are written.

ghost use Rattle.std.specs.Prelude.{◌≡◌, option_map};
ghost use Rattle.pb_declarations.specs.View.{file_view};
ghost use Rattle.pb_link_names.specs.ItemView.{item_view};
ghost use Rattle.pb_link_names.specs.TypeRefs.{names_in, refs_view, file_in};

use crate::item::Item;
use pb_declarations::FileDecl;

/// The type names of a declaration.
#[derive(Clone, Copy)]
pub enum TypeRefs<'a> {
    None,
    One(&'a String),
    /// Input and output.
    Two(&'a String, &'a String),
}

/// The type names that are written in a declaration.
pub fn refs_of(item: Item) -> TypeRefs
    ensures { refs_view result ≡ names_in (item_view item.entry) }
{
    match item {
        Item::Field(_, _, field) => match &field.type_name {
            Some(name) => TypeRefs::One(name),
            None => TypeRefs::None,
        },
        Item::Method(method) => TypeRefs::Two(&method.input, &method.output),
        Item::File(_) => TypeRefs::None,
        Item::Message(_) => TypeRefs::None,
        Item::Oneof(_, _, _) => TypeRefs::None,
        Item::Enum(_) => TypeRefs::None,
        Item::Value(_, _, _) => TypeRefs::None,
        Item::Service(_) => TypeRefs::None,
    }
}

/// The file, of a declaration of one.
pub fn file_in<'a>(item: Item<'a>) -> Option<&'a FileDecl>
    ensures { option_map (λ f. file_view f.now) result ≡ file_in (item_view item.entry) }
{
    match item {
        Item::File(file) => Some(file),
        Item::Message(_) => None,
        Item::Field(_, _, _) => None,
        Item::Oneof(_, _, _) => None,
        Item::Enum(_) => None,
        Item::Value(_, _, _) => None,
        Item::Service(_) => None,
        Item::Method(_) => None,
    }
}
