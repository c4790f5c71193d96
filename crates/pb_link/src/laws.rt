//! Laws of linking.

ghost use Rattle.std.specs.Prelude.{List};
ghost use Rattle.std.specs.List.{AllByRecursion};
ghost use Rattle.pb_schema.specs.Types.{Types};
ghost use Rattle.pb_schema.specs.Rules.{IsPool};
ghost use Rattle.pb_declarations.specs.Decls.{DeclaredFile};
ghost use Rattle.pb_declarations.specs.One.{ExactlyOne};
ghost use Rattle.pb_link_names.specs.Declarations.{declarations};
ghost use Rattle.pb_link.specs.Linking.{Links};
ghost use Rattle.pb_link_rules.specs.Faults.{HasLinkFault};
ghost use Rattle.pb_link.specs.Resolved.{Resolves, IsTypedFile};

pub use crate::declaring::order::{declared_order, declared_pool};

/// Where every rule of linking holds of some files, the types that they declare are a pool.
pub fn linked_types()
    ensures pool { (files : List DeclaredFile) (ts : Types) → Links files ts → IsPool ts }
{}

/// Resolved files have a type number at each field, and each of their type names is a dot and the full name of a type that they declare.
pub fn resolved_types()
    ensures typed { (files answer : List DeclaredFile) → Resolves files answer
        → AllByRecursion (IsTypedFile (declarations files)) answer }
{}

/// Files make one pool, or have one fault, with its file, its declaration and its cause: never both, never two, always one.
pub fn one_pool()
    ensures one { (files : List DeclaredFile) → ExactlyOne (Links files) (HasLinkFault files) }
{}
