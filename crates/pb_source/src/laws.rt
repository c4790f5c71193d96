//! Laws of sources.

ghost use Rattle.std.specs.Prelude.{ℕ, List};
ghost use Rattle.pb_declarations.specs.Decls.{DeclaredFile};
ghost use Rattle.pb_declarations.specs.One.{ExactlyOne};
ghost use Rattle.pb_source_tokens.specs.declared.fault.SourceFault.{SourceFault as FaultValue};
ghost use Rattle.pb_source.specs.Source.{IsSource, HasFault, IsLenientSource, HasLenientFault};

pub use pb_source_tokens::laws::one_lexing;

/// Bytes under a name are a source of one file, or have one fault, with its byte and its cause: never both, never two, always one.
pub fn one_source()
    ensures one { (name bytes : List ℕ) → ExactlyOne (IsSource name bytes) (λ (e : FaultValue). HasFault bytes e.byte e.cause) }
{}

/// The same where they are read leniently.
pub fn one_lenient_source()
    ensures one { (name bytes : List ℕ) → ExactlyOne (IsLenientSource name bytes) (λ (e : FaultValue). HasLenientFault bytes e.byte e.cause) }
{}

/// A source that `parse` takes, `parse_lenient` takes with the same declarations.
pub fn strict_is_lenient()
    ensures { (name bytes : List ℕ) (d : DeclaredFile) → IsSource name bytes d → IsLenientSource name bytes d }
{}
