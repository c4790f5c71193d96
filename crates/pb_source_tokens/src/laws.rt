//! The law of tokens.

ghost use Rattle.std.specs.Prelude.{ℕ, List};
ghost use Rattle.pb_declarations.specs.One.{ExactlyOne};
ghost use Rattle.pb_source_tokens.specs.declared.fault.SourceFault.{SourceFault as FaultValue};
ghost use Rattle.pb_source_tokens.specs.Tokens.{AreTokens, LexFault};

/// Bytes are one list of tokens, or have one fault, with its byte and its cause: never both, never two, always one.
pub fn one_lexing()
    ensures one { (bytes : List ℕ) → ExactlyOne (AreTokens bytes) (λ (e : FaultValue). LexFault bytes e.byte e.cause) }
{}
