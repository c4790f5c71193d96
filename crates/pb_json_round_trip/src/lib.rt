//! Laws of JSON: what is written of a value is read back as the same value.
#![tactic(auto)]

ghost use Rattle.std.specs.Prelude.{◌≡◌, ◌<◌, ◌≤◌, ◌^◌, ◌∷◌, [], ℕ, ℤ, List, Some, Ok, pos, true, decimal, to_bits, FitsSigned};
ghost use Rattle.std.specs.Float.{Float, Format, float_is_finite};
ghost use Rattle.std.specs.Fmt.{signed_decimal};
ghost use Rattle.std.specs.Int.{w64};
ghost use Rattle.std.specs.List.{list_all};
ghost use Rattle.std.specs.Str.{is_utf8};
ghost use Rattle.base64.specs.Engines.{standard, standard_no_pad, url_safe, url_safe_no_pad};
ghost use Rattle.base64.specs.GeneralPurpose.{encode_of, IsBytes};
ghost use Rattle.fast_float.specs.Parse.{parse_float};
ghost use Rattle.ryu.specs.Plain.{IsPlainNumber};
ghost use Rattle.pb_json.specs.Masks.{are_paths, is_path, mask_text};
ghost use Rattle.pb_json.specs.Times.{is_instant, is_span, span_text, IsInstantText};
ghost use Rattle.pb_json_scalars.specs.Base64.{base64_bytes};
ghost use Rattle.pb_json_scalars.specs.Clock.{duration, time, timestamp};
ghost use Rattle.pb_json_scalars.specs.Keys.{IsKeyText};
ghost use Rattle.pb_json_scalars.specs.Numbers.{IsFloatText, IsIntegerText};
ghost use Rattle.pb_json_scalars.specs.Paths.{mask_paths};
ghost use Rattle.pb_schema.specs.declared.types.Kind.{Kind as AnyKind};
ghost use Rattle.pb_schema.specs.Closed.{is_declared};
ghost use Rattle.pb_schema.specs.Kinds.{IsOfKind};
ghost use Rattle.pb_schema.specs.Rules.{IsPool};
ghost use Rattle.pb_schema.specs.Scalar.{Scalar, enum};
ghost use Rattle.pb_schema.specs.Types.{Types};
ghost use Rattle.pb_value.specs.Data.{scalar, Message};
ghost use Rattle.pb_value.specs.WellFormed.{IsBody, IsWellFormed};
ghost use Rattle.pb_json.specs.declared.form.JsonForm.{JsonForm as AnyForm};
ghost use Rattle.pb_json.specs.declared.form.Layout.{Layout as AnyLayout};
ghost use Rattle.pb_json.specs.declared.form.Names.{Names as AnyNames};
ghost use Rattle.pb_json.specs.declared.form.Names.TheVariants.{Declared, LowerCamel};
ghost use Rattle.pb_json.specs.Given.{none_given, NamesGiven};
ghost use Rattle.pb_json.specs.Json as written;
ghost use Rattle.pb_json.specs.JsonNames.{lower_camel};
ghost use Rattle.pb_json.specs.JsonText.{IsJsonText};
ghost use Rattle.pb_json.specs.Mapping.{key_name, message_json, scalar_json};
ghost use Rattle.pb_json.specs.WellKnown.{is_null_enum};
ghost use Rattle.pb_json_read.specs.declared.rules.JsonRules.{JsonRules as AnyRules};
ghost use Rattle.pb_json_read.specs.Answers.{IsReadBy};
ghost use Rattle.pb_json_read.specs.Keys.{IsKey};
ghost use Rattle.pb_json_read.specs.Reads.{ReadsMessage};
ghost use Rattle.pb_json_read.specs.Values.{IsScalar};
ghost use Rattle.pb_json_text.specs.Json.{Json, Placed};
ghost use Rattle.pb_json_text.specs.Texts.{IsJson};
ghost use Rattle.pb_json_round_trip.specs.Messages.{AreMemberNames, CamelNamesDiffer, GivenApart, GivenNamesAreRead, IsCovered, IsCoveredWithin};
ghost use Rattle.pb_json_round_trip.specs.Messages.{NamesAreRead, message_with_one_nan};
ghost use Rattle.pb_json_round_trip.specs.Texts.{IsJsonValue, Means, json_depth};
ghost use Rattle.pb_json_round_trip.specs.Scalars.{IsKeyKind, IsNoEnum, with_one_nan};

/// An integer, as its decimal digits with a minus below 0, and as a key.
pub fn written_integers()
    ensures signed { (z : ℤ) → FitsSigned w64 z → IsKeyText (signed_decimal z) z }
    ensures natural { (n : ℕ) → n < 2 ^ 64 → IsKeyText (decimal n) (pos n) }
    ensures values { (s : List ℕ) (z : ℤ) → IsKeyText s z → IsIntegerText s z }
{}

/// A finite float, as any plain number that parses as it.
pub fn written_floats()
    ensures { (f : Format) (x : Float) (s : List ℕ) → IsPlainNumber s → parse_float f s ≡ Some x
        → float_is_finite x ≡ true
        → IsFloatText f s (to_bits f x) }
{}

/// Bytes in base64, in either alphabet, with padding and without it.
pub fn written_bytes()
    ensures standard { (bytes : List ℕ) → IsBytes bytes
        → base64_bytes (encode_of standard bytes) ≡ Some bytes }
    ensures standard_no_pad { (bytes : List ℕ) → IsBytes bytes
        → base64_bytes (encode_of standard_no_pad bytes) ≡ Some bytes }
    ensures url_safe { (bytes : List ℕ) → IsBytes bytes
        → base64_bytes (encode_of url_safe bytes) ≡ Some bytes }
    ensures url_safe_no_pad { (bytes : List ℕ) → IsBytes bytes
        → base64_bytes (encode_of url_safe_no_pad bytes) ≡ Some bytes }
{}

/// A `google.protobuf.Timestamp` in range, as it is written.
pub fn written_timestamps()
    ensures { (seconds : ℤ) (nanos : ℕ) (s : List ℕ) → is_instant seconds (pos nanos) ≡ true
        → IsInstantText seconds nanos s
        → timestamp s ≡ Some (time seconds (pos nanos)) }
{}

/// A `google.protobuf.Duration` in range, as it is written.
pub fn written_durations()
    ensures { (seconds nanos : ℤ) → is_span seconds nanos ≡ true
        → duration (span_text seconds nanos) ≡ Some (time seconds nanos) }
{}

/// A `google.protobuf.FieldMask` that can be written, and each path of it: just those that are read back from their names in lowerCamelCase.
pub fn written_masks()
    ensures masks { (paths : List (List ℕ)) → are_paths paths ≡ true → list_all is_utf8 paths ≡ true
        → mask_paths (mask_text paths) ≡ Some paths }
    ensures one { (p : List ℕ) → is_path p ≡ true → is_utf8 p ≡ true
        → mask_paths (lower_camel p) ≡ Some (p ∷ []) }
    ensures only { (p : List ℕ) → mask_paths (lower_camel p) ≡ Some (p ∷ []) → is_path p ≡ true }
{}

/// A value of a kind that is no message and no enum, as its JSON value; a NaN is read as one NaN.
pub fn written_scalars()
    ensures { (pool : Types) (k : AnyKind) (x : Scalar) (j : Json) → IsNoEnum k → IsOfKind k x
        → Means (scalar_json pool k x) j
        → IsScalar pool k j (scalar (with_one_nan x)) }
{}

/// A value of a kind that is no message, as its JSON value; a NaN is read as one NaN, and a value of `google.protobuf.NullValue` that is not 0 is
/// not read back.
pub fn written_values()
    ensures { (pool : Types) → IsPool pool → (k : AnyKind) (x : Scalar) (j : Json) → IsOfKind k x
        → is_declared pool k x ≡ true
        → (is_null_enum pool k ≡ true → x ≡ enum (pos 0)) → Means (scalar_json pool k x) j
        → IsScalar pool k j (scalar (with_one_nan x)) }
{}

/// A key of a map, as the name of a member.
pub fn written_keys()
    ensures { (k : AnyKind) (x : Scalar) → IsKeyKind k → IsOfKind k x → IsKey k (key_name x) x }
{}

/// A JSON value, as its text in either layout.
pub fn written_texts()
    ensures { (layout : AnyLayout) (j : written.Json) (text : List ℕ) → IsJsonValue j
        → json_depth j ≤ 100 → IsJsonText layout 0 j text
        → (v : Placed) × IsJson v text × Means j v.1 }
{}

/// The name of each field. As it is declared: in each pool, and where fields are given names, if none is given the name by which another field of
/// the message is declared. In lowerCamelCase: in a pool where no two fields of a message have one name. As it is given: where no two fields of a
/// message have one name, and none is declared by that of another.
pub fn written_names()
    ensures declared { (pool : Types) → IsPool pool → NamesAreRead Declared none_given pool }
    ensures declared_beside_given { (pool : Types) (given : NamesGiven) → IsPool pool
        → GivenApart given pool
        → NamesAreRead Declared given pool }
    ensures lower_camel { (pool : Types) → CamelNamesDiffer pool
        → NamesAreRead LowerCamel none_given pool }
    ensures given { (pool : Types) → GivenNamesAreRead pool }
{}

/// A message that is covered, as its JSON value; each NaN is read as one NaN.
pub fn read_messages()
    ensures { (pool : Types) (names : AnyNames) (given : NamesGiven) (rules : AnyRules)
        → IsPool pool → AreMemberNames names
        → NamesAreRead names given pool → (levels m : ℕ) (b : Message) → IsBody pool m b
        → IsCoveredWithin pool levels m b → (at : ℕ) (j : Json)
        → Means (message_json pool names levels m b) j
        → ReadsMessage pool rules given m at j (Ok (message_with_one_nan b)) }
{}

/// A message that is covered, as its text in each form. It nests at most 100 arrays and objects, and each NaN is read as one NaN.
pub fn written_messages()
    ensures { (pool : Types) (form : AnyForm) (given : NamesGiven) (rules : AnyRules) → IsPool pool
        → AreMemberNames form.names
        → NamesAreRead form.names given pool → (m : ℕ) (b : Message) → IsWellFormed pool m b
        → IsCovered pool m b
        → json_depth (message_json pool form.names 101 m b) ≤ 100
        → (text : List ℕ) → IsJsonText form.layout 0 (message_json pool form.names 101 m b) text
        → IsReadBy pool rules given m text (message_with_one_nan b) }
{}
