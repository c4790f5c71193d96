//! A pool of sources, by the strict grammar of proto3 or by the lenient one.

ghost use Rattle.std.specs.Prelude.{◌≡◌, ◌≢◌, ◌↔◌, ◌⊎◌, ℕ, List, IsUtf8, IfOk, IfErr, map};
ghost use Rattle.std.specs.Bool.{Decides};
ghost use Rattle.pb_declarations.specs.View.{file_view};
ghost use Rattle.pb_schema.specs.Types.{Types};
ghost use Rattle.pb_source_tokens.specs.Fault.{out_of_memory};
ghost use Rattle.pb_source.specs.Source.{HasFaultIn, IsSourceIn};
ghost use Rattle.pb_source.specs.declared.reading.Reading.TheVariants.{Lenient, Strict};
ghost use Rattle.pb_c_handles.specs.Held.{HoldsNames, types_held};
ghost use Rattle.pb_json.specs.Given.{none_given};
ghost use Rattle.pb_c.specs.PoolFault.{PoolFault, TellsRefusal};
ghost use Rattle.pb_c.specs.SourcePool.{AreNames, AreNamed, AreRead, AreSources, IsLinkedAs, IsUnparsed, SourceFails, SourcesFail, SourcesMake};

use super::linking::link_files;
use super::refusal::Refusal;
use pb_c_answers::{BAD_NAME, DONE, MEMORY};
use pb_c_handles::pool::{PoolHandle, take};
use pb_declarations::FileDecl;
use pb_link::without_enum_maps;
use pb_source::reading::Reading;
use pb_source::{SourceCause, SourceFault, parse, parse_lenient};
use std::alloc::{AllocError, AllocFailed, Global};

/// Why sources are not parsed: the first that is none, by its index, where, and why.
#[derive(Debug, Drop)]
pub(crate) enum Unparsed {
    Source {
        index: usize,
        byte: u64,
        cause: SourceCause,
    },
    Memory,
}

impl<T: Drop> From<AllocFailed<T>> for Unparsed {
    ghost use Rattle.pb_c.specs.declared.pool.compile.Unparsed.TheVariants.{Memory};

    ghost from_gives = { λ _ e. e ≡ Memory };

    fn from(_: AllocFailed<T>) -> Unparsed {
        Unparsed::Memory
    }
}

/// Whether each name is UTF-8.
fn are_names(names: &[&[u8]]) -> bool
    ensures { Decides result (AreNames names.now) }
{
    for name in names {
        if std::str::from_utf8(name).is_err() {
            return false;
        }
    }
    true
}

/// What a source declares by a grammar, as the file of its name.
fn parse_by(
    alloc: Global,
    grammar: Reading,
    name: &str,
    text: &[u8],
) -> Result<FileDecl, SourceFault>
    ensures declared { IfOk result (λ f. IsSourceIn grammar name.now text.now (file_view f)) }
    ensures refused { IfErr result (λ e. (e ≡ out_of_memory)
        ⊎ HasFaultIn grammar text.now e.byte e.cause) }
{
    match grammar {
        Reading::Strict => parse(alloc, name, text),
        Reading::Lenient => parse_lenient(alloc, name, text),
    }
}

/// What the source of an index declares, as the file of its name.
fn parse_at(
    alloc: Global,
    grammar: Reading,
    index: usize,
    name: &[u8],
    text: &[u8],
) -> Result<FileDecl, Unparsed>
    requires { IsUtf8 name.now }
    ensures declared { IfOk result (λ f. IsSourceIn grammar name.now text.now (file_view f)) }
    ensures refused { IfErr result
        (IsUnparsed (λ i byte c. (i ≡ index) × HasFaultIn grammar text.now byte c)) }
{
    let Ok(name) = std::str::from_utf8(name) else {
        unreachable!()
    };
    match parse_by(alloc, grammar, name, text) {
        Ok(file) => Ok(file),
        Err(
            SourceFault {
                byte: _,
                cause: SourceCause::Memory,
            },
        ) => Err(Unparsed::Memory),
        Err(SourceFault { byte, cause }) => Err(Unparsed::Source { index, byte, cause }),
    }
}

/// What sources declare, as the files of their names.
fn parse_all(
    alloc: Global,
    grammar: Reading,
    names: &[&[u8]],
    texts: &[&[u8]],
) -> Result<Vec<FileDecl>, Unparsed>
    requires { AreNamed names.now texts.now }
    ensures declared { IfOk result
        (λ v. AreSources grammar names.now texts.now (map file_view v.items)) }
    ensures refused { IfErr result (IsUnparsed (SourceFails grammar names.now texts.now)) }
{
    let mut files = Vec::new(alloc);
    for i in 0..names.len() {
        let file = parse_at(alloc, grammar, i, names[i], texts[i])?;
        files.push(file)?;
    }
    Ok(files)
}

/// The files that are linked, of those that were parsed by a grammar.
fn files_to_link(
    alloc: Global,
    grammar: Reading,
    parsed: Vec<FileDecl>,
) -> Result<Vec<FileDecl>, AllocError>
    ensures { IfOk result (λ v. IsLinkedAs grammar (map file_view parsed.items)
        (map file_view v.items)) }
{
    match grammar {
        Reading::Strict => Ok(parsed),
        Reading::Lenient => without_enum_maps(alloc, &parsed),
    }
}

/// The files that are linked, of sources.
fn read_all(
    alloc: Global,
    grammar: Reading,
    names: &[&[u8]],
    texts: &[&[u8]],
) -> Result<Vec<FileDecl>, Unparsed>
    requires { AreNamed names.now texts.now }
    ensures read { IfOk result (λ v. AreRead grammar names.now texts.now (map file_view v.items)) }
    ensures refused { IfErr result (IsUnparsed (SourceFails grammar names.now texts.now)) }
{
    let parsed = parse_all(alloc, grammar, names, texts)?;
    match files_to_link(alloc, grammar, parsed) {
        Ok(files) => Ok(files),
        Err(_) => Err(Unparsed::Memory),
    }
}

/// Reports why sources are not parsed, and answers by its number.
fn tell_source(error: &Unparsed, refusal: &mut Refusal) -> u32
    ensures told { IsUnparsed (λ i byte c. (text : List ℕ)
        → TellsRefusal (PoolFault.in_source i byte c) result refusal.old refusal.new text text)
        error.now }
    ensures memory { error.now ≡ Unparsed.Memory → (result ≡ MEMORY) × (refusal.new ≡ refusal.old) }
{
    match error {
        Unparsed::Source { index, byte, cause } => {
            *refusal = Refusal {
                file: *index,
                byte: *byte,
                file_len: 0,
                name_len: 0,
            };
            u32::from(cause.number())
        }
        Unparsed::Memory => MEMORY,
    }
}

/// As `mb_pool_compile`, by a grammar, said of what was answered.
fn compile_sources(
    alloc: Global,
    grammar: Reading,
    names: &[&[u8]],
    texts: &[&[u8]],
    pool: &mut PoolHandle,
    refusal: &mut Refusal,
    text: &mut [u8],
) -> u32
    ensures made { result ≡ DONE → (ts : Types) × SourcesMake grammar names.now texts.now ts
        × (types_held pool.new ≡ Some ts) }
    ensures no_names { result ≡ DONE → HoldsNames (λ ts names. names ≡ none_given) pool.new }
    ensures left { result ≢ DONE → types_held pool.new ≡ None }
    ensures bad_name { result ≡ BAD_NAME ↔ ¬ AreNamed names.now texts.now }
    ensures refused { AreNamed names.now texts.now → result ≢ DONE → result ≢ MEMORY
        → (w : PoolFault) × SourcesFail grammar names.now texts.now w
        × TellsRefusal w result refusal.old refusal.new text.old text.new }
    ensures untold { (result ≡ DONE) ⊎ (result ≡ BAD_NAME) ⊎ (result ≡ MEMORY)
        → (refusal.new ≡ refusal.old) × (text.new ≡ text.old) }
{
    let _ = take(alloc, pool);
    if names.len() != texts.len() || !are_names(names) {
        return BAD_NAME;
    }
    match read_all(alloc, grammar, names, texts) {
        Ok(files) => link_files(alloc, &files, None, pool, refusal, text),
        Err(error) => tell_source(&error, refusal),
    }
}

/// Links the types of sources of proto3 into a handle, in place of what it held: a name for each source, as imports name it, and its text.
/// Its pool holds no names of fields in JSON: the option `json_name` of a source is passed over.
///
/// Answers DONE; BAD_NAME where there are not as many names as texts, or a name is not UTF-8; the number of a cause, 50 or from 61 to 69,
/// with the source's index and the byte in the refusal, for the first source that is none; the number of a cause, from 71 to 89, with the
/// lengths of the file's name and of the declaration's full name in the refusal and both as text, as much as the buffer holds, where the
/// files do not link; or MEMORY. At any answer but DONE the handle holds nothing. What is not reported is not written.
#[unsafe(no_mangle)]
pub extern "C" fn mb_pool_compile(
    alloc: Global,
    names: &[&[u8]],
    texts: &[&[u8]],
    pool: &mut PoolHandle,
    refusal: &mut Refusal,
    text: &mut [u8],
) -> u32
    ensures made { result ≡ DONE → (ts : Types) × SourcesMake Strict names.now texts.now ts
        × (types_held pool.new ≡ Some ts) }
    ensures no_names { result ≡ DONE → HoldsNames (λ ts names. names ≡ none_given) pool.new }
    ensures left { result ≢ DONE → types_held pool.new ≡ None }
    ensures bad_name { result ≡ BAD_NAME ↔ ¬ AreNamed names.now texts.now }
    ensures refused { AreNamed names.now texts.now → result ≢ DONE → result ≢ MEMORY
        → (w : PoolFault) × SourcesFail Strict names.now texts.now w
        × TellsRefusal w result refusal.old refusal.new text.old text.new }
    ensures untold { (result ≡ DONE) ⊎ (result ≡ BAD_NAME) ⊎ (result ≡ MEMORY)
        → (refusal.new ≡ refusal.old) × (text.new ≡ text.old) }

    // What makes a pool is linked, and the fault of what makes none is reported, unless memory runs out.
    ensures accepted { AreNamed names.now texts.now → (ts : Types)
        → SourcesMake Strict names.now texts.now ts
        → ((result ≡ DONE) × (types_held pool.new ≡ Some ts)) ⊎ (result ≡ MEMORY) }
    ensures told { AreNamed names.now texts.now → (w : PoolFault)
        → SourcesFail Strict names.now texts.now w
        → TellsRefusal w result refusal.old refusal.new text.old text.new ⊎ (result ≡ MEMORY) }
{
    compile_sources(alloc, Reading::Strict, names, texts, pool, refusal, text)
}

/// Links the types of sources into a handle, as `mb_pool_compile` does, by the lenient grammars of proto3 and proto2: what declares no
/// message, enum or service is read and left out, as parts of an option's name in parentheses, constants in braces, default values, blocks
/// of `extend` and ranges of extensions (Protocol Buffers Language Specification, Proto3 and Proto2). A map in a file of proto2 whose values
/// are of an enum is the list of its entries.
///
/// Answers as `mb_pool_compile` does.
#[unsafe(no_mangle)]
pub extern "C" fn mb_pool_compile_lenient(
    alloc: Global,
    names: &[&[u8]],
    texts: &[&[u8]],
    pool: &mut PoolHandle,
    refusal: &mut Refusal,
    text: &mut [u8],
) -> u32
    ensures made { result ≡ DONE → (ts : Types) × SourcesMake Lenient names.now texts.now ts
        × (types_held pool.new ≡ Some ts) }
    ensures no_names { result ≡ DONE → HoldsNames (λ ts names. names ≡ none_given) pool.new }
    ensures left { result ≢ DONE → types_held pool.new ≡ None }
    ensures bad_name { result ≡ BAD_NAME ↔ ¬ AreNamed names.now texts.now }
    ensures refused { AreNamed names.now texts.now → result ≢ DONE → result ≢ MEMORY
        → (w : PoolFault) × SourcesFail Lenient names.now texts.now w
        × TellsRefusal w result refusal.old refusal.new text.old text.new }
    ensures untold { (result ≡ DONE) ⊎ (result ≡ BAD_NAME) ⊎ (result ≡ MEMORY)
        → (refusal.new ≡ refusal.old) × (text.new ≡ text.old) }

    // What makes a pool is linked, and the fault of what makes none is reported, unless memory runs out.
    ensures accepted { AreNamed names.now texts.now → (ts : Types)
        → SourcesMake Lenient names.now texts.now ts
        → ((result ≡ DONE) × (types_held pool.new ≡ Some ts)) ⊎ (result ≡ MEMORY) }
    ensures told { AreNamed names.now texts.now → (w : PoolFault)
        → SourcesFail Lenient names.now texts.now w
        → TellsRefusal w result refusal.old refusal.new text.old text.new ⊎ (result ≡ MEMORY) }
{
    compile_sources(alloc, Reading::Lenient, names, texts, pool, refusal, text)
}
