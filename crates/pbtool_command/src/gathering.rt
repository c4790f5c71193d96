//! The sources of a set: each file in turn, after its imports and once.

ghost use Rattle.std.specs.Prelude.{◌≡◌, ◌++◌, [], ◌∷◌, map, true, false, option_map, IfOk, IfErr, OnOk};
ghost use Rattle.std.specs.List.{list_any};
ghost use Rattle.std.specs.Str.{bytes_eq};
ghost use Rattle.pb_names.specs.NameSets.{names_in};
ghost use Rattle.pb_declarations.specs.View.{file_view};
ghost use Rattle.pbtool_command.specs.CompileAnswer.{places_of, texts_of, told_of};
ghost use Rattle.pbtool_files.specs.FileMap.{KeepsMap};
ghost use Rattle.pbtool_command.specs.Gathering.{Gathered, Trouble, gathered, given, imported, nothing_yet, with_file};
ghost use Rattle.pbtool_command.specs.Reaching.{FindsImport, Moves, OpensFound, RefusesImport, StopsInside, open_view, reached, stack_of};
ghost use Rattle.pbtool_files.specs.Refusal.{KeepsFailures, Refuses};
ghost use Rattle.pbtool_command.specs.Steps.{AbsentOf, DeclaredOf, GathersOf, StopsOf, TroubleOf};

use crate::command::Roots;
use crate::sources::{leaves_root, read_given, read_source};
use pb_descr::FileDecl;
use pb_names::name_set::NameSet;
use pbtool_files::{Files, Refusal};
use std::alloc::{AllocError, Global};

/// A file whose imports are being reached.
#[derive(Drop)]
struct Open {
    file: FileDecl,
    /// The index of the import that is reached next.
    next: usize,
}

/// What was reached so far.
#[derive(Drop)]
struct Gathering {
    names: NameSet,
    /// The files whose imports are all reached.
    files: Vec<FileDecl>,
}

/// The files of these names under roots and their imports, each after its imports and once.
pub fn gather<'a, F: Files>(
    alloc: Global,
    roots: Roots<'_>,
    names: &[&str],
    files: &mut F,
) -> Result<Vec<FileDecl>, Refusal<'a>>
    ensures gathered { IfOk result (λ v. (g : Gathered)
        × GathersOf F.contents F.is_steady files.old (places_of roots.entry) given
        (texts_of names.now) nothing_yet (gathered g)
        × (map file_view v.items ≡ g.files)) }
    ensures refused { IfErr result
        (Refuses (StopsOf F.contents F.is_steady files.old (places_of roots.entry) given
        (texts_of names.now) nothing_yet)) }
    ensures kept { KeepsFailures F.failures files.old files.new result }
    ensures steady { F.is_steady files.old ≡ true → F.is_steady files.new ≡ true }
    ensures unfailing { F.is_steady files.old ≡ true → F.failures files.new ≡ F.failures files.old }
    ensures takes_writes { F.takes_writes files.old ≡ true → F.takes_writes files.new ≡ true }
    ensures files { KeepsMap (F.contents files.old) (F.contents files.new) }
{
    let mut gathering = Gathering {
        names: NameSet::new(alloc),
        files: Vec::new(alloc),
    };
    for name in names {
        gathering.take_given(alloc, roots, name, files)?;
    }
    Ok(gathering.files)
}

/// Adds a name that the set does not have.
fn add_name(names: &mut NameSet, alloc: Global, name: &[u8]) -> Result<(), AllocError>
    ensures { OnOk result (list_any (bytes_eq name.now) (names_in names.old) ≡ false
        → names_in names.new ≡ names_in names.old ++ name.now ∷ []) }
{
    names.add_copy(alloc, name)?;
    Ok(())
}

/// Opens the file that was found, if one was.
fn open_found(found: Option<FileDecl>, stack: &mut Vec<Open>) -> Result<(), AllocError>
    ensures { OnOk result (OpensFound stack.old.items found stack.new.items) }
{
    match found {
        None => Ok(()),
        Some(file) => {
            stack.push(Open { file, next: 0 })?;
            Ok(())
        }
    }
}

impl Gathering {
    /// Takes a file that was given, after its imports.
    fn take_given<'a, F: Files>(
        &mut self,
        alloc: Global,
        roots: Roots<'_>,
        name: &str,
        files: &mut F,
    ) -> Result<(), Refusal<'a>>
        ensures taken { OnOk result
            (GathersOf F.contents F.is_steady files.old (places_of roots.entry) given
            (name.now ∷ []) (reached self.old) (gathered (reached self.new))) }
        ensures refused { IfErr result
            (Refuses (StopsOf F.contents F.is_steady files.old (places_of roots.entry) given
            (name.now ∷ []) (reached self.old))) }
        ensures kept { KeepsFailures F.failures files.old files.new result }
        ensures steady { F.is_steady files.old ≡ true → F.is_steady files.new ≡ true }
        ensures unfailing { F.is_steady files.old ≡ true
            → F.failures files.new ≡ F.failures files.old }
        ensures takes_writes { F.takes_writes files.old ≡ true → F.takes_writes files.new ≡ true }
        ensures files { KeepsMap (F.contents files.old) (F.contents files.new) }
    {
        if self.names.contains(name.as_bytes()) {
            return Ok(());
        }
        let file = read_given(alloc, roots, name, files)?;
        add_name(&mut self.names, alloc, name.as_bytes())?;
        self.close(alloc, roots, file, files)?;
        Ok(())
    }

    /// Reaches all that a file imports, and puts the file after it.
    fn close<'a, F: Files>(
        &mut self,
        alloc: Global,
        roots: Roots<'_>,
        file: FileDecl,
        files: &mut F,
    ) -> Result<(), Refusal<'a>>
        ensures closed { OnOk result ((g : Gathered)
            × GathersOf F.contents F.is_steady files.old (places_of roots.entry) imported
            (file_view file).imports (reached self.old) (gathered g)
            × (reached self.new ≡ with_file (file_view file) g)) }
        ensures refused { IfErr result
            (Refuses (StopsOf F.contents F.is_steady files.old (places_of roots.entry) imported
            (file_view file).imports (reached self.old))) }
        ensures kept { KeepsFailures F.failures files.old files.new result }
        ensures steady { F.is_steady files.old ≡ true → F.is_steady files.new ≡ true }
        ensures unfailing { F.is_steady files.old ≡ true
            → F.failures files.new ≡ F.failures files.old }
        ensures takes_writes { F.takes_writes files.old ≡ true → F.takes_writes files.new ≡ true }
        ensures files { KeepsMap (F.contents files.old) (F.contents files.new) }
    {
        let mut stack = Vec::new(alloc);
        stack.push(Open { file, next: 0 })?;
        for _ in 0..u64::MAX {
            let Some(innermost) = stack.pop() else {
                return Ok(());
            };
            self.go_on(alloc, roots, innermost, &mut stack, files)?;
        }
        // Memory ends before the number of names reaches the maximum.
        Err(Refusal::Memory)
    }

    /// Reaches the next import of the innermost open file, or closes it after the last.
    fn go_on<'a, F: Files>(
        &mut self,
        alloc: Global,
        roots: Roots<'_>,
        innermost: Open,
        stack: &mut Vec<Open>,
        files: &mut F,
    ) -> Result<(), Refusal<'a>>
        ensures moved { OnOk result
            (Moves (AbsentOf F.contents F.is_steady files.old (places_of roots.entry).roots)
            (DeclaredOf F.contents F.is_steady files.old (places_of roots.entry)) (reached self.old)
            (open_view innermost ∷ stack_of stack.old.items) (reached self.new)
            (stack_of stack.new.items)) }
        ensures refused { IfErr result
            (Refuses (StopsInside (TroubleOf F.contents F.is_steady files.old
            (places_of roots.entry)) (reached self.old) (open_view innermost).left)) }
        ensures kept { KeepsFailures F.failures files.old files.new result }
        ensures steady { F.is_steady files.old ≡ true → F.is_steady files.new ≡ true }
        ensures unfailing { F.is_steady files.old ≡ true
            → F.failures files.new ≡ F.failures files.old }
        ensures takes_writes { F.takes_writes files.old ≡ true → F.takes_writes files.new ≡ true }
        ensures files { KeepsMap (F.contents files.old) (F.contents files.new) }
    {
        let Open { file, next } = innermost;
        let Some(name) = file.imports.get(next) else {
            self.files.push(file)?;
            return Ok(());
        };
        let found = self.find_import(alloc, roots, name.as_str(), files)?;
        stack.push(Open {
            file,
            next: next + 1,
        })?;
        open_found(found, stack)?;
        Ok(())
    }

    /// Reads the file of an import that is reached for the first time. One that leaves the roots or is not there is left out, so that
    /// linking reports it.
    fn find_import<'a, F: Files>(
        &mut self,
        alloc: Global,
        roots: Roots<'_>,
        name: &str,
        files: &mut F,
    ) -> Result<Option<FileDecl>, Refusal<'a>>
        ensures found { IfOk result (λ o. FindsImport
            (AbsentOf F.contents F.is_steady files.old (places_of roots.entry).roots)
            (DeclaredOf F.contents F.is_steady files.old (places_of roots.entry)) (reached self.old)
            name.now (reached self.new) (option_map file_view o)) }
        ensures refused { IfErr result (Refuses (λ a. (t : Trouble)
            × RefusesImport (TroubleOf F.contents F.is_steady files.old (places_of roots.entry))
            (reached self.old) name.now t
            × (a ≡ told_of name.now t))) }
        ensures kept { KeepsFailures F.failures files.old files.new result }
        ensures steady { F.is_steady files.old ≡ true → F.is_steady files.new ≡ true }
        ensures unfailing { F.is_steady files.old ≡ true
            → F.failures files.new ≡ F.failures files.old }
        ensures takes_writes { F.takes_writes files.old ≡ true → F.takes_writes files.new ≡ true }
        ensures files { KeepsMap (F.contents files.old) (F.contents files.new) }
    {
        if self.names.contains(name.as_bytes()) || leaves_root(name) {
            return Ok(None);
        }
        let Some(file) = read_source(alloc, roots, name, files)? else {
            return Ok(None);
        };
        add_name(&mut self.names, alloc, name.as_bytes())?;
        Ok(Some(file))
    }
}
