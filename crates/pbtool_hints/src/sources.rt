//! Sources that are refused, read again.

use crate::declared::{Unlinked, file_named, put_missing, put_unlinked, without_package};
use crate::expected::put_expected;
use crate::lines::{put, put_line};
use crate::places::{declaration_in, import_in};
use crate::subject::Subject;
use pb_descr::FileDecl;
use pb_link::LinkCause;
use pb_output::Sink;
use pb_source::{SourceFault, parse, parse_lenient};
use pb_wire::{Limits, MemOutput, read_up_to};
use pbtool_explain::put_source_line;
use pbtool_files::{Files, Reading};
use std::alloc::{AllocError, Global};

/// How many sources are read again at most, to find a type that a source does not see.
const MOST_SOURCES: usize = 64;

/// Sources under a first root and others, and how those that are named are read.
#[derive(Clone, Copy)]
struct Sources<'a> {
    alloc: Global,
    reading: Reading,
    root: &'a str,
    others: &'a [&'a str],
}

impl<'a> Sources<'a> {
    /// Those that a command reads, if it reads sources.
    fn of(alloc: Global, subject: Subject<'a>) -> Option<Sources<'a>> {
        let Subject::Sources {
            reading,
            root,
            others,
        } = subject
        else {
            return None;
        };
        Some(Sources {
            alloc,
            reading,
            root,
            others,
        })
    }

    /// The bytes of a source under the first root that has it.
    fn read<F: Files>(&self, name: &str, files: &mut F) -> Option<Vec<u8>> {
        if let Some(source) = self.read_under(self.root, name, files) {
            return Some(source);
        }
        for other in self.others {
            if let Some(source) = self.read_under(other, name, files) {
                return Some(source);
            }
        }
        None
    }

    /// The bytes of a source under a root.
    fn read_under<F: Files>(&self, root: &str, name: &str, files: &mut F) -> Option<Vec<u8>> {
        let Ok(path) = path_under(self.alloc, root, name) else {
            return None;
        };
        let Ok(Some(mut input)) = files.open(path.as_str()) else {
            return None;
        };
        match read_up_to(self.alloc, &mut input, Limits::FULL.max_bytes() as usize) {
            Ok(bytes) => Some(bytes),
            Err(_) => None,
        }
    }

    /// What a source declares, and what the sources declare that it reaches by imports, itself first.
    fn reached<F: Files>(
        &self,
        first: FileDecl,
        files: &mut F,
    ) -> Result<Vec<FileDecl>, AllocError> {
        let mut found = Vec::new(self.alloc);
        found.push(first)?;
        for index in 0..MOST_SOURCES {
            let Some(imports) = imports_of(self.alloc, found.as_slice(), index)? else {
                return Ok(found);
            };
            self.read_imports(imports.as_slice(), files, &mut found)?;
        }
        Ok(found)
    }

    /// Appends what these sources declare, each that is not there yet.
    fn read_imports<F: Files>(
        &self,
        imports: &[String],
        files: &mut F,
        found: &mut Vec<FileDecl>,
    ) -> Result<(), AllocError> {
        for import in imports {
            if found.len() < MOST_SOURCES
                && file_named(found.as_slice(), import.as_str()).is_none()
            {
                if let Some(file) = self.import(import.as_str(), files) {
                    found.push(file)?;
                }
            }
        }
        Ok(())
    }

    /// What an imported source declares.
    fn import<F: Files>(&self, name: &str, files: &mut F) -> Option<FileDecl> {
        let source = self.read(name, files)?;
        declared_by(self.alloc, Reading::Lenient, name, &source)
    }

    /// Writes which import of a file no root has, and where it was looked for.
    fn put_missing<F: Files>(
        &self,
        source: &[u8],
        file: &FileDecl,
        files: &mut F,
        lines: &mut MemOutput,
    ) {
        for import in file.imports.as_slice() {
            if self.read(import.as_str(), files).is_none() {
                put_at(
                    source,
                    import_in(self.alloc, source, import.as_str()),
                    lines,
                );
                put_missing(
                    import.as_str(),
                    b" is under no folder that was given",
                    lines,
                );
                self.put_paths(import.as_str(), lines);
                return;
            }
        }
    }

    /// The paths at which a source was looked for.
    fn put_paths(&self, name: &str, lines: &mut MemOutput) {
        put_path(self.root, name, lines);
        for other in self.others {
            put_path(other, name, lines);
        }
    }
}

fn put_path(root: &str, name: &str, lines: &mut MemOutput) {
    put(lines, b"  looked for ");
    put(lines, root.as_bytes());
    put_line(lines, b"/", name.as_bytes(), b"");
}

fn path_under(alloc: Global, root: &str, name: &str) -> Result<String, AllocError> {
    let mut path = String::from_str(alloc, root)?;
    path.push_str("/")?;
    path.push_str(name)?;
    Ok(path)
}

/// The names of what the file at an index imports, if there is one.
fn imports_of(
    alloc: Global,
    files: &[FileDecl],
    index: usize,
) -> Result<Option<Vec<String>>, AllocError> {
    let Some(file) = files.get(index) else {
        return Ok(None);
    };
    let mut names = Vec::new(alloc);
    for import in file.imports.as_slice() {
        names.push(import.clone()?)?;
    }
    Ok(Some(names))
}

/// What a source declares.
fn declared_by(alloc: Global, reading: Reading, name: &str, source: &[u8]) -> Option<FileDecl> {
    let declared = match reading {
        Reading::Strict => parse(alloc, name, source),
        Reading::Lenient => parse_lenient(alloc, name, source),
    };
    match declared {
        Ok(file) => Some(file),
        Err(_) => None,
    }
}

/// Writes the lines about a fault of a source: its line, its column, the line itself with a mark, and what was expected.
pub(crate) fn explain_source<F: Files>(
    alloc: Global,
    subject: Subject<'_>,
    name: &str,
    fault: SourceFault,
    files: &mut F,
    lines: &mut MemOutput,
) {
    let Some(sources) = Sources::of(alloc, subject) else {
        return;
    };
    let Some(source) = sources.read(name, files) else {
        return;
    };
    put_source(source.as_slice(), fault.byte, lines);
    put_expected(alloc, sources.reading, source.as_slice(), fault, lines);
}

/// Writes the line and the column of a byte of a source, and the line itself with a mark.
pub(crate) fn put_source(source: &[u8], byte: u64, lines: &mut MemOutput) {
    let at = byte as usize;
    if at > source.len() {
        return;
    }
    let mut sink = Sink::new();
    put_source_line(&mut sink, lines, source, at);
    let _ = sink.finish(lines);
}

/// The same, if the place is known.
fn put_at(source: &[u8], byte: Option<u64>, lines: &mut MemOutput) {
    if let Some(byte) = byte {
        put_source(source, byte, lines);
    }
}

/// Writes the lines about a declaration of a source that does not link: where it is, and what it looks for or what is there already.
pub(crate) fn explain_unlinked_source<F: Files>(
    alloc: Global,
    subject: Subject<'_>,
    unlinked: Unlinked<'_>,
    files: &mut F,
    lines: &mut MemOutput,
) {
    let Some(sources) = Sources::of(alloc, subject) else {
        return;
    };
    let Some(source) = sources.read(unlinked.file, files) else {
        return;
    };
    let Some(file) = declared_by(alloc, sources.reading, unlinked.file, &source) else {
        return;
    };
    let name = without_package(file.package.as_str(), unlinked.full_name);
    put_at(&source, declaration_in(alloc, &source, name), lines);
    if unlinked.cause == LinkCause::MissingImport {
        sources.put_missing(&source, &file, files, lines);
    } else if let Ok(reached) = sources.reached(file, files) {
        put_unlinked(alloc, reached.as_slice(), unlinked, lines);
    }
}
