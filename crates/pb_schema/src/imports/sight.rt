//! Which files a file sees: itself, and those that it reaches by imports.

ghost use Rattle.std.specs.Prelude.{◌≡◌, ◌↔◌, ◌<◌, Some, true, IsTrue, IfOk, OnOk, map};
ghost use Rattle.pb_schema.specs.View.{file_view};
ghost use Rattle.pb_schema.specs.Imports.{IsSeen};
ghost use Rattle.pb_schema.specs.Imports.Sight.{KnowsSight};
ghost use Rattle.pb_schema.specs.Rules.{ImportsNameFiles};

use crate::imports::ImportGraph;
use crate::types::FileInfo;
use pb_graphs::reach::{Graph, Reach};
use std::alloc::{AllocError, Global};

/// What the file that was looked at last imports, or all that it reaches.
#[derive(Drop)]
pub(crate) struct Sight {
    pub(crate) reach: Reach,
    pub(crate) file: Option<usize>,
    /// All that the file reaches is marked.
    pub(crate) is_whole: bool,
}

impl Sight {
    /// No file was looked at yet.
    pub(crate) fn new(alloc: Global, files: &[FileInfo]) -> Result<Sight, AllocError>
        ensures { IfOk result (KnowsSight (map file_view files.now)) }
    {
        Ok(Sight {
            reach: Reach::new(alloc, files.len())?,
            file: None,
            is_whole: false,
        })
    }

    /// Goes over to what a file imports, where it is not the current one.
    fn look_near(&mut self, files: &[FileInfo], file: usize) -> Result<(), AllocError>
        requires imports { ImportsNameFiles (map file_view files.now) }
        requires known { KnowsSight (map file_view files.now) self.old }
        ensures known { OnOk result (KnowsSight (map file_view files.now) self.new) }
        ensures file { OnOk result (self.new.file ≡ Some file) }
    {
        if self.file == Some(file) {
            return Ok(());
        }
        self.reach.start(ImportGraph { files }.next(file))?;
        self.file = Some(file);
        self.is_whole = false;
        Ok(())
    }

    /// Goes on to all that the current file reaches.
    fn look_far(&mut self, files: &[FileInfo]) -> Result<(), AllocError>
        requires imports { ImportsNameFiles (map file_view files.now) }
        requires known { KnowsSight (map file_view files.now) self.old }
        ensures known { OnOk result (KnowsSight (map file_view files.now) self.new) }
        ensures file { OnOk result (self.new.file ≡ self.old.file) }
        ensures whole { OnOk result (self.new.is_whole ≡ true) }
    {
        if self.is_whole {
            return Ok(());
        }
        self.reach.follow(&ImportGraph { files })?;
        self.is_whole = true;
        Ok(())
    }

    /// The target is the file or reached from it. What the file reaches is walked only where the target is no import of it, once for
    /// targets in a row of the same file.
    pub(crate) fn sees(
        &mut self,
        files: &[FileInfo],
        file: usize,
        target: usize,
    ) -> Result<bool, AllocError>
        requires imports { ImportsNameFiles (map file_view files.now) }
        requires known { KnowsSight (map file_view files.now) self.old }
        ensures seen { IfOk result (λ holds. IsTrue holds ↔ IsSeen (map file_view files.now) file target) }
        ensures known { OnOk result (KnowsSight (map file_view files.now) self.new) }
    {
        if file == target {
            return Ok(true);
        }
        self.look_near(files, file)?;
        if self.reach.is_marked(target) {
            return Ok(true);
        }
        self.look_far(files)?;
        Ok(self.reach.is_marked(target))
    }
}
