//! Which files a file sees.

ghost use Rattle.std.specs.Prelude.{◌≡◌, Some, IfOk, OnOk};
ghost use Rattle.pb_link_names.specs.Graphs.{LeadToFiles, KnowsSight, sees_by};

use crate::imports::Imports;
use pb_graphs::reach::{Graph, Reach};
use std::alloc::{AllocError, Global};

/// What the file that was looked at last sees.
#[derive(Drop)]
pub struct Sight {
    pub reach: Reach,
    pub file: Option<usize>,
}

impl Sight {
    /// No file was looked at yet.
    pub fn new(alloc: Global, imports: &Imports) -> Result<Sight, AllocError>
        ensures { IfOk result (KnowsSight imports.now) }
    {
        Ok(Sight {
            reach: Reach::new(alloc, imports.all.len())?,
            file: None,
        })
    }

    /// Goes over to what a file sees, where that is not at hand.
    pub fn look(&mut self, imports: &Imports, file: usize) -> Result<(), AllocError>
        requires lead { LeadToFiles imports.now }
        requires known { KnowsSight imports.now self.old }
        ensures known { OnOk result (KnowsSight imports.now self.new) }
        ensures file { OnOk result (self.new.file ≡ Some file) }
    {
        if self.file == Some(file) {
            return Ok(());
        }
        self.reach.reach(&imports.public, imports.all.next(file))?;
        self.file = Some(file);
        Ok(())
    }

    pub(crate) fn sees(&self, target: usize) -> bool
        ensures { result ≡ sees_by self.now target }
    {
        match self.file {
            Some(file) => file == target || self.reach.is_marked(target),
            None => self.reach.is_marked(target),
        }
    }
}
