//! No file reaches itself by imports.

ghost use Rattle.std.specs.Prelude.{◌↔◌, IsTrue, IfOk, map};
ghost use Rattle.pb_schema.specs.View.{file_view};
ghost use Rattle.pb_schema.specs.Rules.{ImportsNameFiles, NoFileReachesItself};

use crate::imports::ImportGraph;
use crate::types::FileInfo;
use pb_graphs::cycles::is_acyclic;
use pb_graphs::flat::FlatGraph;
use std::alloc::{AllocError, Global};

pub(crate) fn no_file_reaches_itself(alloc: Global, files: &[FileInfo]) -> Result<bool, AllocError>
    requires { ImportsNameFiles (map file_view files.now) }
    ensures { IfOk result (λ holds. IsTrue holds ↔ NoFileReachesItself (map file_view files.now)) }
{
    let flat = FlatGraph::copy_of(alloc, &ImportGraph { files })?;
    let holds = is_acyclic(alloc, &flat)?;
    Ok(holds)
}
