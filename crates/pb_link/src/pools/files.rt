//! Files of a pool.

ghost use Rattle.std.specs.Prelude.{◌≡◌, map, IfOk};
ghost use Rattle.pb_schema.specs.View.{file_view};
ghost use Rattle.pb_declarations.specs.View.{file_view as declared_view};
ghost use Rattle.pb_graphs.specs.Flat.{lists_of};
ghost use Rattle.pb_link_names.specs.Sees.{files_of};

use pb_declarations::FileDecl;
use pb_graphs::flat::FlatGraph;
use pb_graphs::reach::Graph;
use pb_schema::FileInfo;
use std::alloc::{AllocError, Global};

/// A file, with the indexes of the files that it imports.
fn file_of(alloc: Global, file: &FileDecl, imports: &[usize]) -> Result<FileInfo, AllocError>
    ensures { IfOk result (λ i. file_view i
        ≡ record {
          name = (declared_view file.now).name;
          package_name = (declared_view file.now).package_name;
          imports = imports.now;
          proto2 =
              (declared_view file.now).is_proto2;
        }) }
{
    Ok(FileInfo {
        name: file.name.clone()?,
        package: file.package.clone()?,
        imports: imports.to_vec(alloc)?,
        proto2: file.proto2,
    })
}

/// The files, each with the files that it imports, by their indexes.
pub(crate) fn files_of(
    alloc: Global,
    files: &[FileDecl],
    imports: &FlatGraph,
) -> Result<Vec<FileInfo>, AllocError>
    requires { lists_of imports.now ≡ map (λ f. f.imports)
        (files_of (map declared_view files.now)) }
    ensures { IfOk result (λ v. map file_view v.items ≡ files_of (map declared_view files.now)) }
{
    let mut infos: Vec<FileInfo> = Vec::with_capacity(alloc, files.len())?;
    for (index, file) in files.iter().enumerate() {
        let info = file_of(alloc, file, imports.next(index))?;
        infos.push(info)?;
    }
    Ok(infos)
}
