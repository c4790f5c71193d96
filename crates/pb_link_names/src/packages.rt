//! The packages of files.

ghost use Rattle.std.specs.Prelude.{map, IfOk, OnOk};
ghost use Rattle.pb_declarations.specs.View.{file_view};
ghost use Rattle.pb_link_names.specs.Declarations.{declarations};
ghost use Rattle.pb_link_names.specs.Lookup.{every_file};
ghost use Rattle.pb_link_names.specs.Graphs.{sees_by};
ghost use Rattle.pb_graphs.specs.Reach.{IsListed};
ghost use Rattle.pb_link_names.specs.PackageSets.{IsPackageSet, AddsNames};
ghost use Rattle.pb_link_names.specs.NameSets.{packages_at, own_index, ArePackagesAt, AddsPackages, ArePackages};

use crate::package_set::PackageSet;
use crate::sight::Sight;
use pb_declarations::FileDecl;
use std::alloc::{AllocError, Global};

fn add_file(packages: &mut PackageSet, files: &[FileDecl], file: usize) -> Result<(), AllocError>
    requires { IsPackageSet packages.old }
    ensures { OnOk result (AddsNames (packages_at (map file_view files.now) file) packages.old packages.new) }
{
    let Some(file) = files.get(file) else {
        return Ok(());
    };
    packages.add(file.package.as_str().as_bytes())?;
    Ok(())
}

/// The packages of all files.
pub fn all_packages(alloc: Global, files: &[FileDecl]) -> Result<PackageSet, AllocError>
    ensures { IfOk result (ArePackages (declarations (map file_view files.now)) every_file) }
{
    let mut packages = PackageSet::new(alloc)?;
    for file in 0..files.len() {
        add_file(&mut packages, files, file)?;
    }
    Ok(packages)
}

fn add_files(
    packages: &mut PackageSet,
    files: &[FileDecl],
    indexes: &[usize],
) -> Result<(), AllocError>
    requires { IsPackageSet packages.old }
    ensures set { OnOk result (IsPackageSet packages.new) }
    ensures added { OnOk result (AddsPackages (map file_view files.now) indexes.now packages.old packages.new) }
{
    for index in indexes {
        add_file(packages, files, *index)?;
    }
    Ok(())
}

fn own_packages(
    alloc: Global,
    files: &[FileDecl],
    file: Option<usize>,
) -> Result<PackageSet, AllocError>
    ensures { IfOk result (ArePackagesAt (map file_view files.now) (own_index file)) }
{
    let mut packages = PackageSet::new(alloc)?;
    let Some(file) = file else {
        return Ok(packages);
    };
    add_file(&mut packages, files, file)?;
    Ok(packages)
}

/// The packages of the files that are seen from the one that was looked at.
pub fn seen_packages(
    alloc: Global,
    files: &[FileDecl],
    sight: &Sight,
) -> Result<PackageSet, AllocError>
    requires { IsListed sight.now.reach }
    ensures { IfOk result (ArePackages (declarations (map file_view files.now)) (sees_by sight.now)) }
{
    let mut packages = own_packages(alloc, files, sight.file)?;
    add_files(&mut packages, files, &sight.reach.reached)?;
    Ok(packages)
}
