//! Which files a file reaches by imports.

pub(crate) mod cycles;
pub(crate) mod sight;

ghost use Rattle.std.specs.Prelude.{map};

use crate::types::FileInfo;
use pb_graphs::reach::Graph;

/// Files, each of which leads to those that it imports.
#[derive(Clone, Copy)]
pub(crate) struct ImportGraph<'a> {
    pub(crate) files: &'a [FileInfo],
}

impl Graph for ImportGraph<'_> {
    ghost lists = { λ g. map (λ f. f.imports.items) g.files.now };

    fn len(&self) -> usize {
        self.files.len()
    }

    fn next(&self, index: usize) -> &[usize] {
        match self.files.get(index) {
            Some(file) => &file.imports,
            None => &[],
        }
    }
}
