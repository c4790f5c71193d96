//! The declarations of each full name.

ghost use Rattle.std.specs.Prelude.{◌≡◌, ◌<◌, map, position, vec_len, IfOk, OnOk};
ghost use Rattle.pb_link_names.specs.ItemView.{item_view};
ghost use Rattle.pb_link_names.specs.View.{declaration_view};
ghost use Rattle.pb_link_names.specs.Places.{ArePlaces, PutsPlace, is_wanted, sees_if, counts, is_sought};

use crate::declaration::Declaration;
use crate::firsts::Firsts;
use crate::item::Item;
use crate::sight::Sight;
use std::alloc::{AllocError, Global};

/// Which declarations a search is for.
#[derive(Clone, Copy, PartialEq, Eq, Debug)]
pub(crate) enum Want {
    Types,
    /// Types and services, which can hold names.
    Holders,
    All,
}

/// The places of each full name in the row.
#[derive(Drop)]
pub struct Places<'a> {
    /// Of each full name the first one.
    pub firsts: Firsts<'a>,
    /// Of each place the next one of the same full name.
    pub next: Vec<Option<usize>>,
}

fn is_wanted(want: Want, item: Item) -> bool
    ensures { result ≡ is_wanted want (item_view item.entry) }
{
    match want {
        Want::Types => matches!(item, Item::Message(_) | Item::Enum(_)),
        Want::Holders => matches!(item, Item::Message(_) | Item::Enum(_) | Item::Service(_)),
        Want::All => true,
    }
}

/// Whether a declaration is wanted, and is seen.
fn counts(want: Want, sight: &Sight, everywhere: bool, declaration: &Declaration) -> bool
    ensures { result ≡ counts want (sees_if everywhere sight.now) (declaration_view declaration.now) }
{
    is_wanted(want, declaration.item) && (everywhere || sight.sees(declaration.file))
}

impl<'a> Places<'a> {
    /// Puts a declaration before the later ones of its name, which were put already.
    fn put(&mut self, place: usize, declaration: &'a Declaration) -> Result<(), AllocError>
        requires { place < vec_len self.old.next }
        ensures { OnOk result (PutsPlace place (declaration_view declaration.now) self.old self.new) }
    {
        if !declaration.marks.is_named {
            return Ok(());
        }
        let name = declaration.full_name.as_str().as_bytes();
        let later = self.firsts.put(name, place)?;
        self.next[place] = later;
        Ok(())
    }

    /// The places of the names in a row.
    pub fn new(alloc: Global, row: &'a [Declaration]) -> Result<Places<'a>, AllocError>
        ensures { IfOk result (ArePlaces (map declaration_view row.now) 0) }
    {
        let mut places = Places {
            firsts: Firsts::new(alloc),
            next: vec![in alloc; None; row.len()]?,
        };
        let mut place = row.len();
        while place > 0 {
            place -= 1;
            places.put(place, &row[place])?;
        }
        Ok(places)
    }

    /// The first place of a full name that is wanted and seen.
    pub(crate) fn first(
        &self,
        row: &[Declaration],
        sight: &Sight,
        everywhere: bool,
        want: Want,
        name: &[u8],
    ) -> Option<usize>
        requires { ArePlaces (map declaration_view row.now) 0 self.now }
        ensures { result ≡ position (is_sought want (sees_if everywhere sight.now) name.now) (map declaration_view row.now) }
    {
        let mut next = self.firsts.get(name);
        while let Some(place) = next {
            if counts(want, sight, everywhere, &row[place]) {
                return Some(place);
            }
            next = self.next[place];
        }
        None
    }
}
