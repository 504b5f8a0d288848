// What changes of the rows of producers whose messages are gone.
ghost use Rattle.std.specs.Prelude.{◌≡◌, IfOk, OnOk, IsTrue};
ghost use Rattle.row_forms.specs.Parts.{AuthorsDiffer, ExtendsByAuthors};
ghost use Rattle.row_forms.specs.Sides.{new_of, old_of};

use crate::change::Difference;
use crate::side::{Side, Walk};
use delivery_machine::Author;
use std::alloc::{AllocError, Global};

/// Whether both have one row.
fn is_same(old: &Author, new: &Author) -> bool
    ensures { IsTrue result → old.now ≡ new.now }
{
    old.index == new.index && old.sequence == new.sequence && old.name.is(&new.name)
}

fn add(difference: &mut Difference<Author>, side: Side<&Author>) -> Result<(), AllocError>
    ensures { OnOk result (ExtendsByAuthors (old_of (λ a. a.now) side.entry) (new_of (λ a. a.now) side.entry) difference.old difference.new) }
{
    match side {
        Side::Gone(old) => difference.goes(old.clone()?),
        Side::New(new) => difference.comes(new.clone()?),
        Side::Both(old, new) => {
            if is_same(old, new) {
                Ok(())
            } else {
                difference.becomes(old.clone()?, new.clone()?)
            }
        }
    }
}

/// Which rows of producers go and which come, from those of the one list to those of the other.
pub fn author_difference(
    alloc: Global,
    olds: &[Author],
    news: &[Author],
) -> Result<Difference<Author>, AllocError>
    ensures { IfOk result (AuthorsDiffer olds.now news.now) }
{
    let mut difference = Difference::none(alloc);
    let mut walk = Walk::of(olds, news);
    'sides: while let Some(side) = walk.next() {
        add(&mut difference, side)?;
    }
    Ok(difference)
}
