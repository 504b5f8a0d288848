// What changes of the rows of subscriptions.
ghost use Rattle.std.specs.Prelude.{◌≡◌, IfOk, OnOk};
ghost use Rattle.row_forms.specs.Parts.{ExtendsBySubs, SubsDiffer};
ghost use Rattle.row_forms.specs.Sides.{IsOfOneKey, new_of, old_of};

use crate::change::{Difference, SubRow};
use crate::side::{Side, Walk};
use delivery_machine::KeptSubscription;
use std::alloc::{AllocError, Global};

fn row_of(sub: &KeptSubscription) -> Result<SubRow, AllocError>
    ensures name { IfOk result (λ row. row.name ≡ sub.now.name) }
    ensures kind { IfOk result (λ row. row.kind ≡ sub.now.kind) }
{
    Ok(SubRow {
        name: sub.name.clone()?,
        kind: sub.kind,
    })
}

fn add(difference: &mut Difference<SubRow>, side: Side<&KeptSubscription>) -> Result<(), AllocError>
    requires { IsOfOneKey (λ old new. old.now.name ≡ new.now.name) side }
    ensures { OnOk result (ExtendsBySubs (old_of (λ sub. sub.now) side.entry) (new_of (λ sub. sub.now) side.entry) difference.old difference.new) }
{
    match side {
        Side::Gone(old) => difference.goes(row_of(old)?),
        Side::New(new) => difference.comes(row_of(new)?),
        Side::Both(old, new) => {
            if old.kind.is(new.kind) {
                Ok(())
            } else {
                difference.becomes(row_of(old)?, row_of(new)?)
            }
        }
    }
}

/// Which rows of subscriptions go and which come, from those of the one list to those of the other.
pub fn sub_difference(
    alloc: Global,
    olds: &[KeptSubscription],
    news: &[KeptSubscription],
) -> Result<Difference<SubRow>, AllocError>
    ensures { IfOk result (SubsDiffer olds.now news.now) }
{
    let mut difference = Difference::none(alloc);
    let mut walk = Walk::of(olds, news);
    'sides: while let Some(side) = walk.next() {
        add(&mut difference, side)?;
    }
    Ok(difference)
}
