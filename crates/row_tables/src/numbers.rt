// Numbers as the database takes them.
ghost use Rattle.std.specs.Prelude.{◌≡◌, ◌<◌, ◌^◌, IfOk, OnOk, pos};
ghost use Rattle.row_forms.specs.Places.{number_of};

use row_forms::Place;
use sqlite::{Error, ErrorCode};

/// A number that is above what the database has is refused as too big.
pub fn signed(number: u64) -> Result<i64, Error>
    ensures value { IfOk result (λ n. n ≡ pos number) }
    ensures within { OnOk result (number < 2 ^ 63) }
{
    match i64::try_from(number) {
        Ok(signed) => Ok(signed),
        Err(_) => Err(Error::SqliteFailure(ErrorCode::TooBig)),
    }
}

/// The number of a place, where the database has it.
pub fn placed(place: Place) -> Result<i64, Error>
    ensures value { IfOk result (λ n. n ≡ pos (number_of place)) }
    ensures within { OnOk result (number_of place < 2 ^ 63) }
{
    match place.gone.checked_add(place.index) {
        Some(number) => signed(number),
        None => Err(Error::SqliteFailure(ErrorCode::TooBig)),
    }
}

/// A statement that is to take one row.
pub fn took_one(count: usize) -> Result<(), Error>
    ensures { OnOk result (count ≡ 1) }
{
    if count == 1 {
        Ok(())
    } else {
        Err(Error::SqliteFailure(ErrorCode::DatabaseCorrupt))
    }
}
