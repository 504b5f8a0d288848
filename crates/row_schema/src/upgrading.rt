// How a database comes from the version of its tables to the last one, a step at a time.
ghost use Rattle.std.specs.Prelude.{◌≡◌, false, IfOk, OnOk, IsTrue};
ghost use Rattle.sqlite.specs.State.{HasCleanDisk, Survives};
ghost use Rattle.sqlite.specs.Held.{state};
ghost use Rattle.row_tables.specs.Ready.{AreKeyed, IsReady};
ghost use Rattle.row_schema.specs.Upgrading.{MayBecome, Remains, IsUpgraded};
ghost use Rattle.row_schema.specs.Versions.{HasNoVersion};

use crate::looking::version_of;
use crate::raising::{from_version_1, from_version_2};
use crate::version::Version;
use sqlite::{Alter, Connection, Error};

/// Makes a database of an earlier version one of the last: each step all or none. False where its tables are of no
/// version, and then nothing changed.
pub fn upgrade<S: Alter>(conn: &mut Connection<S>) -> Result<bool, Error>
    requires autocommit { conn.old.in_transaction ≡ false }
    requires keyed { HasCleanDisk (state S.Store conn.old) → IsTrue (state S.Store conn.old).is_open → AreKeyed (state S.Store conn.old).now }
    ensures autocommit { conn.new.in_transaction ≡ false }
    ensures upgraded { HasCleanDisk (state S.Store conn.new) → IfOk result (λ yes. IsTrue yes → IsUpgraded (state S.Store conn.old) (state S.Store conn.new)) }
    ensures ready { HasCleanDisk (state S.Store conn.new) → IsTrue (state S.Store conn.new).is_open → IfOk result (λ yes. IsTrue yes → IsReady (state S.Store conn.new).now) }
    ensures foreign { HasCleanDisk (state S.Store conn.new) → IfOk result (λ yes. yes ≡ false → HasNoVersion (state S.Store conn.old).now) }
    ensures kept { HasCleanDisk (state S.Store conn.new) → IfOk result (λ yes. yes ≡ false → Remains (state S.Store conn.old) (state S.Store conn.new)) }
    ensures crash { Survives (state S.Store conn.old) (state S.Store conn.new) (MayBecome (state S.Store conn.old)) }
{
    match version_of(conn)? {
        Some(Version::One) => {
            from_version_1(conn)?;
            Ok(true)
        }
        Some(Version::Two) => {
            from_version_2(conn)?;
            Ok(true)
        }
        Some(Version::Three) => Ok(true),
        None => Ok(false),
    }
}
