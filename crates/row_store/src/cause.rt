// Why the store answers F16.
ghost use Rattle.std.specs.Prelude.{◌≡◌, ◌≢◌, IfSome};
ghost use Rattle.sqlite.specs.declared.error.ErrorCode.TheVariants.{Closed};
ghost use Rattle.sqlite.specs.declared.error.Error.{Error};
ghost use Rattle.sqlite.specs.declared.error.Error.TheVariants.{SqliteFailure};
ghost use Rattle.row_store.specs.declared.cause.Cause.TheVariants.{Store};

use sqlite::{Error, ErrorCode};
use std::fmt;

/// Why the store answers F16.
#[derive(Clone, Copy, Debug, PartialEq, Eq)]
pub enum Cause {
    /// The database answered an error.
    Store(Error),
    /// It has other tables than ours, or those of another version.
    NotOurs,
    /// A transaction is under way where the tables are to be made.
    UnderWay,
    /// The rows of a topic are no snapshot's.
    BadRows,
    /// A topic was to be stored twice in one transaction.
    Twice,
    /// A topic was to be stored that does not go on from what stands there of it.
    Behind,
    /// A topic was to be stored that is being loaded.
    BeingLoaded,
    /// The history has no mark left.
    NoMark,
}

impl Cause {
    /// The cause that an error tells of. `Closed` says only that there was an earlier one: that one, where it is known.
    pub(crate) fn of(error: Error, known: Option<Cause>) -> Cause
        ensures own { error ≢ SqliteFailure Closed → result ≡ Store error }
        ensures earlier { error ≡ SqliteFailure Closed → IfSome known (λ cause. (first : Error) → cause ≡ Store first → result ≡ cause) }
    {
        if error != Error::SqliteFailure(ErrorCode::Closed) {
            return Cause::Store(error);
        }
        match known {
            Some(Cause::Store(first)) => Cause::Store(first),
            _ => Cause::Store(error),
        }
    }
}

impl fmt::Display for Cause {
    fn fmt<W: fmt::Write>(&self, f: &mut fmt::Formatter<W>) -> fmt::Result {
        match self {
            Cause::Store(Error::SqliteFailure(ErrorCode::DatabaseBusy)) => f.write_str(
                "in use by another process",
            ),
            Cause::Store(Error::SqliteFailure(ErrorCode::NotADatabase)) => f.write_str(
                "not this broker's database",
            ),
            Cause::Store(error) => write!(f, "{error}"),
            Cause::NotOurs => f.write_str("not this broker's database"),
            Cause::UnderWay => f.write_str("a transaction is under way"),
            Cause::BadRows => f.write_str("rows of a topic that are none"),
            Cause::Twice => f.write_str("a topic was to be stored twice"),
            Cause::Behind => f.write_str(
                "a topic was to be stored that does not go on from what stands",
            ),
            Cause::BeingLoaded => f.write_str("a topic was to be stored that is being loaded"),
            Cause::NoMark => f.write_str("the history has no mark left"),
        }
    }
}
