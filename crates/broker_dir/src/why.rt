// Why a directory's store failed, or refused.
ghost use Rattle.std.specs.Prelude.{◌≡◌, option_map};
ghost use Rattle.broker_dir.specs.declared.why.Why.TheVariants.{Store};

use broker_parts::Lost;
use row_store::Cause;
use std::fmt;

/// Why a directory's store failed, or refused.
#[derive(Clone, Copy, Debug, PartialEq, Eq)]
pub enum Why {
    /// The keeper refused.
    Store(Cause),
    /// A file of the database was lost.
    Files(Lost),
}

impl fmt::Display for Why {
    fn fmt<W: fmt::Write>(&self, f: &mut fmt::Formatter<W>) -> fmt::Result {
        match self {
            Why::Store(cause) => write!(f, "{cause}"),
            Why::Files(lost) => write!(f, "{lost}"),
        }
    }
}

/// What the keeper refused for, where it did.
pub(crate) fn why_by(cause: Option<Cause>) -> Option<Why>
    ensures { result ≡ option_map Store cause }
{
    match cause {
        Some(cause) => Some(Why::Store(cause)),
        None => None,
    }
}
