// The versions of the tables.
ghost use Rattle.std.specs.Prelude.{◌≡◌, pos};
ghost use Rattle.row_schema.specs.Versions.{number_of};

/// A version of the tables, each with one mark.
#[derive(Clone, Copy)]
pub enum Version {
    /// Six tables.
    One,
    /// And the counts of redeliveries.
    Two,
    /// And the producers of messages that are gone, and rules of what is kept.
    Three,
}

impl Version {
    /// What the first table has as the version.
    pub(crate) fn number(self) -> i64
        ensures { result ≡ pos (number_of self) }
    {
        match self {
            Version::One => 1,
            Version::Two => 2,
            Version::Three => 3,
        }
    }
}
