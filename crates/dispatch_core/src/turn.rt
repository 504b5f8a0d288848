// Whose turn it is, where consumers take turns by their numbers.
ghost use Rattle.std.specs.Prelude.{◌≡◌};
ghost use Rattle.dispatch_core.specs.Turn.{is_sooner};

/// Of two consumers' numbers, whether the first is sooner in turn: the least above the one last
/// served, else the least.
pub fn is_sooner(last: u64, number: u64, other: u64) -> bool
    ensures { result ≡ is_sooner last number other }
{
    if number > last {
        other <= last || number < other
    } else {
        other <= last && number < other
    }
}
