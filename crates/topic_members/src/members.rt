// The members of all subscriptions, in the order of their numbers: the one of a number, by halving.
ghost use Rattle.std.specs.Prelude.{◌≡◌};
ghost use Rattle.std.specs.List.{find, position};
ghost use Rattle.std.specs.Option.{option_copied};
ghost use Rattle.delivery_machine.specs.Words.{is_member};
ghost use Rattle.topic_members.specs.Members.{NumbersRise};

use crate::member::Member;
use position_core::ConsumerNumber;
use std::cmp::Ordering;

/// Takes the logarithm of the number of members.
pub fn place_of_member(members: &[Member], number: ConsumerNumber) -> Option<usize>
    requires { NumbersRise members.now }
    ensures { result ≡ position (is_member number) members.now }
{
    let mut low = 0;
    let mut high = members.len();
    while low < high {
        let middle = low + (high - low) / 2;
        let other = members[middle].number();
        match other.cmp(&number) {
            Ordering::Less => low = middle + 1,
            Ordering::Equal => return Some(middle),
            Ordering::Greater => high = middle,
        }
    }
    None
}

/// Takes the logarithm of the number of members.
pub fn member_at(members: &[Member], number: ConsumerNumber) -> Option<&Member>
    requires { NumbersRise members.now }
    ensures { option_copied result ≡ find (is_member number) members.now }
{
    match place_of_member(members, number) {
        Some(place) => Some(&members[place]),
        None => None,
    }
}

/// The same at once where it stands at the place.
pub(crate) fn member_near(
    members: &[Member],
    number: ConsumerNumber,
    place: usize,
) -> Option<&Member>
    requires { NumbersRise members.now }
    ensures { option_copied result ≡ find (is_member number) members.now }
{
    match members.get(place) {
        Some(member) => {
            if member.is_number(number) {
                Some(member)
            } else {
                member_at(members, number)
            }
        }
        None => member_at(members, number),
    }
}
