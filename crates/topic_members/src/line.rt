// The members of a line of numbers.
ghost use Rattle.std.specs.Prelude.{◌≡◌, map};
ghost use Rattle.topic_members.specs.Members.{NumbersRise};
ghost use Rattle.topic_members.specs.Joined.{emptied_in};

use crate::changing::empty;
use crate::member::Member;
use position_core::ConsumerNumber;

/// Leaves nothing to collect for the members of the line.
pub(crate) fn empty_those(members: &mut Vec<Member>, line: &[ConsumerNumber])
    requires { NumbersRise members.old.items }
    ensures { members.new.items ≡ map (emptied_in line.now) members.old.items }
{
    for number in line {
        empty(members, *number);
    }
}
