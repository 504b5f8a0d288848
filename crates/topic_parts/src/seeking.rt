// A subscription goes on elsewhere.
ghost use Rattle.std.specs.Prelude.{◌≡◌, ◌+◌, ◌<◌, ◌^◌, IfOk, IsTrue};
ghost use Rattle.std.specs.List.{All};
ghost use Rattle.delivery_machine.specs.WellFormed.{has_message};
ghost use Rattle.topic_subscriptions.specs.Placed.{StandAt};

use crate::parts::Parts;
use delivery_machine::DeadLetter;
use position_core::LogIndex;
use std::alloc::{AllocError, Global};
use topic_log::TopicLog;

/// Where the messages of the letters stand in the log.
pub fn places_of(
    alloc: Global,
    log: &TopicLog,
    letters: &[DeadLetter],
) -> Result<Vec<LogIndex>, AllocError>
    requires { All (λ d. IsTrue (has_message log.now.log.log d.position)) letters.now }
    ensures stand { IfOk result (λ places. StandAt log.now.log.log letters.now places.items) }
    ensures small { IfOk result (λ places. All (λ place. place + 1 < 2 ^ 64) places.items) }
{
    let mut places = Vec::new(alloc);
    for letter in letters {
        let Some(index) = log.index_of(letter.position) else {
            return Ok(places);
        };
        places.push(index as u64)?;
    }
    let _length = log.len();
    Ok(places)
}

impl Parts {
    ghost use Rattle.std.specs.Prelude.{◌≡◌, ◌<◌, ◌≤◌, List, ℕ, Some, OnOk, OnErr, IfOk, length, map};
    ghost use Rattle.std.specs.List.{position as place_in};
    ghost use Rattle.delivery_machine.specs.Words.{emptied_at};
    ghost use Rattle.delivery_machine.specs.Seeking.{sought};
    ghost use Rattle.delivery_machine.specs.WellFormed.{IsWellFormed};
    ghost use Rattle.topic_members.specs.Joined.{emptied_in};
    ghost use Rattle.topic_subscriptions.specs.Placed.{is_placed, line_at};
    ghost use Rattle.topic_parts.specs.Holding.{IsAt};
    ghost use Rattle.topic_parts.specs.Parts.{AreTied, log_of, state_of};

    /// Where the dead letters of the subscription at the place stand in the log.
    fn dead_places(&self, place: usize) -> Result<Vec<LogIndex>, AllocError>
        requires well { IsWellFormed (state_of self.now) }
        requires within { place < length self.now.subscriptions.items }
        ensures stand { IfOk result (λ places. IsAt self.now place (λ p. StandAt (log_of self.now) p.letters.dead places.items)) }
        ensures small { IfOk result (λ places. All (λ place. place + 1 < 2 ^ 64) places.items) }
    {
        let letters = self.subscriptions[place].letters(self.alloc)?;
        places_of(self.alloc, &self.log, &letters)
    }

    /// Leaves nothing to collect for the members of the subscription at the place.
    fn empty_members_at(&mut self, place: usize)
        requires { place < length self.old.subscriptions.items }
        ensures members { IsAt self.old place (λ p. self.new.members.members ≡ map (emptied_in p.line) self.old.members.members) }
        ensures at { (name : List ℕ) → IsAt self.old place (λ p. p.line ≡ line_at name self.old.members.members)
            → self.new.members.members ≡ map (emptied_at name) self.old.members.members }
        ensures next { self.new.members.next ≡ self.old.members.next }
        ensures rest { self.new ≡ record self.old { members = self.new.members } }
    {
        self.members.empty_those(self.subscriptions[place].line());
    }

    /// The subscription at the place goes on after so many messages of the log, and its members have nothing
    /// left to collect. Nothing changes where there is no memory.
    pub fn seek(&mut self, place: usize, end: LogIndex) -> Result<(), AllocError>
        requires tied { AreTied self.old }
        requires well { IsWellFormed (state_of self.old) }
        requires within { place < length self.old.subscriptions.items }
        requires end { end ≤ length (log_of self.old) }
        ensures ok { OnOk result ((name : List ℕ) → Some place ≡ place_in (is_placed name) self.old.subscriptions.items
            → state_of self.new ≡ sought (state_of self.old) name end) }
        ensures err { OnErr result (self.new ≡ self.old) }
        ensures tied { AreTied self.new }
        ensures log { self.new.log ≡ self.old.log }
        ensures many { length self.new.subscriptions.items ≡ length self.old.subscriptions.items }
    {
        let _length = self.log.len();
        let dead = match self.dead_places(place) {
            Ok(dead) => dead,
            Err(failed) => return Err(failed),
        };
        match self.subscriptions[place].seek(self.alloc, end, &dead) {
            Ok(()) => {
                self.empty_members_at(place);
                Ok(())
            }
            Err(failed) => Err(failed),
        }
    }
}
