// The open topics by their names, in the order of opening.
ghost use Rattle.std.specs.List.{remove};
ghost use Rattle.std.specs.Map.{remove_entry};
ghost use Rattle.std.specs.Prelude.{◌≡◌, ◌<◌, ◌∷◌, ◌++◌, false, true, not, [], filter, length, IfSome, None, option_copied, slice_get};
ghost use Rattle.std.specs.Str.{bytes_eq};
ghost use Rattle.std.specs.String.{string_bytes};
ghost use Rattle.indexmap.specs.IndexMap.{get_by_text};
ghost use Rattle.position_core.specs.TopicName.{same_topic, topic_text};
ghost use Rattle.broker_dir.specs.Listing.{AreNamed};

use crate::inside::{Gone, Rested};
use crate::topic::Shared;
use broker_parts::{Opening, Outcome};
use delivery_machine::{Fault, Opened, TopicName};
use indexmap::IndexMap;
use marks::Naming;
use session_bells::Bell;
use std::alloc::{AllocError, Global};
use std::sync::{Arc, Wait};

/// How many topics may be open.
pub(crate) const MOST_OPEN: usize = 256;

/// The place of a topic that nobody but the table has: so it is as long as the table is lent to nobody else. Only the table tells so.
#[derive(Drop)]
pub(crate) struct Sole {
    place: usize,
}

/// Something by names, in the order in which it came.
#[derive(Drop)]
struct Listed<X: Drop> {
    topics: IndexMap<String, X>,
}

/// The open topics by their names, in the order of opening.
#[derive(Drop)]
pub(crate) struct Table<T: Opened + Drop, J: Naming, B: Bell + Drop> {
    list: Listed<Arc<Shared<T, J, B>>>,
    /// Those that are being opened, in the order in which they were asked for.
    openings: Vec<Arc<Opening<B>>>,
    /// Each is open under its own name.
    ghost named: { AreNamed (λ topic. topic.value.name) list.topics.entries },
}

impl<T: Opened + Drop, J: Naming, B: Bell + Drop> Table<T, J, B> {
    pub(crate) fn new(alloc: Global) -> Self
        ensures { result.list.topics.entries ≡ [] }
    {
        Table {
            list: Listed {
                topics: IndexMap::new(alloc),
            },
            openings: Vec::new(alloc),
        }
    }

    /// The open topic of that name.
    pub(crate) fn find(&self, name: &str) -> Option<&Arc<Shared<T, J, B>>>
        ensures found { option_copied result ≡ get_by_text self.now.list.topics name.now }
        ensures named { IfSome result (λ topic. topic_text topic.now.value.name ≡ name.now) }
    {
        self.list.topics.get(name)
    }

    pub(crate) fn count(&self) -> usize
        ensures { result ≡ length self.now.list.topics.entries }
    {
        self.list.topics.len()
    }

    /// The names of the open topics, in the order of opening.
    pub(crate) fn names(&self, alloc: Global) -> Result<Vec<String>, AllocError> {
        let mut names = Vec::with_capacity(alloc, self.count())?;
        for name in self.list.topics.keys() {
            names.push(name.clone()?)?;
        }
        Ok(names)
    }

    /// The topic, which was not open, is open under its name. False for want of memory.
    pub(crate) fn add(&mut self, name: String, topic: Arc<Shared<T, J, B>>) -> bool
        requires named { string_bytes name ≡ topic_text topic.value.name }
        requires new { get_by_text self.old.list.topics (string_bytes name) ≡ None }
        ensures added { result ≡ true → self.new.list.topics.entries ≡ self.old.list.topics.entries ++ (name, topic) ∷ [] }
        ensures refused { result ≡ false → self.new.list.topics.entries ≡ self.old.list.topics.entries }
    {
        self.list.topics.insert(name, topic).is_ok()
    }

    pub(crate) fn at(&self, place: usize) -> Option<&Arc<Shared<T, J, B>>> {
        match self.list.topics.get_index(place) {
            Some((_, topic)) => Some(topic),
            None => None,
        }
    }

    /// Where the topic of the name stands.
    pub(crate) fn place_of(&self, name: &TopicName) -> Option<usize> {
        for place in 0..self.count() {
            if let Some(topic) = self.at(place)
                && topic.name.is(name)
            {
                return Some(place);
            }
        }
        None
    }

    /// The place, where nobody but the table has the topic there.
    pub(crate) fn sole_at(&mut self, place: usize) -> Option<Sole>
        ensures same { self.new.list.topics.entries ≡ self.old.list.topics.entries }
        ensures there { IfSome result (λ sole. (sole.place ≡ place) × (place < length self.old.list.topics.entries)) }
    {
        if self.list.is_sole(place) {
            Some(Sole { place })
        } else {
            None
        }
    }

    /// The topic at the place is open no more. Nobody else had it, and it rests by its own word.
    pub(crate) fn remove(&mut self, sole: Sole, rested: Rested) -> Option<Arc<Shared<T, J, B>>>
        ensures { self.new.list.topics.entries ≡ remove self.old.list.topics.entries sole.place }
    {
        let Sole { place } = sole;
        drop(rested);
        match self.list.topics.shift_remove_index(place) {
            Some((name, topic)) => {
                drop(name);
                Some(topic)
            }
            None => None,
        }
    }

    /// The opening of the topic of that name, where it is under way.
    pub(crate) fn opening_of(&self, name: &TopicName) -> Option<&Arc<Opening<B>>>
        ensures { IfSome result (λ opening. topic_text opening.now.value.name ≡ topic_text name.now) }
    {
        for opening in self.openings.iter() {
            if opening.name.is(name) {
                return Some(opening);
            }
        }
        None
    }

    /// How many are being opened.
    pub(crate) fn openings(&self) -> usize
        ensures { result ≡ length self.now.openings.items }
    {
        self.openings.len()
    }

    /// The one that was asked for first.
    pub(crate) fn first_opening(&self) -> Option<&Arc<Opening<B>>>
        ensures { option_copied result ≡ slice_get self.now.openings.items 0 }
    {
        self.openings.first()
    }

    /// The topic is being opened. False for want of memory.
    pub(crate) fn add_opening(&mut self, opening: Arc<Opening<B>>) -> bool
        ensures same { self.new.list ≡ self.old.list }
        ensures added { result ≡ true → self.new.openings.items ≡ self.old.openings.items ++ opening ∷ [] }
        ensures refused { result ≡ false → self.new.openings.items ≡ self.old.openings.items }
    {
        match self.openings.push(opening) {
            Ok(()) => true,
            Err(_) => false,
        }
    }

    /// The topic of the name is not being opened any more.
    pub(crate) fn end_opening(&mut self, name: &TopicName)
        ensures same { self.new.list ≡ self.old.list }
        ensures left { self.new.openings.items ≡ filter (λ opening. not (same_topic opening.value.name name.now)) self.old.openings.items }
    {
        self.openings.retain(|opening| !opening.name.is(name));
    }

    /// All sessions of all topics are rung, and whoever waits for a topic is refused.
    pub(crate) fn ring_all<R: Wait>(&self, rt: &R, fault: Fault) {
        for opening in self.openings.iter() {
            opening.end(rt, Outcome::Refused(fault));
        }
        for place in 0..self.count() {
            if let Some(topic) = self.at(place) {
                topic.ring_all(rt);
            }
        }
    }

    /// The topic that was deleted is open no more. All others stay.
    pub(crate) fn take_out(&mut self, gone: &Gone)
        ensures gone { get_by_text self.new.list.topics (string_bytes gone.now.text) ≡ None }
        ensures others { self.new.list.topics.entries ≡ remove_entry (λ k. bytes_eq (string_bytes gone.now.text) (string_bytes k)) self.old.list.topics.entries }
    {
        drop(self.list.topics.shift_remove(gone.text()));
    }
}

impl<X: Drop> Listed<Arc<X>> {
    /// Whether nobody else has the one at the place.
    fn is_sole(&mut self, place: usize) -> bool
        ensures same { self.new.topics.entries ≡ self.old.topics.entries }
        ensures there { result ≡ true → place < length self.old.topics.entries }
    {
        match self.topics.get_index_mut(place) {
            Some(topic) => is_sole(topic),
            None => false,
        }
    }
}

/// Whether nobody else has it.
fn is_sole<X>(topic: &mut Arc<X>) -> bool
    ensures { topic.new ≡ topic.old }
{
    match Arc::get_mut(topic) {
        Some(_) => true,
        None => false,
    }
}
