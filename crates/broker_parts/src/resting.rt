// What was seen last of the topics that are not in memory.
ghost use Rattle.std.specs.Prelude.{◌≡◌, All, IfOk, true};

use crate::attendance::later;
use crate::graves::Graves;
use delivery_machine::{Moment, Retention, TopicName};
use indexmap::IndexMap;
use status_pages::{Rule, TopicSeen};
use std::alloc::{AllocError, Global};
use std::sync::{Mutex, Wait};

/// After how long a topic is asked again to let go what is too old, in milliseconds: it may hold some of it still.
const PAUSE: u64 = 3_600_000;

/// A topic that is not in memory, and when it was last asked to let go what is too old or unused.
#[derive(Drop)]
struct Rests {
    name: TopicName,
    seen: TopicSeen,
    asked: Option<u64>,
    /// It has come into memory since.
    is_open: bool,
}

impl Rests {
    /// How old its messages may be, by its own rule or the broker's.
    fn most_age(&self, broker: &Retention) -> Option<u64> {
        match (self.seen.rule, broker) {
            (Some(Rule::Millis(millis)), _) => Some(millis),
            (None, Retention::Age(age)) => Some(age.millis()),
            _ => None,
        }
    }

    /// What was seen of it.
    fn as_resting(&self) -> Result<TopicSeen, AllocError>
        ensures { IfOk result (λ seen. seen.is_resting ≡ true) }
    {
        let mut seen = self.seen.clone()?;
        seen.is_resting = true;
        Ok(seen)
    }

    /// Whether every subscription has done with its first message, and there is one.
    fn is_done_at_front(&self) -> bool {
        let mut subscriptions = self.seen.subscriptions.iter();
        !self.seen.subscriptions.is_empty()
            && subscriptions.all(|sub| sub.dead == 0 && sub.oldest != self.seen.oldest)
    }

    /// Whether messages may go by their age at the moment.
    fn is_old(&self, broker: &Retention, now: u64) -> bool {
        let (Some(oldest), Some(age)) = (self.seen.oldest, self.most_age(broker)) else {
            return false;
        };
        now.saturating_sub(oldest) > age && self.is_done_at_front()
    }

    /// Whether a subscription may go that nobody uses.
    fn is_unused(&self, expire: Option<u64>) -> bool {
        let Some(expire) = expire else {
            return false;
        };
        self.seen
            .subscriptions
            .iter()
            .any(|sub| sub.unused.unwrap_or(0) > expire)
    }

    /// Whether it may be asked at the moment: it is not in memory, where it is asked anyway.
    fn may_be_asked(&self, now: u64) -> bool {
        match self.asked {
            Some(asked) => !self.is_open && now.saturating_sub(asked) >= PAUSE,
            None => !self.is_open,
        }
    }

    /// It is looked at so many milliseconds after it was last: nobody is there.
    fn look(&mut self, passed: u64) {
        for sub in self.seen.subscriptions.iter_mut() {
            sub.unused = later(sub.unused, passed);
        }
    }

    /// For how long nobody has been in its subscriptions is known where it comes into memory.
    fn tell(&self, graves: &mut Graves) {
        for sub in self.seen.subscriptions.iter() {
            graves.go_on(sub.name.as_str(), sub.unused);
        }
    }
}

/// What was seen last of the topics that are not in memory, by their names. Nobody is at such a topic, and all of it is stored: so its
/// numbers stay what they were. One that has come into memory since is listed still, with what was seen before. Its lock is a leaf.
pub struct Resting {
    alloc: Global,
    topics: Mutex<IndexMap<String, Rests>>,
}

impl Drop for Resting {
    fn drop(self) {
        let Resting {
            alloc: _,
            topics: _,
        } = self;
    }
}

/// The name and its text.
fn names_of(name: &TopicName, seen: &TopicSeen) -> Result<(TopicName, String), AllocError> {
    let text = seen.name.clone()?;
    Ok((name.clone()?, text))
}

impl Resting {
    pub fn new(alloc: Global) -> Self {
        Resting {
            alloc,
            topics: Mutex::new(IndexMap::new(alloc)),
        }
    }

    /// Where there is memory for what is seen.
    pub fn alloc(&self) -> Global {
        self.alloc
    }

    /// The topic rests, and is so. Without memory for that it is not listed.
    pub fn put<R: Wait>(&self, rt: &R, name: &TopicName, seen: TopicSeen) {
        let Ok((name, text)) = names_of(name, &seen) else {
            drop(seen);
            return;
        };
        let mut topics = self.topics.lock(rt);
        let asked = match topics.get(text.as_str()) {
            Some(before) if before.seen.gone == seen.gone => before.asked,
            _ => None,
        };
        drop(topics.insert(
            text,
            Rests {
                name,
                seen,
                asked,
                is_open: false,
            },
        ));
    }

    /// Nothing is known of the topic any more.
    pub fn remove<R: Wait>(&self, rt: &R, name: &TopicName) {
        let mut topics = self.topics.lock(rt);
        let place = topics.values().position(|topic| topic.name.is(name));
        if let Some(place) = place {
            drop(topics.swap_remove_index(place));
        }
    }

    /// Those whose names are not among these.
    pub fn others<R: Wait>(&self, rt: &R, open: &[String]) -> Result<Vec<TopicSeen>, AllocError>
        ensures { IfOk result (λ others. All (λ seen. seen.is_resting ≡ true) others.items) }
    {
        let topics = self.topics.lock(rt);
        let mut others = Vec::with_capacity(self.alloc, topics.len())?;
        for (name, topic) in topics.iter() {
            if !open.iter().any(|open| open.as_str() == name.as_str()) {
                others.push(topic.as_resting()?)?;
            }
        }
        Ok(others)
    }

    /// The topic of the text comes into memory: its subscriptions are unused for as long as they were.
    pub fn wake<R: Wait>(&self, rt: &R, text: &str, graves: &mut Graves) {
        let mut topics = self.topics.lock(rt);
        if let Some(topic) = topics.get_mut(text) {
            topic.tell(graves);
            topic.is_open = true;
        }
    }

    /// The topic did not come into memory.
    pub fn rest_on<R: Wait>(&self, rt: &R, name: &TopicName) {
        let mut topics = self.topics.lock(rt);
        for topic in topics.values_mut() {
            if topic.name.is(name) {
                topic.is_open = false;
            }
        }
    }

    /// They are looked at so many milliseconds after they were last: nobody is there.
    pub fn look<R: Wait>(&self, rt: &R, passed: u64) {
        let mut topics = self.topics.lock(rt);
        for topic in topics.values_mut() {
            topic.look(passed);
        }
    }

    /// A topic of which messages may go by their age at the moment, by its own rule or the broker's, or subscriptions that nobody has
    /// used for so many milliseconds. It is asked then, and not again for an hour, unless some go.
    pub fn take_due<R: Wait>(
        &self,
        rt: &R,
        broker: &Retention,
        expire: Option<u64>,
        now: &Moment,
    ) -> Option<TopicName> {
        let mut topics = self.topics.lock(rt);
        for place in 0..topics.len() {
            if let Some(topic) = topics.get_index_mut(place)
                && topic.may_be_asked(now.millis())
                && (topic.is_old(broker, now.millis()) || topic.is_unused(expire))
            {
                topic.asked = Some(now.millis());
                return topic.name.clone().ok();
            }
        }
        None
    }
}
