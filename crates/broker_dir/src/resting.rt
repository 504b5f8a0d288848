// Topics that are not in memory are seen too: as they were when they left it, or as their rows are at the start.
use crate::directory::Directory;
use crate::opening::found_in;
use crate::watching::Rules;
use delivery_machine::{Opened, Retention, TopicName};
use marks::Naming;
use row_forms::topic_text;
use row_store::{SubscriptionCount, TopicCount};
use session_bells::Bell;
use sqlite::Alter;
use status_pages::{Rule, SubscriptionSeen, TopicSeen};
use std::alloc::{AllocError, Global};
use std::sync::Wait;

fn rule_of(retention: &Retention) -> Rule {
    match retention {
        Retention::All => Rule::All,
        Retention::Messages(count) => Rule::Messages(u64::from(count.get())),
        Retention::Age(age) => Rule::Millis(age.millis()),
    }
}

/// The topic's own rule, as it is shown.
pub(crate) fn shown_rule(retention: Option<&Retention>) -> Option<Rule> {
    match retention {
        Some(retention) => Some(rule_of(retention)),
        None => None,
    }
}

/// What is seen of a subscription at which nobody is.
fn subscription_of(kept: u64, count: SubscriptionCount) -> SubscriptionSeen {
    let SubscriptionCount {
        name,
        kind,
        acknowledged,
        dead,
        oldest,
    } = count;
    SubscriptionSeen {
        name,
        kind,
        consumers: 0,
        waiting: kept.saturating_sub(acknowledged).saturating_sub(dead),
        pending: 0,
        acknowledged,
        dead,
        oldest,
        delivered: 0,
        redelivered: 0,
        acks: 0,
        deaths: 0,
        unused: None,
    }
}

/// What is seen of a topic by its rows.
fn seen_of(alloc: Global, name: String, count: TopicCount) -> Result<TopicSeen, AllocError> {
    let TopicCount {
        gone,
        kept,
        oldest,
        retention,
        subscriptions: counts,
    } = count;
    let mut subscriptions = Vec::with_capacity(alloc, counts.len())?;
    for count in counts {
        subscriptions.push(subscription_of(kept, count))?;
    }
    Ok(TopicSeen {
        name,
        is_resting: true,
        rule: shown_rule(retention.as_ref()),
        gone,
        kept,
        bytes: None,
        durable: gone.saturating_add(kept),
        oldest,
        producers: 0,
        published: 0,
        duplicates: 0,
        refused: 0,
        journal: 0,
        sessions: Vec::new(alloc),
        subscriptions,
    })
}

impl<T: Opened + Drop, S: Alter, J: Naming, B: Bell + Drop> Directory<T, S, J, B> {
    /// What is seen of each topic that has rows and is not in memory is counted, one after another. It ends early where the store
    /// fails, or there is no memory.
    pub(crate) fn count_all<R: Wait>(&self, rt: &R) {
        let mut keeper = self.keeper.lock(rt);
        let found = keeper.topics();
        drop(keeper);
        if let Ok(names) = found {
            for name in names {
                self.count_one(rt, &name);
                drop(name);
            }
        }
    }

    /// The table's lock is held, so that nobody opens the topic or deletes it meanwhile.
    fn count_one<R: Wait>(&self, rt: &R, name: &TopicName) {
        let Ok(text) = topic_text(self.alloc, name) else {
            return;
        };
        let table = self.table.lock(rt);
        if table.find(text.as_str()).is_some() {
            drop(text);
            return;
        }
        let mut keeper = self.keeper.lock(rt);
        let found = keeper.count(text.as_str());
        drop(keeper);
        match found {
            Ok(Some(count)) => self.note_count(rt, name, text, count),
            _ => drop(text),
        }
    }

    fn note_count<R: Wait>(&self, rt: &R, name: &TopicName, text: String, count: TopicCount) {
        if let Ok(seen) = seen_of(self.alloc, text, count) {
            self.counts.resting.put(rt, name, seen);
        }
    }

    /// A topic that is not in memory, and of which messages may go by their age, or subscriptions that nobody uses, is opened: so it
    /// is asked to let them go, as those are that are open, and leaves again. One a minute.
    pub(crate) fn wake_due<R: Wait>(&self, rt: &R, rules: &Rules) {
        let Some(now) = rules.moment() else {
            return;
        };
        if let Some(name) = self
            .counts
            .resting
            .take_due(rt, &self.retention, self.expire, &now)
        {
            self.open_resting(rt, &name);
            drop(name);
        }
    }

    fn open_resting<R: Wait>(&self, rt: &R, name: &TopicName) {
        let Ok(text) = topic_text(self.alloc, name) else {
            return;
        };
        let mut guard = self.table.lock(rt);
        let table = &mut *guard;
        match found_in(table, text.as_str()) {
            Some(found) => {
                drop(text);
                drop(found);
            }
            None => drop(self.open_in(rt, table, text, name, false, None)),
        }
    }
}
