// The rows of a topic beside its messages.
ghost use Rattle.std.specs.Prelude.{◌≡◌, [], IsTrue};

use sqlite::Row;

/// The rows of a topic in all tables but that of its messages, each without its first column, which is the topic's text.
#[derive(Drop)]
pub struct SideRows {
    pub topics: Vec<Row>,
    pub subs: Vec<Row>,
    pub acks: Vec<Row>,
    pub deads: Vec<Row>,
    pub counts: Vec<Row>,
    pub authors: Vec<Row>,
    pub retentions: Vec<Row>,
}

impl SideRows {
    /// Whether none of these tables has a row.
    pub fn is_empty(&self) -> bool
        ensures none { IsTrue result → (self.now.topics.items ≡ []) × (self.now.subs.items ≡ []) × (self.now.acks.items ≡ []) × (self.now.deads.items ≡ []) × (self.now.counts.items ≡ []) × (self.now.authors.items ≡ []) × (self.now.retentions.items ≡ []) }
        ensures all { self.now.topics.items ≡ [] → self.now.subs.items ≡ [] → self.now.acks.items ≡ [] → self.now.deads.items ≡ [] → self.now.counts.items ≡ [] → self.now.authors.items ≡ [] → self.now.retentions.items ≡ [] → IsTrue result }
    {
        self.topics.is_empty()
            && self.subs.is_empty()
            && self.acks.is_empty()
            && self.deads.is_empty()
            && self.counts.is_empty()
            && self.authors.is_empty()
            && self.retentions.is_empty()
    }
}
