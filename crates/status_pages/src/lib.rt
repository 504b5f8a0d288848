//! What is seen of the broker at one moment, as texts: an overview in JSON, numbers for Prometheus, and a page.
#![tactic(auto)]

mod histogram;
mod metrics;
mod of_subscription;
mod of_topic;
mod overview;
mod page;
mod process;
mod sample;
mod seen;

pub use histogram::Histogram;
pub use metrics::metrics_text;
pub use overview::overview_text;
pub use page::{PAGE, PAGE_POLICY};
pub use seen::{
    BackupsSeen, BrokerSeen, FAULTS, Holds, ProgramSeen, Role, Rows, Rule, SessionSeen,
    SubscriptionSeen, TopicSeen,
};
