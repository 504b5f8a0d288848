// A disk stops at each of its calls, while tables are made, while one or two topics are stored, while messages of one go,
// while one is deleted, and while a database of an earlier version becomes one of the last.
use super::disks::Disks;
use super::works::{Earlier, Work};
use std::process::Abort;

/// The work is done within so many calls of a disk.
const MOST_CALLS: u64 = 400;

/// So many times in a row no disk stops: then the work is done before one would.
const ENOUGH: u64 = 4;

/// After how many calls the log and the database file stop.
#[derive(Clone, Copy, Debug)]
pub(super) struct Stop {
    pub(super) log: u64,
    pub(super) db: u64,
}

pub(super) const NEVER: Stop = Stop {
    log: u64::MAX,
    db: u64::MAX,
};

/// What a stop leaves, what was written and what was synced; and whether the work was done.
#[derive(Drop)]
pub(super) struct Outcome<I: Drop> {
    pub(super) written: I,
    pub(super) synced: I,
    pub(super) done: bool,
}

/// What databases stand on. As of keepers, no method says what it does.
pub(super) trait Machine {
    /// What its files hold.
    type Image: Drop;
    /// What the rows of two topics show.
    type Seen: Drop;

    /// Files that hold nothing yet.
    fn empty<R: AllocGlobal>(rt: &R) -> Self::Image;

    /// Does the work, as far as the disks go.
    fn work<R: Abort + AllocGlobal>(
        rt: &R,
        image: &Self::Image,
        work: Work,
        stop: Stop,
    ) -> Outcome<Self::Image>;

    /// What the files hold: no schema, or the whole of it and rows.
    fn see<R: Abort + AllocGlobal>(rt: &R, image: &Self::Image) -> Self::Seen;

    fn is_seen(one: &Self::Seen, other: &Self::Seen) -> bool;
}

/// The work over what files hold, with what their rows show before and after it.
#[derive(Drop)]
struct Trial<'a, M: Machine> {
    image: &'a M::Image,
    work: Work,
    before: M::Seen,
    after: M::Seen,
}

impl<'a, M: Machine> Trial<'a, M> {
    fn new<R: Abort + AllocGlobal>(rt: &R, image: &'a M::Image, work: Work) -> Self {
        let whole = M::work(rt, image, work, NEVER);
        assert!(rt; whole.done);
        Trial {
            image,
            work,
            before: M::see(rt, image),
            after: M::see(rt, &whole.synced),
        }
    }

    /// The rows tell whether a store or a deletion was made; that tables were made, or their version raised, they do not
    /// tell.
    fn check_tells<R: Abort>(&self, rt: &R) {
        let is_told = !M::is_seen(&self.before, &self.after);
        assert!(rt; is_told == !matches!(self.work, Work::Create | Work::Upgrade(_)));
    }

    /// Whether the files show what the work leaves, or where it was not done what was there before.
    fn is_right<R: Abort + AllocGlobal>(&self, rt: &R, image: &M::Image, done: bool) -> bool {
        let seen = M::see(rt, image);
        M::is_seen(&seen, &self.after) || (!done && M::is_seen(&seen, &self.before))
    }

    /// Whether the work was done though the disks stop. What was written is right, and what was synced.
    fn is_done<R: Abort + AllocGlobal>(&self, rt: &R, stop: Stop) -> bool {
        let outcome = M::work(rt, self.image, self.work, stop);
        assert!(rt;
            self.is_right(rt, &outcome.written, outcome.done),
            "{stop:?}"
        );
        assert!(rt;
            self.is_right(rt, &outcome.synced, outcome.done),
            "{stop:?}"
        );
        outcome.done
    }

    /// Whether the work was done though one disk stops after so many calls, and though the other does.
    fn is_done_past<R: Abort + AllocGlobal>(&self, rt: &R, calls: u64) -> bool {
        let log = self.is_done(
            rt,
            Stop {
                log: calls,
                ..NEVER
            },
        );
        let db = self.is_done(rt, Stop { db: calls, ..NEVER });
        log && db
    }
}

/// The disks stop at each call in turn, until the work is done before they would.
fn check<M: Machine, R: Abort + AllocGlobal>(rt: &R, image: &M::Image, work: Work) {
    let trial = Trial::<M>::new(rt, image, work);
    trial.check_tells(rt);
    let mut undone: u64 = 0;
    let mut done: u64 = 0;
    for calls in 0..MOST_CALLS {
        if done < ENOUGH {
            let is_done = trial.is_done_past(rt, calls);
            done = if is_done { done + 1 } else { 0 };
            undone = if is_done { undone } else { calls };
        }
    }
    assert!(rt; done == ENOUGH && undone > 10, "{undone}");
}

/// Files that hold the rows of two topics.
fn both<M: Machine, R: Abort + AllocGlobal>(rt: &R) -> M::Image {
    let outcome = M::work(rt, &M::empty(rt), Work::Store, NEVER);
    assert!(rt; outcome.done);
    outcome.synced
}

/// The same of an earlier version.
fn both_before<M: Machine, R: Abort + AllocGlobal>(rt: &R, version: Earlier) -> M::Image {
    let outcome = M::work(rt, &both::<M, R>(rt), Work::Downgrade(version), NEVER);
    assert!(rt; outcome.done);
    outcome.synced
}

/// Files that hold the rows of a topic whose first messages may go.
fn full<M: Machine, R: Abort + AllocGlobal>(rt: &R) -> M::Image {
    let outcome = M::work(rt, &M::empty(rt), Work::Fill, NEVER);
    assert!(rt; outcome.done);
    outcome.synced
}

/// Tables are made in files that hold nothing, and topics stored in or deleted from some that hold them.
fn check_work<M: Machine, R: Abort + AllocGlobal>(rt: &R, work: Work) {
    let image = match work {
        Work::Create | Work::Fill => M::empty(rt),
        Work::Upgrade(version) => both_before::<M, R>(rt, version),
        Work::Trim => full::<M, R>(rt),
        Work::Round | Work::Store | Work::Delete | Work::Downgrade(_) => both::<M, R>(rt),
    };
    check::<M, R>(rt, &image, work);
}

fn check_on_disks<R: Abort + AllocGlobal>(rt: &R, work: Work) {
    check_work::<Disks, R>(rt, work);
}

#[test]
fn tables_are_made_or_not(rt: HostRuntime) {
    check_on_disks(&rt, Work::Create);
}

#[test]
fn a_round_is_made_or_not(rt: HostRuntime) {
    check_on_disks(&rt, Work::Round);
}

#[test]
fn a_store_of_two_is_made_or_not(rt: HostRuntime) {
    check_on_disks(&rt, Work::Store);
}

#[test]
fn a_deletion_is_made_or_not(rt: HostRuntime) {
    check_on_disks(&rt, Work::Delete);
}

#[test]
fn a_store_of_what_goes_is_made_or_not(rt: HostRuntime) {
    check_on_disks(&rt, Work::Trim);
}

#[test]
fn a_database_of_version_1_becomes_one_of_the_last_version_or_stays(rt: HostRuntime) {
    check_on_disks(&rt, Work::Upgrade(Earlier::One));
}

#[test]
fn a_database_of_version_2_becomes_one_of_the_last_version_or_stays(rt: HostRuntime) {
    check_on_disks(&rt, Work::Upgrade(Earlier::Two));
}
