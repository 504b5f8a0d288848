// What comes to a topic between its view and the confirmation of its store.
use super::answers::Answer;
use super::keepers::in_memory;
use super::keeps::{Keeps, Scene};
use super::plays::{DONE, FOUR, T, TRIM, check_stands, play, publish_more, round, stored};
use position_core::Fault;
use std::process::Abort;

/// How many messages are durable, and how many there are.
fn progress(answer: Answer) -> (u64, u64) {
    match answer {
        Answer::Progress { durable, length } => (durable, length),
        _ => (0, 0),
    }
}

fn check_progress<K: Keeps, R: Abort + AllocGlobal>(
    rt: &R,
    cell: &mut K::Topic,
    durable: u64,
    length: u64,
) {
    assert!(rt; progress(K::ask(rt, cell, "progress")) == (durable, length));
}

fn check_needs<K: Keeps, R: Abort>(rt: &R, cell: &K::Topic, needs: bool) {
    assert!(rt; K::needs_storing(cell) == needs);
}

/// The part is stored, and confirmed where no later one was viewed.
fn confirm<K: Keeps, R: Abort + AllocGlobal>(
    rt: &R,
    keeper: &mut K,
    cell: &mut K::Topic,
    part: K::Part,
    is_last: bool,
) {
    let kept = stored(rt, keeper, part);
    assert!(rt; K::confirm(cell, kept) == is_last);
}

/// The part is refused (F16).
fn is_refused<K: Keeps, R: Abort + AllocGlobal>(rt: &R, keeper: &mut K, part: K::Part) -> bool {
    let mut parts = Vec::new(rt.alloc());
    parts.push(part).expect(rt, "no memory");
    matches!(keeper.store(parts), Err(Fault::StoreFailed))
}

const BEGUN: &str = "subscribe s Shared 0 push:10 0 100 1 - Earliest
dispatch s 1000
nack 1 CAAQAA== 1000
tick s 1100
dispatch s 1100
";

/// Publishes, an acknowledgement, a death and a seek, all after the view.
const MEANWHILE: &str = "publish 1 4 - aGk= 1004
dispatch s 1100
ack 1 CAAQAQ==
nack 1 CAAQAA== 1100
tick s 1200
subscribe e Exclusive 0 push:10 0 60000 0 - Latest
seek e earliest
publish 1 5 - aGk= 1005
";

fn begin<K: Keeps, R: Abort + AllocGlobal>(rt: &R, keeper: &mut K, cell: &mut K::Topic) {
    play::<K, R>(rt, cell, FOUR);
    let first = keeper.view(rt, cell);
    confirm(rt, keeper, cell, first, true);
    play::<K, R>(rt, cell, BEGUN);
    check_needs::<K, R>(rt, cell, true);
}

fn go_on<K: Keeps, R: Abort + AllocGlobal>(rt: &R, keeper: &mut K, cell: &mut K::Topic) {
    let part = keeper.view(rt, cell);
    check_needs::<K, R>(rt, cell, false);
    let then = K::snapshot_of(rt, cell);
    play::<K, R>(rt, cell, MEANWHILE);
    confirm(rt, keeper, cell, part, true);
    check_progress::<K, R>(rt, cell, 4, 6);
    check_needs::<K, R>(rt, cell, true);
    assert!(rt; keeper.stands(&then));
}

fn finish<K: Keeps, R: Abort + AllocGlobal>(rt: &R, keeper: &mut K, cell: &mut K::Topic) {
    let part = keeper.view(rt, cell);
    confirm(rt, keeper, cell, part, true);
    check_progress::<K, R>(rt, cell, 6, 6);
    check_stands(rt, keeper, cell);
}

#[derive(Drop)]
struct Between;

impl Scene for Between {
    fn play<K: Keeps, R: Abort + AllocGlobal>(&self, rt: &R, mut keeper: K) {
        let mut cell = K::fresh(rt, T);
        begin(rt, &mut keeper, &mut cell);
        go_on(rt, &mut keeper, &mut cell);
        finish(rt, &mut keeper, &mut cell);
    }
}

#[test]
fn events_between_view_and_confirmation(rt: HostRuntime) {
    in_memory(&rt, &Between);
}

fn confirm_first<K: Keeps, R: Abort + AllocGlobal>(
    rt: &R,
    keeper: &mut K,
    cell: &mut K::Topic,
    first: K::Part,
) {
    confirm(rt, keeper, cell, first, false);
    check_progress::<K, R>(rt, cell, 0, 5);
    assert!(rt; !K::is_stored(cell));
}

fn confirm_second<K: Keeps, R: Abort + AllocGlobal>(
    rt: &R,
    keeper: &mut K,
    cell: &mut K::Topic,
    second: K::Part,
) {
    confirm(rt, keeper, cell, second, true);
    check_progress::<K, R>(rt, cell, 5, 5);
    assert!(rt; K::is_stored(cell));
    check_stands(rt, keeper, cell);
}

/// Messages go between a view and its confirmation, some of which that view made durable; the next store takes their rows.
#[derive(Drop)]
struct Trimmed;

/// 80 messages, of which 60 are stored. The first 64 go once their store is known.
fn trim_between<K: Keeps, R: Abort + AllocGlobal>(rt: &R, keeper: &mut K, cell: &mut K::Topic) {
    play::<K, R>(rt, cell, "trim 0 1000 64\n");
    let part = keeper.view(rt, cell);
    let then = K::snapshot_of(rt, cell);
    play::<K, R>(rt, cell, "publish 1 80 - - 1000\nseek s latest\n");
    confirm(rt, keeper, cell, part, true);
    check_progress::<K, R>(rt, cell, 80, 81);
    assert!(rt; keeper.stands(&then));
    let part = keeper.view(rt, cell);
    play::<K, R>(rt, cell, TRIM);
    confirm(rt, keeper, cell, part, true);
    check_progress::<K, R>(rt, cell, 81, 81);
    check_needs::<K, R>(rt, cell, true);
}

impl Scene for Trimmed {
    fn play<K: Keeps, R: Abort + AllocGlobal>(&self, rt: &R, mut keeper: K) {
        let mut cell = K::fresh(rt, T);
        play::<K, R>(rt, &mut cell, "producer p -\n");
        publish_more::<K, R>(rt, &mut cell, 60);
        round(rt, &mut keeper, &mut cell);
        publish_more::<K, R>(rt, &mut cell, 20);
        play::<K, R>(rt, &mut cell, DONE);
        trim_between(rt, &mut keeper, &mut cell);
        round(rt, &mut keeper, &mut cell);
        check_stands(rt, &mut keeper, &cell);
        assert!(rt; keeper.written().deleted == 64);
    }
}

#[test]
fn a_trim_between_view_and_confirmation(rt: HostRuntime) {
    in_memory(&rt, &Trimmed);
}

/// The proof of the first of two views comes after the second view, and once more after its store.
#[derive(Drop)]
struct Late;

impl Scene for Late {
    fn play<K: Keeps, R: Abort + AllocGlobal>(&self, rt: &R, mut keeper: K) {
        let mut cell = K::fresh(rt, T);
        play::<K, R>(rt, &mut cell, FOUR);
        let first = keeper.view(rt, &mut cell);
        play::<K, R>(rt, &mut cell, "publish 1 4 - aGk= 1004\n");
        let second = keeper.view(rt, &mut cell);
        confirm_first(rt, &mut keeper, &mut cell, first);
        confirm_second(rt, &mut keeper, &mut cell, second);
    }
}

#[test]
fn an_old_proof_does_nothing(rt: HostRuntime) {
    in_memory(&rt, &Late);
}

/// Of two views the second is stored, and then the first: it is refused, and nothing changes.
#[derive(Drop)]
struct Behind;

impl Scene for Behind {
    fn play<K: Keeps, R: Abort + AllocGlobal>(&self, rt: &R, mut keeper: K) {
        let mut cell = K::fresh(rt, T);
        play::<K, R>(rt, &mut cell, FOUR);
        let first = keeper.view(rt, &mut cell);
        play::<K, R>(rt, &mut cell, "publish 1 4 - aGk= 1004\n");
        let second = keeper.view(rt, &mut cell);
        confirm(rt, &mut keeper, &mut cell, second, true);
        assert!(rt; is_refused(rt, &mut keeper, first));
        assert!(rt; !keeper.has_failed());
        check_stands(rt, &mut keeper, &cell);
    }
}

#[test]
fn an_older_view_is_not_stored(rt: HostRuntime) {
    in_memory(&rt, &Behind);
}
