// Waits of eight threads at the bells of a topic: each is rung, and none waits for a second.
use super::bells::{Counter, sit};
use session_bells::{Bells, Rest};
use std::process::Abort;
use std::rt::Clock;
use std::sync::atomic::{AtomicU64, Ordering};
use std::sync::{Arc, Mutex, Wait};
use std::test::*;
use std::thread;
use std::thread::Threads;
use std::time::{Duration, Instant};

/// So many threads wait, so often each; one more stores.
const WAITERS: usize = 8;

const WAITS: u64 = 1_250;

/// How long one waits at most, in milliseconds.
const MOST: u64 = 1_000;

/// The bells, and the one of each who waits; and how many of them have done.
#[derive(Drop)]
struct Hall {
    bells: Mutex<Bells<Counter>>,
    counters: Vec<Arc<Counter>>,
    done: AtomicU64,
}

impl Hall {
    /// Leaves the bell for the next store. True where that had not come.
    fn rest<R: Wait>(&self, rt: &R, seat: u64) -> bool {
        let mut bells = self.bells.lock(rt);
        let next = bells.durable().saturating_add(1);
        let more = Rest {
            durable: Some(next),
            messages: false,
        };
        bells.rest(rt, seat, more)
    }

    /// Waits until the bell is rung once more: false where that takes too long.
    fn wait<R: Wait + Clock + Abort>(&self, rt: &R, counter: &Counter, before: u64) -> bool {
        let start = Instant::now(rt).expect(rt, "no moment");
        for _ in 0..1_000_000u32 {
            if counter.rings() != before {
                return true;
            }
            if start.elapsed(rt).expect(rt, "no moment") > Duration::from_millis(MOST) {
                return false;
            }
            thread::sleep(rt, Duration::from_micros(10));
        }
        false
    }

    fn wait_once<R: Wait + Clock + Abort>(&self, rt: &R, counter: &Counter, seat: u64) {
        let before = counter.rings();
        assert!(rt; self.rest(rt, seat));
        assert!(rt; self.wait(rt, counter, before));
    }

    fn wait_often<R: Wait + Clock + Abort>(&self, rt: &R, which: usize) {
        let counter = self.counters.get(which).expect(rt, "no bell");
        for _ in 0..WAITS {
            self.wait_once(rt, counter, which as u64 + 1);
        }
        self.done.fetch_add(1, Ordering::SeqCst);
    }

    /// One more message is stored.
    fn store<R: Wait>(&self, rt: &R) {
        let mut bells = self.bells.lock(rt);
        let next = bells.durable().saturating_add(1);
        bells.stored(rt, next);
    }

    /// Stores until all who wait have done.
    fn store_often<R: Wait + Clock>(&self, rt: &R) {
        for _ in 0..100_000_000u32 {
            if self.done.load(Ordering::SeqCst) == WAITERS as u64 {
                return;
            }
            self.store(rt);
            thread::sleep(rt, Duration::from_micros(10));
        }
    }

    fn take_part<R: Wait + Clock + Abort>(&self, rt: &R, which: usize) {
        if which < WAITERS {
            self.wait_often(rt, which);
        } else {
            self.store_often(rt);
        }
    }
}

/// So many sit at the bells, each with one of these.
fn sit_all<R: Abort + AllocGlobal>(
    rt: &R,
    bells: &mut Bells<Counter>,
    counters: &mut Vec<Arc<Counter>>,
) {
    for seat in 1..=WAITERS as u64 {
        counters.push(sit(rt, bells, seat)).expect(rt, "no memory");
    }
}

/// A hall in which each of so many has a bell.
fn open_hall<R: Abort + AllocGlobal>(rt: &R) -> Hall {
    let mut bells = Bells::new(rt.alloc(), 0);
    let mut counters = Vec::new(rt.alloc());
    sit_all(rt, &mut bells, &mut counters);
    Hall {
        bells: Mutex::new(bells),
        counters,
        done: AtomicU64::new(0),
    }
}

#[test]
fn nobody_is_forgotten(rt: HostRuntime) -> Result<(), Fail> {
    let hall = open_hall(&rt);
    thread::map_indices(
        &rt,
        rt.alloc(),
        WAITERS + 1,
        &|which| { hall.take_part(&rt, which) },
    )?;
    Ok(())
}
