// What the threads of a broker do.
use crate::house::House;
use crate::post::Post;
use crate::putter::Newcomer;
use crate::worker::{Door, Worker};
use handover::Taker;
use mio::Poll;
use std::alloc::Global;
use std::io::Eprint;
use std::rt::{Clock, Files};
use std::sync::{Arc, Wait};

/// What a worker begins with.
#[derive(Drop)]
pub struct Start {
    pub(crate) poll: Poll,
    pub(crate) post: Arc<Post>,
    pub(crate) taker: Taker<Newcomer>,
    pub(crate) door: Arc<Door>,
}

/// What the threads of a broker share, and do. It names no guests, so that it can be shared by threads whatever these are.
pub trait Job {
    /// Stores what waits, until nothing is to be stored any more.
    fn keep<R: Wait + Clock>(&self, rt: &R);

    /// Serves connections, until no more come or the store has failed. False where it could not.
    fn work<R: Wait + Clock + Eprint>(&self, rt: &R, alloc: Global, start: Start) -> bool;

    /// What needs files is done now, since only the thread that began has them: at the start, and once a second.
    fn attend<R: Wait + Clock + Eprint + Files>(&self, rt: &R);

    /// Stores all that waits, and then nothing more.
    fn finish<R: Wait>(&self, rt: &R);

    /// Whether the store has failed.
    fn has_failed(&self) -> bool;
}

/// The work of a worker at the house: it serves connections until no more come and all have ended, or until the store
/// fails. False where it could not.
pub fn work_at<H: House, R: Wait + Clock + Eprint>(
    rt: &R,
    house: &H,
    alloc: Global,
    start: Start,
) -> bool {
    let Start {
        poll,
        post,
        taker,
        door,
    } = start;
    match Worker::new(alloc, poll, post, taker) {
        Some(worker) => {
            let mut worker: Worker<H::Guest> = worker;
            worker.work(rt, house, &*door).is_ok()
        }
        None => false,
    }
}
