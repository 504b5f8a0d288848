// What wakes a session.
use std::sync::Wait;

/// What wakes a session. It is rung under the lock of a topic, so it waits for no other lock than its own, and takes no
/// memory: a ring that failed would be a session that sleeps for ever.
pub trait Bell {
    fn ring<R: Wait>(&self, rt: &R);
}
