// A bell that shows whether it was rung.
use session_bells::Bell;
use std::process::Abort;
use std::sync::atomic::{AtomicBool, Ordering};
use std::sync::{Arc, Wait};

/// A bell that shows whether it was rung.
#[derive(Drop)]
pub(super) struct Chime {
    rung: AtomicBool,
}

impl Chime {
    pub(super) fn is_rung(&self) -> bool {
        self.rung.load(Ordering::SeqCst)
    }
}

impl Bell for Chime {
    fn ring<R: Wait>(&self, _rt: &R) {
        self.rung.store(true, Ordering::SeqCst);
    }
}

pub(super) fn bell<R: Abort + AllocGlobal>(rt: &R) -> Arc<Chime> {
    let chime = Chime {
        rung: AtomicBool::new(false),
    };
    Arc::new(rt.alloc(), chime).expect(rt, "no memory")
}
