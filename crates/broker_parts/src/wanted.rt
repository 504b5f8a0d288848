// What a topic wants of those who store, and whether they know.
ghost use Rattle.std.specs.Prelude.{◌≡◌, false};

use crate::stage::Stage;

/// What a topic wants of those who store, and whether they know.
#[derive(Clone, Copy, Debug, PartialEq, Eq)]
pub struct Wanted {
    /// It waits on the board to be stored, or is being stored.
    pub is_queued: bool,
    /// A store of it found no memory: it is to be stored although it has not changed since it was viewed.
    pub is_behind: bool,
    /// The thread that stores was told to come, and has not come yet.
    pub is_called: bool,
    /// A courier waits until more of it is stored.
    pub is_awaited: bool,
}

impl Wanted {
    pub fn new() -> Self
        ensures { (result.is_queued ≡ false) × (result.is_behind ≡ false) }
    {
        Wanted {
            is_queued: false,
            is_behind: false,
            is_called: false,
            is_awaited: false,
        }
    }

    /// No place was left on the board: it is put there with the next call.
    pub fn fall_behind(&mut self) {
        self.is_queued = false;
        self.is_behind = true;
    }

    /// Whether it is to be put on the board now, to be stored. It counts as put there then. One that leaves is stored once
    /// nobody is there any more.
    pub fn queue(&mut self, has_changed: bool, stage: Stage) -> bool {
        let is_other = self.is_behind || has_changed;
        let wants = !self.is_queued && is_other && stage == Stage::Open;
        if wants {
            self.is_queued = true;
        }
        wants
    }

    /// Whether the thread that stores is to be told now to send the courier. It counts as told then.
    pub fn courier(&mut self, has_letters: bool) -> bool {
        let wants = !self.is_called && (has_letters || self.is_awaited);
        if wants {
            self.is_called = true;
        }
        wants
    }

    /// Whether the thread that stores is to be told now to see the topic out. It counts as told then.
    pub fn end(&mut self, stage: Stage) -> bool {
        let wants = !self.is_called && stage == Stage::Leaving;
        if wants {
            self.is_called = true;
        }
        wants
    }

    /// What was viewed is stored. Where it is not what was viewed last the topic is to be stored again.
    pub fn stored(&mut self, is_last: bool) {
        self.is_queued = false;
        self.is_behind = !is_last;
    }
}
