// What a topic's lock guards, as it is stored: it is viewed, and what was viewed is confirmed; then messages go that nothing keeps.
ghost use Rattle.std.specs.Prelude.{[], ◌≡◌, IfOk, OnOk, false};
ghost use Rattle.delivery_machine.specs.Places.{snapshot_in};
ghost use Rattle.delivery_machine.specs.Snapshot.{snapshot_of};
ghost use Rattle.sqlite.specs.State.{HasCleanDisk};
ghost use Rattle.sqlite.specs.Held.{state};
ghost use Rattle.row_store.specs.Keeping.{StoresState};
ghost use Rattle.broker_dir.specs.Handing.{Confirms};
ghost use Rattle.broker_dir.specs.Trimming.{MayAnswer, most_after as most_going, rule_of as rule_by, trim_by as trims_by};

use super::{Inside, VISITOR};
use crate::trimming::{most_after, rule_of, trim_by};
use crate::watching::Rules;
use broker_parts::Stage;
use delivery_machine::{Fault, Opened, Reply};
use marks::Naming;
use row_store::{Keeper, Unmade};
use session_bells::Bell;
use sqlite::Alter;
use std::sync::Wait;
use stored_cell::{Kept, Part};

/// After how many lines a journal begins anew, so that its memory is bounded.
const LONG: u64 = 4_096;

/// After how many messages that went a journal begins anew: its lines hold their bodies.
const PINNED: u64 = 1_024;

impl<T: Opened + Drop, J: Naming, B: Bell + Drop> Inside<T, J, B> {
    /// The topic as it is, to be stored.
    pub(crate) fn view_by<S: Alter>(&mut self, keeper: &mut Keeper<S, J>) -> Result<Part<J>, Fault>
        ensures keeper { keeper.new ≡ keeper.old }
        ensures part { IfOk result (λ part. snapshot_in part.kept ≡ snapshot_of self.old.topic.cell.cell.state) }
        ensures state { self.new.topic.cell.cell.state ≡ self.old.topic.cell.cell.state }
        ensures name { self.new.topic.name ≡ self.old.topic.name }
        ensures stage { self.new.stage ≡ self.old.stage }
    {
        self.topic.view_by(keeper)
    }

    /// Stores the topic as it is, and makes all of it durable, in one hold. Its journal begins anew before, so that the store has
    /// its line.
    pub(crate) fn store_by<S: Alter>(&mut self, keeper: &mut Keeper<S, J>) -> Result<(), Unmade>
        ensures rows { HasCleanDisk (state S.Store keeper.new.conn) → OnOk result (StoresState self.old.topic.cell.cell.state (state S.Store keeper.old.conn).now.trees (state S.Store keeper.new.conn).now.trees) }
        ensures ok { OnOk result (keeper.new.failed ≡ false) }
        ensures name { self.new.topic.name ≡ self.old.topic.name }
        ensures stage { self.new.stage ≡ self.old.stage }
    {
        self.topic.roll();
        self.topic.round_by(keeper)
    }

    /// The journal begins anew: so there is room for a line, and none of it is taken.
    pub(crate) fn begin_anew(&mut self)
        ensures cell { self.new.topic.cell ≡ record self.old.topic.cell { cell = record self.old.topic.cell.cell { opening = self.old.topic.cell.cell.state; lines = [] } } }
        ensures name { self.new.topic.name ≡ self.old.topic.name }
        ensures stage { self.new.stage ≡ self.old.stage }
    {
        self.topic.roll();
    }

    /// What was viewed, with so many messages, is stored: those are rung whose answers are ready. Where it is not what was
    /// viewed last nobody is rung, and the topic is to be stored again. How many messages came since the store before.
    pub(crate) fn confirmed<R: Wait>(&mut self, rt: &R, length: u64, kept: Kept<J>) -> u64
        ensures state { Confirms kept self.old.topic.cell.cell.state self.new.topic.cell.cell.state }
        ensures name { self.new.topic.name ≡ self.old.topic.name }
    {
        let came = length.saturating_sub(self.hearers.bells.durable());
        let is_done = self.topic.confirm(kept);
        self.wanted.stored(is_done);
        if is_done {
            self.hearers.graves.stored();
            self.roll_if_long();
            self.hearers.bells.stored(rt, length);
        }
        came
    }

    /// Messages go that every subscription has done with and that nothing keeps, by the topic's own rule or the broker's: at
    /// most twice as many as came since the store before. Where that is refused (F1, F15) the next store asks again.
    pub(crate) fn trim(&mut self, rules: &Rules, came: u64)
        ensures asks { MayAnswer (trims_by (rule_by self.old.topic.cell.cell.state.retention rules.now.broker) rules.now.moment (most_going came)) self.old.topic.cell.cell.state self.new.topic.cell.cell.state }
        ensures name { self.new.topic.name ≡ self.old.topic.name }
        ensures stage { self.new.stage ≡ self.old.stage }
    {
        if self.stage != Stage::Open {
            return;
        }
        let rule = rule_of(self.topic.cell().cell().retention(), rules.broker());
        let Some(event) = trim_by(rule, rules.moment(), most_after(came)) else {
            return;
        };
        match self.topic.call(VISITOR, event) {
            Ok(receipt) => {
                if let Reply::Trimmed(gone) = receipt.reply {
                    self.bulk.trim(gone);
                    self.roll_if_pinned(gone);
                }
            }
            Err(_) => {}
        }
    }

    /// So many messages have gone.
    fn roll_if_pinned(&mut self, gone: u64)
        ensures state { self.new.topic.cell.cell.state ≡ self.old.topic.cell.cell.state }
        ensures name { self.new.topic.name ≡ self.old.topic.name }
        ensures stage { self.new.stage ≡ self.old.stage }
    {
        if gone.saturating_sub(self.rolled_at) >= PINNED {
            self.topic.roll();
            self.rolled_at = gone;
        }
    }

    pub(crate) fn roll_if_long(&mut self)
        ensures state { self.new.topic.cell.cell.state ≡ self.old.topic.cell.cell.state }
        ensures name { self.new.topic.name ≡ self.old.topic.name }
        ensures stage { self.new.stage ≡ self.old.stage }
    {
        if self.topic.cell().cell().lines() > LONG {
            self.topic.roll();
        }
    }

    /// Whether it is to be put on the board now, to be stored. It counts as put there then.
    pub(crate) fn wants_storing(&mut self) -> bool
        ensures topic { self.new.topic ≡ self.old.topic }
        ensures stage { self.new.stage ≡ self.old.stage }
    {
        let has_changed = self.topic.cell().cell().needs_storing();
        self.wanted.queue(has_changed, self.stage)
    }
}
