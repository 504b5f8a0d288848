// Rows that let go what went from the log.
ghost use Rattle.std.specs.Prelude.{◌≡◌, ◌≢◌, ℕ, true, false, is_some};
ghost use Rattle.delivery_machine.specs.State.{State, Subscription};
ghost use Rattle.hash_rows.specs.Standing.{is_placed, SameKnowledge};
ghost use Rattle.dispatch_keyed.specs.Tables.{row_at, HasRow};
ghost use Rattle.dispatch_keyed.specs.Agreeing.{Agrees};

use crate::keyed::Keyed;
use crate::rows::next_hash;
use crate::table::Rows;

impl Keyed {
    /// Looks at so many rows at most, those after the ones that it looked at last, up to the last of the
    /// table. They let go what went from the log, and those of which all went are taken out.
    pub(crate) fn sweep(&mut self, most: u64)
        ensures { (s : State) (sub : Subscription) → Agrees self.old s sub → Agrees self.new s sub }
    {
        for _row in 0..most {
            if !self.sweep_one() {
                return;
            }
        }
    }

    /// Looks at one row. Says whether there was one.
    fn sweep_one(&mut self) -> bool
        ensures { (s : State) (sub : Subscription) → Agrees self.old s sub → Agrees self.new s sub }
    {
        match next_hash(&self.rows, self.swept) {
            Some(hash) => {
                tidy(&mut self.rows, hash);
                self.swept = u32::from(hash) + 1;
                true
            }
            None => {
                self.swept = 0;
                false
            }
        }
    }
}

/// The row of the hash lets go what went, and is taken out where all of it went.
fn tidy(rows: &mut Rows, hash: u16)
    ensures others { (h : ℕ) → h ≢ hash → row_at rows.new h ≡ row_at rows.old h }
    ensures here { SameKnowledge (row_at rows.old hash) (row_at rows.new hash) }
    ensures keys { (h : ℕ) → HasRow rows.new h → HasRow rows.old h }
{
    if is_done(rows, hash) {
        take_out(rows, hash);
    } else {
        shed(rows, hash);
    }
}

/// Whether the hash has a row, all of which went.
fn is_done(rows: &Rows, hash: u16) -> bool
    ensures { result ≡ true → (i : ℕ) → is_placed (row_at rows.now hash) i ≡ false }
{
    match rows.rows.get(&hash) {
        Some(row) => row.is_done(rows.base),
        None => false,
    }
}

fn take_out(rows: &mut Rows, hash: u16)
    requires { (i : ℕ) → is_placed (row_at rows.old hash) i ≡ false }
    ensures others { (h : ℕ) → h ≢ hash → row_at rows.new h ≡ row_at rows.old h }
    ensures here { SameKnowledge (row_at rows.old hash) (row_at rows.new hash) }
    ensures keys { (h : ℕ) → HasRow rows.new h → HasRow rows.old h }
{
    rows.rows.remove(&hash);
}

fn shed(rows: &mut Rows, hash: u16)
    ensures others { (h : ℕ) → h ≢ hash → row_at rows.new h ≡ row_at rows.old h }
    ensures here { SameKnowledge (row_at rows.old hash) (row_at rows.new hash) }
    ensures keys { (h : ℕ) → is_some (row_at rows.new h).row ≡ is_some (row_at rows.old h).row }
{
    let base = rows.base;
    match rows.rows.get_mut(&hash) {
        Some(row) => row.shed(base),
        None => (),
    }
}
