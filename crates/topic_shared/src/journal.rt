// The journal that is left of a topic.
ghost use Rattle.std.specs.Prelude.{◌≡◌, ◌↔◌, length, IsTrue};
ghost use Rattle.topic_shared.specs.Accounts.{Stands};

use crate::line::Line;
use crate::receipt::Receipt;
use delivery_machine::Event;
use std::marker::Model;

/// The lines of a topic, which count from 0 on.
pub struct Journal {
    lines: Vec<Line>,
}

impl Drop for Journal {
    fn drop(self) {
        let Journal { lines: _ } = self;
    }
}

impl Model for Journal {
    ghost use Rattle.std.specs.Prelude.{List};
    ghost use Rattle.topic_shared.specs.Lines.{Line};

    ghost Value = { List Line };

    ghost view = { λ j. j.lines.items };
}

impl Journal {
    pub(crate) fn new(lines: Vec<Line>) -> Journal
        ensures { result ≡ lines.items }
    {
        Journal { lines }
    }

    pub fn len(&self) -> usize
        ensures { result ≡ length self.now }
    {
        self.lines.len()
    }

    /// Whether the line that the receipt speaks of stands at its number, with this event.
    pub fn check(&self, receipt: &Receipt, event: &Event) -> bool
        ensures { IsTrue result ↔ Stands self.now receipt.now.number receipt.now.seat event.now receipt.now.reply }
    {
        match self.lines.get(receipt.number as usize) {
            Some(line) => line.is(receipt.seat, event, &receipt.reply),
            None => false,
        }
    }
}
