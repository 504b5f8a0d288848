// The room of one consumer.
ghost use Rattle.std.specs.Prelude.{◌≡◌, Some, None, IsTrue, IfErr, OnOk, OnErr};
ghost use Rattle.position_core.specs.Flow.{begun, flow_has_room, granted, granting_refused};
ghost use Rattle.permit_core.specs.Running.{given_back, spent_one};

use position_core::{Fault, Permits};
use std::marker::Model;

/// A consumer's flow while it runs. It takes no memory, and each call takes constant time.
#[derive(Drop)]
pub struct Flow {
    flow: position_core::Flow,
    /// How many messages are pending in the window; 0 for a consumer that pulls.
    held: u32,
}

impl Model for Flow {
    ghost use Rattle.permit_core.specs.Running.{Running, IsWithin};

    ghost Value = { Running };

    ghost view = { λ f. record { flow = f.flow; held = f.held } };

    ghost invariant = { λ f. IsWithin f.flow f.held };
}

impl Flow {
    /// As a consumer joins: nothing pending, and no credit.
    pub fn begin(flow: position_core::Flow) -> Self
        ensures { result ≡ record { flow = begun flow; held = 0 } }
    {
        Flow {
            flow: flow.begun(),
            held: 0,
        }
    }

    /// Whether a further message may be sent.
    pub fn has_room(&self) -> bool
        ensures { result ≡ flow_has_room self.now.flow self.now.held }
    {
        match self.flow {
            position_core::Flow::Window(size) => self.held < size.get(),
            position_core::Flow::Credit(left) => left.get() > 0,
        }
    }

    /// A message is sent, for which there is room.
    pub fn spend(&mut self)
        requires { IsTrue (flow_has_room self.old.flow self.old.held) }
        ensures { self.new ≡ spent_one self.old }
    {
        match self.flow {
            position_core::Flow::Window(_) => self.held += 1,
            position_core::Flow::Credit(_) => self.flow = self.flow.spent(),
        }
    }

    /// A message is no longer pending: a window has room for one more; a credit stays spent.
    pub fn give_back(&mut self)
        ensures { self.new ≡ given_back self.old }
    {
        self.held = self.held.saturating_sub(1);
    }

    /// Lets the consumer be sent so many further messages. Nothing changes where it is refused.
    pub fn grant(&mut self, permits: Permits) -> Result<(), Fault>
        ensures ok { OnOk result (self.new ≡ record { flow = granted permits self.old.flow; held = self.old.held }) }
        ensures allowed { OnOk result (granting_refused permits self.old.flow ≡ None) }
        ensures refused { IfErr result (λ fault. granting_refused permits self.old.flow ≡ Some fault) }
        ensures same { OnErr result (self.new ≡ self.old) }
    {
        self.flow = self.flow.granted(permits)?;
        Ok(())
    }
}
