// Messages on their way to a consumer.
ghost use Rattle.std.specs.Prelude.{◌≡◌, ◌↔◌, IsTrue, ◌-◌, [], ◌∷◌, ◌++◌, OnOk, OnErr, length, take};
ghost use Rattle.delivery_machine.specs.Acknowledging.{is_one_of, without};

use position_core::{Message, Position};
use std::alloc::{AllocError, Global};
use std::marker::Model;

/// A message for a consumer, and how often it was redelivered before.
#[derive(Clone, Drop)]
pub struct Delivery {
    pub message: Message,
    pub count: u32,
}

/// Whether the position is one of these.
pub fn is_one_of(positions: &[Position], position: Position) -> bool
    ensures { result ≡ is_one_of positions.now position }
{
    positions.iter().any(|other| position.is(*other))
}

impl Delivery {
    /// Whether two deliveries are the same.
    pub fn is(&self, other: &Delivery) -> bool
        ensures { IsTrue result ↔ self.now ≡ other.now }
    {
        self.message.is(&other.message) && self.count == other.count
    }
}

fn are_same(items: &[Delivery], others: &[Delivery]) -> bool
    ensures { IsTrue result ↔ items.now ≡ others.now }
{
    if items.len() != others.len() {
        return false;
    }
    'each: for i in 0..items.len() {
        if !items[i].is(&others[i]) {
            return false;
        }
    }
    true
}

fn leave_out(items: &mut Vec<Delivery>, positions: &[Position])
    ensures { items.new.items ≡ without positions.now items.old.items }
{
    items.retain(|delivery| !is_one_of(positions, delivery.message.position()));
}

/// Messages for a consumer, in the order in which they were sent.
pub struct Deliveries {
    items: Vec<Delivery>,
}

impl Drop for Deliveries {
    fn drop(self) {
        let Deliveries { items: _ } = self;
    }
}

impl Model for Deliveries {
    ghost use Rattle.std.specs.Prelude.{List};
    ghost use Rattle.delivery_machine.specs.declared.delivery.Delivery.{Delivery};

    ghost Value = { List Delivery };

    ghost view = { λ d. d.items.items };
}

impl Deliveries {
    pub fn new(alloc: Global) -> Self
        ensures { result ≡ [] }
    {
        Deliveries {
            items: Vec::new(alloc),
        }
    }

    pub fn as_slice(&self) -> &[Delivery]
        ensures { result.now ≡ self.now }
    {
        self.items.as_slice()
    }

    pub fn push(&mut self, delivery: Delivery) -> Result<(), AllocError>
        ensures ok { OnOk result (self.new ≡ self.old ++ delivery ∷ []) }
        ensures err { OnErr result (self.new ≡ self.old) }
    {
        self.items.push(delivery)?;
        Ok(())
    }

    /// Takes the last one back, where there is one.
    pub fn drop_last(&mut self)
        ensures { self.new ≡ take (length self.old - 1) self.old }
    {
        self.items.pop();
    }

    pub fn clear(&mut self)
        ensures { self.new ≡ [] }
    {
        self.items.clear();
    }

    /// Leaves out the copies of the messages.
    pub fn leave_out(&mut self, positions: &[Position])
        ensures { self.new ≡ without positions.now self.old }
    {
        leave_out(&mut self.items, positions);
    }

    /// Whether two lists have the same deliveries in the same order.
    pub fn are(&self, others: &Deliveries) -> bool
        ensures { IsTrue result ↔ self.now ≡ others.now }
    {
        are_same(self.as_slice(), others.as_slice())
    }
}

impl Clone for Deliveries {
    ghost is_clone = { λ deliveries copy. copy ≡ deliveries };

    fn clone(&self) -> Result<Self, AllocError> {
        Ok(Deliveries {
            items: self.items.clone()?,
        })
    }
}
