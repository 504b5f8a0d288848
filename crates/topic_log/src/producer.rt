// Who may publish, and after which sequence number.
ghost use Rattle.std.specs.Prelude.{◌≡◌, is_some};
ghost use Rattle.std.specs.Bool.{OnFalse};
ghost use Rattle.std.specs.Option.{option_copied};
ghost use Rattle.std.specs.List.{find, list_any, position};
ghost use Rattle.std.specs.Str.{bytes_eq};
ghost use Rattle.delivery_machine.specs.Words.{is_producer, removed};

use position_core::{Base, ProducerName, ProducerNumber};
use std::marker::Model;

/// A connected producer.
pub struct Producer {
    number: ProducerNumber,
    name: ProducerName,
    base: Base,
}

impl Drop for Producer {
    fn drop(self) {
        let Producer {
            number: _,
            name: _,
            base: _,
        } = self;
    }
}

impl Model for Producer {
    ghost use Rattle.delivery_machine.specs.State.{Producer};

    ghost Value = { Producer };

    ghost view = { λ p. record { number = p.number; name = p.name; base = p.base } };
}

impl Producer {
    pub fn new(number: ProducerNumber, name: ProducerName, base: Base) -> Self
        ensures { result ≡ record { number = number; name = name; base = base } }
    {
        Producer { number, name, base }
    }

    fn is_number(&self, number: ProducerNumber) -> bool
        ensures { result ≡ is_producer number self.now }
    {
        self.number == number
    }

    fn is_named(&self, name: &ProducerName) -> bool
        ensures { result ≡ bytes_eq self.now.name name.now }
    {
        self.name.is(name)
    }

    pub fn name(&self) -> &ProducerName
        ensures { result.now ≡ self.now.name }
    {
        &self.name
    }

    pub fn base(&self) -> Base
        ensures { result ≡ self.now.base }
    {
        self.base
    }
}

/// The producer of the number.
pub fn producer_at(producers: &[Producer], number: ProducerNumber) -> Option<&Producer>
    ensures { option_copied result ≡ find (is_producer number) producers.now }
{
    producers.iter().find(|producer| producer.is_number(number))
}

/// Whether a producer of the name is connected.
pub fn is_connected(producers: &[Producer], name: &ProducerName) -> bool
    ensures { result ≡ list_any (λ p. bytes_eq p.name name.now) producers.now }
{
    producers.iter().any(|producer| producer.is_named(name))
}

fn place_of_producer(producers: &[Producer], number: ProducerNumber) -> Option<usize>
    ensures { result ≡ position (is_producer number) producers.now }
{
    producers
        .iter()
        .position(|producer| producer.is_number(number))
}

/// Takes the producer out, and answers whether it was there.
pub fn drop_producer(producers: &mut Vec<Producer>, number: ProducerNumber) -> bool
    ensures known { result ≡ is_some (find (is_producer number) producers.old.items) }
    ensures none { OnFalse result (producers.new.items ≡ producers.old.items) }
    ensures left { producers.new.items ≡ removed (is_producer number) producers.old.items }
{
    match place_of_producer(producers, number) {
        Some(place) => {
            producers.remove(place);
            true
        }
        None => false,
    }
}
