// What is seen of all topics of the broker.
ghost use Rattle.std.specs.Prelude.{◌≡◌, string_bytes};

use std::marker::Model;

/// What is seen of all topics of the broker, as a text.
#[derive(Debug, Drop)]
pub struct Overview {
    text: String,
}

impl Model for Overview {
    ghost use Rattle.std.specs.Prelude.{ℕ, List, string_bytes};

    ghost Value = { List ℕ };

    ghost view = { λ o. string_bytes o.text };
}

impl Overview {
    pub fn new(text: String) -> Self
        ensures { result ≡ string_bytes text }
    {
        Overview { text }
    }

    pub fn as_text(&self) -> &str
        ensures { result.now ≡ self.now }
    {
        self.text.as_str()
    }
}
