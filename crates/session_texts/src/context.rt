// The context of a publish, which its answer carries.
ghost use Rattle.std.specs.Prelude.{◌≡◌, option_copied, option_map, string_bytes};

use std::marker::Model;

/// The context of a publish, where it had one.
#[derive(Debug, Drop)]
pub struct Context {
    text: Option<String>,
}

impl Model for Context {
    ghost use Rattle.std.specs.Prelude.{ℕ, List, Option, option_map, string_bytes};

    ghost Value = { Option (List ℕ) };

    ghost view = { λ c. option_map string_bytes c.text };
}

impl Context {
    pub fn new(text: Option<String>) -> Self
        ensures { result ≡ option_map string_bytes text }
    {
        Context { text }
    }

    pub fn as_text(&self) -> Option<&str>
        ensures { option_copied result ≡ self.now }
    {
        match &self.text {
            Some(text) => Some(text.as_str()),
            None => None,
        }
    }
}
