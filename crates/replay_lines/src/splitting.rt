// Texts that are split at a byte: lines, and the words of a line.
ghost use Rattle.std.specs.Prelude.{◌≡◌, ◌==◌, ◌<◌, [], ◌∷◌, ◌++◌, IfSome, IfNone, position, false};
ghost use Rattle.std.specs.List.{list_any};
ghost use Rattle.replay_lines.specs.Splitting.{split_by};

fn place_of(text: &[u8], separator: u8) -> Option<usize>
    ensures { result ≡ position (λ byte. byte == separator) text.now }
{
    text.iter().position(|byte| *byte == separator)
}

/// What stands before the first separator, and what after it: none where there is no separator.
pub fn split(text: &[u8], separator: u8) -> Option<(&[u8], &[u8])>
    ensures whole { IfSome result (λ parts. text.now ≡ parts.0.now ++ separator ∷ parts.1.now) }
    ensures first { IfSome result (λ parts. split_by separator text.now ≡ parts.0.now ∷ split_by separator parts.1.now) }
    ensures none { IfNone result (split_by separator text.now ≡ text.now ∷ []) }
    ensures apart { IfSome result (λ parts. list_any (λ byte. byte == separator) parts.0.now ≡ false) }
    ensures nowhere { IfNone result (list_any (λ byte. byte == separator) text.now ≡ false) }
{
    let place = place_of(text, separator)?;
    Some((&text[..place], &text[place + 1..]))
}
