// What holds of the definitions.
ghost use Rattle.json_values.specs.Laws.{PayloadsAreBase64};

/// A payload's text stands for bytes exactly where it is their base64, with all its padding or none.
pub fn payloads_are_base64()
    ensures { PayloadsAreBase64 }
{}
