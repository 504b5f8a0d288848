// What holds of the definitions.
ghost use Rattle.wire_json.specs.Laws.{AdminsReadBack, DeliveriesReadBack, ErrorsReadBack, IdsAreRead, OksReadBack};

/// An id is read as the one position that it is the text of, and no other text is.
pub fn ids_are_read()
    ensures { IdsAreRead }
{}

/// What answers a publish that was taken reads back as an object of its context, its id and its result.
pub fn oks_read_back()
    ensures { OksReadBack }
{}

/// What answers a publish that was refused reads back as an object of its context, its message and its result.
pub fn errors_read_back()
    ensures { ErrorsReadBack }
{}

/// A delivery reads back as an object of its message.
pub fn deliveries_read_back()
    ensures { DeliveriesReadBack }
{}

/// What answers an administrator reads back as an object of what it says.
pub fn admins_read_back()
    ensures { AdminsReadBack }
{}
