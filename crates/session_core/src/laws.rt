// Laws over a session's turns.
ghost use Rattle.session_core.specs.Waiting.{WaitsQuietly};

/// Where nothing has come of what a session waits for, as `Session::waits` tells it, a turn sends nothing: no text, fewer
/// messages stored than it needs, and no message collected for it.
///
/// It is said of sessions that do not wait for room: whether a connection had room while a turn sent is not told. What `due`
/// tells is not tied to the moments of the messages either.
pub fn waiting_sends_nothing()
    ensures { WaitsQuietly }
{}
