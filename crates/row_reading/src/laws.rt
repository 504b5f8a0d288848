// What holds of rows and what they tell.
ghost use Rattle.row_reading.specs.KeyOrder.{InOrderAreIts};
ghost use Rattle.row_reading.specs.Limits.{WhatRunsKeepIsRead};
ghost use Rattle.row_reading.specs.ReadRows.{WhatStandsIsRead};
ghost use Rattle.row_reading.specs.Telling.{OneStands, RowsTellOne};

/// Two snapshots of one topic that have the same rows, in any order, are one: as long as the topic may go on from both, and
/// their dead letters go to topics with names.
pub fn rows_tell_one()
    ensures { RowsTellOne }
{}

/// So what stands of a topic in a database is one such snapshot.
pub fn one_stands()
    ensures { OneStands }
{}

/// As `what_stands_is_read`, with the order said by places, names and numbers.
pub fn in_order_are_its()
    ensures { InOrderAreIts }
{}

/// What stands of a topic is what is read of it: in the order of their keys, its rows are those of the snapshot
/// that stands there.
pub fn what_stands_is_read()
    ensures { WhatStandsIsRead }
{}

/// Whatever a topic's store keeps after any run is read back where its rows stand: as long as the values of what was
/// asked are within the limits of their types, and the run began with a topic with nothing in it, or one that was read back.
pub fn what_runs_keep_is_read()
    ensures { WhatRunsKeepIsRead }
{}
