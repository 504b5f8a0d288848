// Laws over a topic's life.
ghost use Rattle.delivery_machine.specs.Laws.{MayCome};
ghost use Rattle.topic_lives.specs.Laws.{AcknowledgedStaysSo, DeletionsKeepNumbers, IsLeftByCourier, MayBeSentInBothLives, PositionsAreNotGivenAgain};

/// What is acknowledged is not sent again, also once the topic was let go of and opened again, or was deleted and made again.
pub fn acknowledged_stays()
    ensures { AcknowledgedStaysSo }
{}

/// The law above speaks of something: any message may be sent and acknowledged, and then the topic be deleted and made again,
/// and another message be sent there.
pub fn acknowledged_stays_example()
    ensures { MayBeSentInBothLives }
{}

/// A topic that is made again after a deletion goes on with all numbers: nothing that was told of the deleted one is taken for
/// something of the new one.
pub fn deletions_keep_numbers()
    ensures { DeletionsKeepNumbers }
{}

/// The law above speaks of something: any message may be one that was moved to a topic, which is then deleted and made again.
pub fn deletions_keep_numbers_example()
    ensures { MayCome IsLeftByCourier }
{}

/// A message's position is its own for ever.
pub fn positions_are_not_given_again()
    ensures { PositionsAreNotGivenAgain }
{}
