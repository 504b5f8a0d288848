// Laws over everything that may happen at two topics and at the couriers between them.
ghost use Rattle.dead_letters.specs.Couriers.{CouriersDiffer, CouriersAreApart, CopiesBearOrdinals};
ghost use Rattle.dead_letters.specs.Letters.{LettersLeaveByMoves, OnlyStoresMakeSafe, OrdinalsRise};
ghost use Rattle.dead_letters.specs.Laws.{MovedOnce, MayBeMoved, MayGo, MayGoOn, SafeIsStored};
ghost use Rattle.dead_letters.specs.Worlds.{MessagesGoOn};
ghost use Rattle.dead_letters.specs.Together.{AllMovedOnce, AllMayBeMoved};

/// Of all messages that a topic has had, one is of each moved death of a subscription that went there: by the couriers'
/// name, under its ordinal and with its body; so it is of what is stored of that topic, and was before the death was done
/// with. Those of one subscription are in the order of dying. So it is whatever happens: any events at both topics, stores,
/// any number of couriers, refusals on the way, trims, deletions of either topic, and crashes, after which all goes on from
/// what is stored.
///
/// A copy, and the message that died, may go from their topics once every subscription has done with them. They count as
/// before: a courier that comes with the letter again is answered `Duplicate`.
///
/// A topic may be deleted where nobody is at it and none of its letters waits to be moved. What is left of it is stored in
/// the same moment, and under its name it goes on from that: its messages went like those that were trimmed, and ordinals
/// and the couriers' last numbers go on. So the copy of a death after the deletion is never taken for one from before it.
///
/// A death is moved once its topic answered `Done` to the `DeadDone` that names it; after a crash those are moved that were
/// so when their topic was stored last. Nothing says that a letter is ever moved, or when.
///
/// Four things are taken for granted: a topic is told only of what was stored, only couriers are done with a letter that
/// goes to the other topic, nobody else publishes there under their name, and this begins with `dlq/`: any other name may
/// be forgotten once its messages are gone.
pub fn moved_once()
    ensures { MovedOnce }
{}

/// The law above speaks of something: any message may die and be moved.
pub fn moved_once_example()
    ensures { MayBeMoved }
{}

/// It speaks of copies that went too: any message may die and be moved, and its copy may then go from the other topic. Where
/// a crash takes back that the death was done with, it is moved again, and no second copy comes.
pub fn trimmed_copy_example()
    ensures { MayGo }
{}

/// It speaks of deletions too: any message may die and be moved, both topics may be deleted and made again, and then another
/// message may die and be moved: its copy comes beside the first.
pub fn deleted_topics_example()
    ensures { MayGoOn }
{}

/// So it is for all subscriptions of a topic at once, each with couriers of its own.
pub fn all_moved_once()
    ensures { AllMovedOnce }
{}

/// The law above speaks of something too: any message may die and be moved.
pub fn all_moved_once_example()
    ensures { AllMayBeMoved }
{}

/// What is safe to be moved stands in what is stored of its topic; and of all messages that the other topic has had, those
/// that are durable are among those that what is stored of it has had. The couriers' name begins with `dlq/`.
pub fn safe_is_stored()
    ensures { SafeIsStored }
{}

/// What a topic has had, it has had: whatever it answers, none of the messages that these laws speak of is left out later,
/// and each keeps its place.
pub fn messages_go_on()
    ensures { MessagesGoOn }
{}

/// No two subscriptions have couriers of one name, so that none takes another's copy for its own.
pub fn couriers_differ()
    ensures { CouriersDiffer }
{}

/// A name that does not begin with `dlq/` is no courier's. A client may have no other name.
pub fn couriers_are_apart()
    ensures { CouriersAreApart }
{}

/// The sequence number of a copy is the ordinal of its letter. All ordinals are below 2^62 (`ordinals_rise`).
pub fn copies_bear_ordinals()
    ensures { CopiesBearOrdinals }
{}

/// A letter leaves the dead letters of its subscription only by a move, and the first is moved first.
pub fn letters_leave_by_moves()
    ensures { LettersLeaveByMoves }
{}

/// Who dies later has the greater ordinal.
pub fn ordinals_rise()
    ensures { OrdinalsRise }
{}

/// Only `Stored` and `StoredTo` make a letter safe: the event says that the letter is stored.
pub fn only_stores_make_safe()
    ensures { OnlyStoresMakeSafe }
{}
