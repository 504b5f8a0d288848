// Laws over every run: each holds of whatever a topic was asked, in any order.
ghost use Rattle.delivery_machine.specs.Laws.{MayCome, AcknowledgedStays, IsSentAndAcknowledged, PermitsAndWindowsBound, PermitsAndWindowsMayBeUsed, OrderAtActive, ArePendingInOrder, OneHashAtOneConsumer, ArePendingInKeyShared, ReachedAreWellFormed, IsPendingInShared, SnapshotsAreSound, StoredIsStoredTo, TrimsLoseNothing, AreGone};
ghost use Rattle.delivery_machine.specs.ShareSets.{SharesAreSets};

/// From every state that a topic comes to: what a subscription has acknowledged it is not sent again,
/// until it is sought or dropped, also once the message is gone.
pub fn l1()
    ensures { AcknowledgedStays }
{}

/// The law above speaks of something: any message may be sent and acknowledged.
pub fn l1_example()
    ensures { MayCome IsSentAndAcknowledged }
{}

/// Permits bound what a consumer that pulls is sent, and windows what is pending at one that is
/// pushed to.
pub fn l2()
    ensures { PermitsAndWindowsBound }
{}

/// The law above speaks of something: any message may use up a permit, or fill a window.
pub fn l2_example()
    ensures { PermitsAndWindowsMayBeUsed }
{}

/// In Exclusive and Failover the messages are pending in their order at the active member.
pub fn l3()
    ensures { OrderAtActive }
{}

/// The law above speaks of something: any two messages of one body may come
/// to be pending in Exclusive, in their order.
pub fn l3_example()
    ensures { MayCome ArePendingInOrder }
{}

/// In Key_Shared one key's messages are pending at one consumer, and are sent in their order
/// (PIP-379).
pub fn l4()
    ensures { OneHashAtOneConsumer }
{}

/// The law above speaks of something: any two messages of one body may come to be pending at one
/// consumer in Key_Shared, while a message of another hash is pending at another.
pub fn l4_example()
    ensures { MayCome ArePendingInKeyShared }
{}

/// Every state that a topic comes to is well formed.
pub fn reached()
    ensures { ReachedAreWellFormed }
{}

/// The law above speaks of something: any message may come to be pending in Shared, uncollected.
pub fn reached_example()
    ensures { MayCome IsPendingInShared }
{}

/// A topic may go on from a snapshot of any state that one comes to.
pub fn snapshots_are_sound()
    ensures { SnapshotsAreSound }
{}

/// To store everything is to store up to the length of the log and the next ordinal.
pub fn stored_is_stored_to()
    ensures { StoredIsStoredTo }
{}

/// A consumer that joins takes half of the largest share, and one that leaves gives its share to its
/// neighbour; nobody else's hashes change, and all hashes stay split among the shares. One that says
/// which hashes it takes has those until it leaves; then they are nobody's.
pub fn shares_are_sets()
    ensures { SharesAreSets }
{}

/// A trim takes nothing that anybody needs: what is live, pending or dead, redelivery counts, what is
/// not collected, how far a subscription is, and where the next message comes are as they were.
pub fn trims_lose_nothing()
    ensures { TrimsLoseNothing }
{}

/// The law above speaks of something: sixty-four messages may go.
pub fn trims_lose_nothing_example()
    ensures { MayCome AreGone }
{}
