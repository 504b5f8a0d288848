// Laws over a keeper's whole life.
ghost use Rattle.row_store.specs.Keeping.{UpgradesKeepTopics};
ghost use Rattle.row_store.specs.Opened.{WhatRestsIsFound};
ghost use Rattle.row_store.specs.Lives.{CrashesCompose};
ghost use Rattle.row_store.specs.Promise.{OkIsStored, OpenedAreTold};

/// Whatever a crash leaves, it is of each topic what was stored last of it, or, of all topics alike, what it is with the store that
/// was under way. A deletion is such a store, of what is left of the topic. So it is after any stores, deletions, loads and rounds,
/// and after one that failed.
pub fn crashes_compose()
    ensures { CrashesCompose }
{}

/// A topic at rest may be let go of: whatever is opened again of its name, from what stands, goes on from it.
pub fn what_rests_is_found()
    ensures { WhatRestsIsFound }
{}

/// A database that became one of a later version has every topic that it had, and no other.
pub fn upgrades_keep_topics()
    ensures { UpgradesKeepTopics }
{}

/// `ok` means stored. Where the cell of a topic tells that messages are durable, and by no caller's word, each of them stands at its place
/// in the snapshot that was confirmed last, with rows that were committed. Over a disk that returns what is written to it, whatever a
/// crash leaves from then on has rows of the topic with each of these messages at its place, but for those that went from the front
/// since. So it is after any stores, loads and forgettings, deletions of other topics and new keepers over the same rows, and while one
/// of these is under way.
///
/// Taken for granted is that a keeper's calls are such deeds. `store`, `load`, `forget` and `delete` say so of each that answered `Ok`,
/// and of one that did not that its rows are as they were or as they are with it; what a keeper knows stands, by its type. By reading
/// alone: that a store which did not answer `Ok` looked first at what its parts go on from, as its contract says of one that did; that
/// who forgets a topic holds no part of it from before its first store; and that the cell which tells is the one whose store noted
/// these rows.
pub fn ok_is_stored()
    ensures { OkIsStored }
{}

/// The promise is not empty: each topic that is opened with messages from rows that stand tells that all of them are durable, and all
/// that `ok_is_stored` asks of its cell is so.
pub fn opened_are_told()
    ensures { OpenedAreTold }
{}
