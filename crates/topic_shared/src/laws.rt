// Laws of journals.
ghost use Rattle.topic_shared.specs.Laws.{MeetingJournalsAreOne};

/// What was written before a roll and what is written after it are one journal.
pub fn meeting_journals_are_one()
    ensures { MeetingJournalsAreOne }
{}
