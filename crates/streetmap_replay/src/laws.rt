//! Laws of the definitions.
ghost use Rattle.streetmap_replay.specs.Again.{BatchTextReadsAgain, ReadBatchIsUntimed};
ghost use Rattle.streetmap_replay.specs.Again.{TimesDoNotMatter};
ghost use Rattle.streetmap_replay.specs.Journal.{JournalGrows, JournalIsWhole};
ghost use Rattle.streetmap_replay.specs.Lines.{LinesAreOne};
ghost use Rattle.streetmap_replay.specs.JournalText.{JournalReadsInLines, BeginningsAreTorn};
ghost use Rattle.streetmap_replay.specs.FollowedLines.{FollowersGoOn, FollowersAreBeginnings};
ghost use Rattle.streetmap_replay.specs.FollowedLines.{FollowersArrive, LinesComeInOrder};
ghost use Rattle.streetmap_replay.specs.Sittings.{SittingsAddUp};
ghost use Rattle.streetmap_replay.specs.Replay.{StatesReplay};

/// The text of a batch is a batch's, and reads as the batch without the times of its features; a
/// batch that was read from a text has no times; and a batch acts as one without times.
pub fn batch_text_reads_again()
    ensures again { BatchTextReadsAgain }
    ensures untimed { ReadBatchIsUntimed }
    ensures acts { TimesDoNotMatter }
{}

/// The journal of a state is the texts of the accepted batches, in order.
pub fn journal_grows()
    ensures { JournalGrows }
{}

/// A state that keeps n batches has a journal of n texts, the i-th of which is kept with the
/// serial i.
pub fn journal_is_whole()
    ensures { JournalIsWhole }
{}

/// The same bytes are only one line, with its serial or without; the text of a batch is one
/// without.
pub fn lines_are_one()
    ensures { LinesAreOne }
{}

/// The lines of a journal's bytes are its texts with their serials.
pub fn journal_reads_in_lines()
    ensures { JournalReadsInLines }
{}

/// A prefix of a journal's bytes is some of its first lines and a torn one, and is a prefix of each
/// later journal too.
pub fn beginnings_are_torn()
    ensures { BeginningsAreTorn }
{}

/// A follower that is given lines of the journal, from one that it has or the next on, follows
/// them, and has the state of a prefix of the batches. It follows a single line if it has those
/// before; else the line is not the next.
pub fn followers_go_on()
    ensures go_on { FollowersGoOn }
    ensures beginnings { FollowersAreBeginnings }
    ensures arrive { FollowersArrive }
    ensures in_order { LinesComeInOrder }
{}

/// A follower of a journal's lines up to the serial k, in any number of sittings, with any line
/// again at any time, has the state after the first k accepted batches.
pub fn sittings_add_up()
    ensures { SittingsAddUp }
{}

/// A state that batches made is the one that its journal gives, and one that its journal gives
/// comes from batches.
pub fn states_replay()
    ensures { StatesReplay }
{}
