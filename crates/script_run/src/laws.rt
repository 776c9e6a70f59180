//! Laws of the counts, and of what is written.
ghost use Rattle.script_run.specs.Counts.{CountsAddUp};
ghost use Rattle.script_run.specs.Plain.{CountsAreWithinWork, PlainWritesTranscripts};

/// The counts of the turns add up to the rise of the library's count. The call does nothing.
pub fn counts_add_up()
    ensures { CountsAddUp }
{}

/// In all turns together no more calls are counted than are due in them. The call does nothing.
pub fn counts_are_within_work()
    ensures { CountsAreWithinWork }
{}

/// Where nothing is written behind lines, what is written of turns is their transcript. The call does nothing.
pub fn plain_writes_transcripts()
    ensures { PlainWritesTranscripts }
{}
