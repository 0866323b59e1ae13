//! Theorems about runs that resume from a saved state. The functions do nothing; their contracts are proved of the definitions alone.

ghost use Rattle.drf_app.specs.ResumeLaws.{AuditIsTheSame, EpochKeepsWhatStands, ExplanationIsTheSame, GoesOnFromSaved, GoodJournalsArePairs, JournalsAreGlued, LinesAreJoined, ResumeIsExact, ResumedIsTheSame, SavedIsTheSame, WholeLinesStay};

use drf_journal::{cut_law, glue_law, reply_lines_law};
use drf_saved_laws::epoch_law;

/// Proves that resuming is exact, for all inputs. Save an allocator after a first input, read what was saved, and run a second input from it.
/// The output is, byte for byte, the end of the output of one run over the lines of both inputs, and the state is the same. So are audits,
/// explanations and later saves.
pub fn resume_law()
    ensures lines { LinesAreJoined }
    ensures whole { WholeLinesStay }
    ensures exact { ResumeIsExact }
    ensures same { ResumedIsTheSame }
    ensures audit { AuditIsTheSame }
    ensures explanation { ExplanationIsTheSame }
    ensures saved { SavedIsTheSame }
{
    cut_law();
}

/// Proves that a journal in two parts is good exactly if its first part is good, and its second part is good from the state saved after the first.
pub fn journals_law()
    ensures glued { JournalsAreGlued }
    ensures pairs { GoodJournalsArePairs }
{
    glue_law();
    reply_lines_law();
}

/// Proves that a run that resumes from a saved state is a run from the saved rows. After an epoch these are the rows of the epoch, which keeps
/// everything except offers, counts and numbers.
pub fn saved_rows_law()
    ensures goes_on { GoesOnFromSaved }
    ensures rest { EpochKeepsWhatStands }
{
    epoch_law();
}
