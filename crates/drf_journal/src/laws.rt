//! Theorems about the definitions. The functions do nothing; their contracts are the statements.
ghost use Rattle.drf_journal.specs.JournalLaws.{HasOneVerdict, RepliesAreNoEvents, FaultsAreNoEvents, RepliesArePassedOver, LinesInTwo, OutputInTwo, AllocatorInTwo, AuditInTwo, ExplanationInTwo, StepsLeaveLiveRows, JournalInTwo, LineFeedEndsLine, LineGoesOn, EndedLinesStay, KeptGoesOn, MeaningIsKept, AnswerIsKept, OutputLineByLine};

/// Proves that a journal has at most one verdict, so that the one that is returned is the only one.
pub fn verdict_law()
    ensures { HasOneVerdict }
{}

/// Proves that no reply line is an event. So the lines of a correct journal lead to the same rows as its event lines
/// alone.
pub fn reply_lines_law()
    ensures replies { RepliesAreNoEvents }
    ensures faults { FaultsAreNoEvents }
    ensures passed_over { RepliesArePassedOver }
{}

/// Proves that an input can be cut after a line. Its output is that for the first part, followed by that for the second
/// part from the current state after the first. The allocator at the end, its audit and its explanation are also the
/// same. A run, which removes expired filters line by line, reaches the same allocator.
pub fn cut_law()
    ensures lines { LinesInTwo }
    ensures output { OutputInTwo }
    ensures allocator { AllocatorInTwo }
    ensures audit { AuditInTwo }
    ensures explanation { ExplanationInTwo }
    ensures steps { StepsLeaveLiveRows }
{}

/// Proves that a journal can be cut after a whole pair. It is correct exactly if its first part is, and its second part
/// is from the allocator after the events of the first.
pub fn glue_law()
    ensures { JournalInTwo }
{}

/// Proves how the lines of an input arrive chunk by chunk, that the kept bytes of a line have its meaning and its
/// answer, and that the output is made line by line.
pub fn line_law()
    ensures feed { LineFeedEndsLine }
    ensures within { LineGoesOn }
    ensures ended { EndedLinesStay }
    ensures kept { KeptGoesOn }
    ensures meaning { MeaningIsKept }
    ensures answer { AnswerIsKept }
    ensures output { OutputLineByLine }
{}
