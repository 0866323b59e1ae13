//! A theorem about the definitions. The function does nothing but call another theorem; its contract is the statement.
ghost use Rattle.drf_ask.specs.Asked.{IsWrittenInLines, EachIsLine, AnswersAreMarked, AnswersStandBeside, QuestionsChangeNothing};

use drf_journal::line_law;

/// Proves that the output consists of lines, each with one line feed at its end, and that answers to questions are
/// recognized by how they begin. Without the answers, the output is byte for byte that of a run over the event lines
/// alone, and the allocator at the end is the same.
pub fn asked_law()
    ensures lines { IsWrittenInLines }
    ensures whole { EachIsLine }
    ensures marked { AnswersAreMarked }
    ensures beside { AnswersStandBeside }
    ensures allocator { QuestionsChangeNothing }
{
    // The contract of this call says that the output is made line by line.
    line_law();
}
