//! Answers questions.
ghost use Rattle.std.specs.Prelude.{◌≡◌, ◌≤◌, ◌++◌, [], true, Some, OnOk};
ghost use Rattle.drf_core.specs.Machine.{live};
ghost use Rattle.drf_lines.specs.ReplyLine.{line_of};
ghost use Rattle.drf_rows.specs.declared.limits.TheConstants.{LATEST_TIMESTAMP};
ghost use Rattle.drf_rows.specs.Members.{has_framework};
ghost use Rattle.drf_ask.specs.Answer.{opening, reported, not_reported, list_value, listed, is_known, if_known, explained_reported, answer_of_kind, answer_value, answer_line};
ghost use Rattle.drf_ask.specs.Question.{is_question, word_of, word_at, fault_name, timestamp_of};

use crate::list::{Listed, has_name, push_list};
use crate::question::{Fault, Kind, kind_of, question_of, timestamp_of};
use crate::table::push_tables;
use crate::text::{drop_last, push_string, put};
use drf_core::Core;
use drf_lines::push_reply;
use drf_rows::{Limits, Reply, Rows};
use drf_sorter::Sorter;
use drf_state::write_state;
use std::alloc::AllocError;

/// The greatest length of a question, in bytes and without its line feed.
const LONGEST_LINE: usize = 65_536;

/// Returns the word of a question with which its answer begins, or `?` if the question is unknown.
fn word_at(kind: Option<Kind>) -> &'static str
    ensures { result.now ≡ word_at kind }
{
    match kind {
        Some(kind) => kind.word(),
        None => "?",
    }
}

/// Appends the line that reports why a question has no answer.
fn push_no_answer(text: &mut Vec<u8>, kind: Option<Kind>, fault: Fault) -> Result<(), AllocError>
    ensures { OnOk result (text.new.items ≡ text.old.items ++ line_of (not_reported (word_at kind) (fault_name fault))) }
{
    put(text, "{\"asked\":\"")?;
    put(text, word_at(kind))?;
    put(text, "\",\"fault\":\"")?;
    put(text, fault.name())?;
    put(text, "\"}\n")
}

/// Appends the beginning of an answer, up to its value.
fn push_opening(text: &mut Vec<u8>, kind: Kind) -> Result<(), AllocError>
    ensures { OnOk result (text.new.items ≡ text.old.items ++ opening (word_of kind)) }
{
    put(text, "{\"asked\":\"")?;
    put(text, kind.word())?;
    put(text, "\",\"")?;
    put(text, kind.word())?;
    put(text, "\":")
}

/// Appends the answer to `?report`.
fn push_report<S: Sorter>(core: &Core<S>, text: &mut Vec<u8>) -> Result<(), AllocError>
    ensures { OnOk result (text.new.items ≡ text.old.items ++ line_of (answer_of_kind (live core.now) Kind.Report [])) }
{
    push_opening(text, Kind::Report)?;
    let report = core.report()?;
    push_reply(text, &Reply::Report(report))?;
    drop_last(text);
    put(text, "}\n")
}

/// Appends the answer to `?explain` for the timestamp `at`, in milliseconds.
fn push_findings<S: Sorter>(core: &Core<S>, at: u64, text: &mut Vec<u8>) -> Result<(), AllocError>
    requires { at ≤ LATEST_TIMESTAMP }
    ensures { OnOk result (text.new.items ≡ text.old.items ++ line_of (explained_reported (live core.now).rows (Some at))) }
{
    push_opening(text, Kind::Explain)?;
    let findings = core.explain(at)?;
    push_list(text, &findings, &[])?;
    put(text, "}\n")
}

/// Appends the answer to `?explain`, or an error if the argument is not a timestamp.
fn push_explained<S: Sorter>(
    core: &Core<S>,
    argument: &[u8],
    text: &mut Vec<u8>,
) -> Result<(), AllocError>
    ensures { OnOk result (text.new.items ≡ text.old.items ++ line_of (explained_reported (live core.now).rows (timestamp_of argument.now))) }
{
    match timestamp_of(argument) {
        Some(at) => push_findings(core, at, text),
        None => push_no_answer(text, Some(Kind::Explain), Fault::BadArgument),
    }
}

/// Returns whether a framework is registered under this name.
fn has_framework(rows: &Rows, name: &[u8]) -> bool
    ensures { result ≡ has_framework rows.now name.now }
{
    let frameworks = rows.frameworks.as_slice();
    frameworks.iter().any(|row| has_name(&row.name, name))
}

/// Returns whether the framework is registered, or none is named.
fn is_known(rows: &Rows, framework: &[u8]) -> bool
    ensures { result ≡ is_known rows.now framework.now }
{
    framework.is_empty() || has_framework(rows, framework)
}

/// Appends an answer that lists items: those of the framework, or all if none is named. If the framework is not
/// registered, it appends an error.
fn push_listed<T: Listed>(
    rows: &Rows,
    kind: Kind,
    items: &[T],
    framework: &[u8],
    text: &mut Vec<u8>,
) -> Result<(), AllocError>
    ensures { OnOk result (text.new.items ≡ text.old.items ++ line_of (if_known rows.now framework.now (word_of kind)
        (reported (word_of kind) (list_value T.value (listed T.is_of framework.now items.now))))) }
{
    if is_known(rows, framework) {
        push_opening(text, kind)?;
        push_list(text, items, framework)?;
        return put(text, "}\n");
    }
    push_no_answer(text, Some(kind), Fault::UnknownFramework)
}

/// Appends the answer to `?offers`.
fn push_offers<S: Sorter>(
    core: &Core<S>,
    framework: &[u8],
    text: &mut Vec<u8>,
) -> Result<(), AllocError>
    ensures { OnOk result (text.new.items ≡ text.old.items ++ line_of (answer_of_kind (live core.now) Kind.Offers framework.now)) }
{
    let rows = core.rows()?;
    push_listed(&rows, Kind::Offers, rows.offers.as_slice(), framework, text)
}

/// Appends the answer to `?tasks`.
fn push_tasks<S: Sorter>(
    core: &Core<S>,
    framework: &[u8],
    text: &mut Vec<u8>,
) -> Result<(), AllocError>
    ensures { OnOk result (text.new.items ≡ text.old.items ++ line_of (answer_of_kind (live core.now) Kind.Tasks framework.now)) }
{
    let rows = core.rows()?;
    push_listed(&rows, Kind::Tasks, rows.tasks.as_slice(), framework, text)
}

/// Appends the answer to `?tables`.
fn push_how_full<S: Sorter>(
    core: &Core<S>,
    limits: &Limits,
    text: &mut Vec<u8>,
) -> Result<(), AllocError>
    requires { limits.now ≡ (live core.now).limits }
    ensures { OnOk result (text.new.items ≡ text.old.items ++ line_of (answer_of_kind (live core.now) Kind.Tables [])) }
{
    // The contract of this call says that the capacities are within their upper bounds.
    let _ = limits.agents();
    push_opening(text, Kind::Tables)?;
    let rows = core.rows()?;
    let report = core.report()?;
    push_tables(text, limits, &rows, report.total.entries().len())?;
    put(text, "}\n")
}

/// Appends the answer to `?state`.
fn push_saved<S: Sorter>(core: &Core<S>, text: &mut Vec<u8>) -> Result<(), AllocError>
    ensures { OnOk result (text.new.items ≡ text.old.items ++ line_of (answer_of_kind (live core.now) Kind.State [])) }
{
    push_opening(text, Kind::State)?;
    let rows = core.rows()?;
    let state = write_state(*text.allocator(), &rows)?;
    push_string(text, &state)?;
    put(text, "}\n")
}

fn push_answer_of_kind<S: Sorter>(
    core: &Core<S>,
    limits: &Limits,
    kind: Kind,
    argument: &[u8],
    text: &mut Vec<u8>,
) -> Result<(), AllocError>
    requires { limits.now ≡ (live core.now).limits }
    ensures { OnOk result (text.new.items ≡ text.old.items ++ line_of (answer_of_kind (live core.now) kind argument.now)) }
{
    match kind {
        Kind::Report => push_report(core, text),
        Kind::Explain => push_explained(core, argument, text),
        Kind::Offers => push_offers(core, argument, text),
        Kind::Tasks => push_tasks(core, argument, text),
        Kind::State => push_saved(core, text),
        Kind::Tables => push_how_full(core, limits, text),
    }
}

/// Appends the line that answers a question.
#[tactic(auto, unfolding(crate::specs::Answer::answer_value))]
fn push_answer_line<S: Sorter>(
    core: &Core<S>,
    limits: &Limits,
    line: &[u8],
    text: &mut Vec<u8>,
) -> Result<(), AllocError>
    requires limits { limits.now ≡ (live core.now).limits }
    requires asks { is_question line.now ≡ true }
    ensures { OnOk result (text.new.items ≡ text.old.items ++ line_of (answer_value (live core.now) line.now)) }
{
    if line.len() > LONGEST_LINE {
        return push_no_answer(text, None, Fault::LineTooLong);
    }
    let question = question_of(line);
    let Some(kind) = kind_of(question.word) else {
        return push_no_answer(text, None, Fault::UnknownQuestion);
    };
    if !question.has_right_words(kind) {
        return push_no_answer(text, Some(kind), Fault::BadArgument);
    }
    push_answer_of_kind(core, limits, kind, question.argument, text)
}

/// Appends the line that answers a question. If `echo` is set, it begins with `?`.
pub(crate) fn push_answer<S: Sorter>(
    core: &Core<S>,
    limits: &Limits,
    echo: bool,
    line: &[u8],
    text: &mut Vec<u8>,
) -> Result<(), AllocError>
    requires limits { limits.now ≡ (live core.now).limits }
    requires asks { is_question line.now ≡ true }
    ensures { OnOk result (text.new.items ≡ text.old.items ++ answer_line echo (live core.now) line.now) }
{
    if echo {
        put(text, "?")?;
    }
    push_answer_line(core, limits, line, text)
}
