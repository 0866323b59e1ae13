//! Parses questions.
ghost use Rattle.std.specs.Prelude.{◌≡◌, ◌≤◌, ◌-◌, ◌^◌, true, length, min, IfSome};
ghost use Rattle.std.specs.Char.{is_ascii_digit};
ghost use Rattle.std.specs.List.{list_all, position_or_len, prefix_len};
ghost use Rattle.drf_role.specs.Text.{same_text};
ghost use Rattle.drf_rows.specs.declared.limits.TheConstants.{LATEST_TIMESTAMP};
ghost use Rattle.drf_ask.specs.Question.{is_question, is_blank, without_blanks, question_of, kind_of, word_of, fault_name, takes_argument, has_right_words, number_from, timestamp_of};

use drf_rows::LATEST_TIMESTAMP;

/// The kinds of questions.
#[derive(Clone, Copy)]
pub(crate) enum Kind {
    /// The report of shares.
    Report,
    /// What the next cycle would offer, and why other clients would get nothing.
    Explain,
    /// The outstanding offers.
    Offers,
    /// The running tasks.
    Tasks,
    /// The state, as `save` writes it.
    State,
    /// The number of rows and the capacity of each table.
    Tables,
}

impl Kind {
    /// Returns the word with which the question asks.
    pub(crate) fn word(self) -> &'static str
        ensures { result.now ≡ word_of self }
    {
        match self {
            Kind::Report => "report",
            Kind::Explain => "explain",
            Kind::Offers => "offers",
            Kind::Tasks => "tasks",
            Kind::State => "state",
            Kind::Tables => "tables",
        }
    }

    /// Returns whether the question can have an argument.
    fn takes_argument(self) -> bool
        ensures { result ≡ takes_argument self }
    {
        matches!(self, Kind::Explain | Kind::Offers | Kind::Tasks)
    }
}

/// Why a question has no answer.
#[derive(Clone, Copy)]
pub(crate) enum Fault {
    /// There is no such question.
    UnknownQuestion,
    /// No framework is registered under the name.
    UnknownFramework,
    /// The argument is not a timestamp, or there are too many words.
    BadArgument,
    /// The line has more than 65,536 bytes.
    LineTooLong,
}

impl Fault {
    /// Returns the name of the error, as it is reported.
    pub(crate) fn name(self) -> &'static str
        ensures { result.now ≡ fault_name self }
    {
        match self {
            Fault::UnknownQuestion => "UnknownQuestion",
            Fault::UnknownFramework => "UnknownFramework",
            Fault::BadArgument => "BadArgument",
            Fault::LineTooLong => "LineTooLong",
        }
    }
}

/// The words of a question: the first is its kind, and the second is its argument, which is empty if there is none.
/// `more` is everything after them.
#[derive(Clone, Copy)]
pub(crate) struct Question<'a> {
    pub(crate) word: &'a [u8],
    pub(crate) argument: &'a [u8],
    pub(crate) more: &'a [u8],
}

/// Returns whether a line is a question.
pub(crate) fn is_question(line: &[u8]) -> bool
    ensures { result ≡ is_question line.now }
{
    !line.is_empty() && line[0] == b'?'
}

fn is_blank(byte: u8) -> bool
    ensures { result ≡ is_blank byte }
{
    byte == b' ' || byte == b'\t' || byte == b'\r'
}

/// Returns the number of blanks with which a text begins.
fn blank_len(text: &[u8]) -> usize
    ensures bound { result ≤ length text.now }
    ensures value { result ≡ prefix_len is_blank text.now }
{
    for (i, byte) in text.iter().enumerate() {
        if !is_blank(*byte) {
            return i;
        }
    }
    text.len()
}

/// Returns the length of the first word, in bytes.
fn word_len(text: &[u8]) -> usize
    ensures bound { result ≤ length text.now }
    ensures value { result ≡ position_or_len is_blank text.now }
{
    for (i, byte) in text.iter().enumerate() {
        if is_blank(*byte) {
            return i;
        }
    }
    text.len()
}

fn without_blanks(text: &[u8]) -> &[u8]
    ensures { result.now ≡ without_blanks text.now }
{
    &text[blank_len(text)..]
}

/// Splits the part of a question after its `?` into words.
#[tactic(auto, unfolding(crate::specs::Question::question_of))]
pub(crate) fn question_of(line: &[u8]) -> Question<'_>
    requires { is_question line.now ≡ true }
    ensures word { result.word.now ≡ (question_of line.now).word }
    ensures argument { result.argument.now ≡ (question_of line.now).argument }
    ensures more { result.more.now ≡ (question_of line.now).more }
{
    let text = without_blanks(&line[1..]);
    let (word, behind) = text.split_at(word_len(text));
    let behind = without_blanks(behind);
    let (argument, more) = behind.split_at(word_len(behind));
    Question {
        word,
        argument,
        more: without_blanks(more),
    }
}

fn asks_for(word: &[u8], kind: Kind) -> bool
    ensures { result ≡ same_text word.now (word_of kind) }
{
    word == kind.word().as_bytes()
}

/// Returns the kind of question that a word asks, or `None`.
pub(crate) fn kind_of(word: &[u8]) -> Option<Kind>
    ensures { result ≡ kind_of word.now }
{
    if asks_for(word, Kind::Report) {
        return Some(Kind::Report);
    }
    if asks_for(word, Kind::Explain) {
        return Some(Kind::Explain);
    }
    if asks_for(word, Kind::Offers) {
        return Some(Kind::Offers);
    }
    if asks_for(word, Kind::Tasks) {
        return Some(Kind::Tasks);
    }
    if asks_for(word, Kind::State) {
        return Some(Kind::State);
    }
    if asks_for(word, Kind::Tables) {
        return Some(Kind::Tables);
    }
    None
}

impl Question<'_> {
    /// Returns whether the question has no more words than its kind allows.
    pub(crate) fn has_right_words(&self, kind: Kind) -> bool
        ensures { result ≡ has_right_words kind (record { word = self.now.word.now; argument = self.now.argument.now; more = self.now.more.now }) }
    {
        self.more.is_empty() && (kind.takes_argument() || self.argument.is_empty())
    }
}

/// Returns the number that the digits represent, or 2^64 - 1 if it is greater.
fn number_of(digits: &[u8]) -> u64
    ensures { result ≡ min (number_from 0 digits.now) (2 ^ 64 - 1) }
{
    let mut number = 0_u64;
    for digit in digits {
        let value = u64::from(digit.saturating_sub(b'0'));
        number = number.saturating_mul(10).saturating_add(value);
    }
    number
}

fn are_digits(text: &[u8]) -> bool
    ensures { result ≡ list_all is_ascii_digit text.now }
{
    text.iter().all(|byte| byte.is_ascii_digit())
}

/// Returns the timestamp that an argument gives, in milliseconds, or `None` if it is not a number up to 2^62. Without
/// an argument it is 0, which means the current time of the clock.
pub(crate) fn timestamp_of(argument: &[u8]) -> Option<u64>
    ensures value { result ≡ timestamp_of argument.now }
    ensures early { IfSome result (λ at. at ≤ LATEST_TIMESTAMP) }
{
    if !are_digits(argument) {
        return None;
    }
    let timestamp = number_of(argument);
    if timestamp > LATEST_TIMESTAMP {
        return None;
    }
    Some(timestamp)
}
