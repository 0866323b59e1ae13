//! Questions about names, labels, roles and nodes, which are copied and sorted.
use crate::answer::Answer;
use crate::subject::{Subject, read_all};
use drf_role::{Label, Name, NodePath, Role};
use std::alloc::AllocError;

/// A value that can be copied and written.
pub trait Word: Subject {
    /// Returns a copy.
    fn copy(&self) -> Result<Self, AllocError>;

    /// Returns the text.
    fn text(&self) -> &str;
}

impl Word for Name {
    fn copy(&self) -> Result<Name, AllocError> {
        self.copy()
    }

    fn text(&self) -> &str {
        self.text()
    }
}

impl Word for Label {
    fn copy(&self) -> Result<Label, AllocError> {
        self.copy()
    }

    fn text(&self) -> &str {
        self.text()
    }
}

impl Word for Role {
    fn copy(&self) -> Result<Role, AllocError> {
        self.copy()
    }

    fn text(&self) -> &str {
        self.text()
    }
}

impl Word for NodePath {
    fn copy(&self) -> Result<NodePath, AllocError> {
        self.copy()
    }

    fn text(&self) -> &str {
        self.text()
    }
}

/// Appends a copy.
pub fn copied<W: Word>(answer: &mut Answer, word: &W) {
    if let Some(copy) = answer.found(word.copy()) {
        answer.say(copy.text());
    }
}

/// Appends the values, with spaces between them.
fn append_all<W: Word>(answer: &mut Answer, words: &[W]) {
    for word in words {
        answer.say(word.text());
        answer.say(" ");
    }
    answer.end();
}

/// Sorts the values and appends them.
fn append_sorted<W: Word + Ord>(answer: &mut Answer, words: &mut Vec<W>) {
    let sorted = words.sort();
    if answer.found(sorted).is_some() {
        append_all(answer, words.as_slice());
    }
}

/// Appends the values of texts, sorted.
pub fn sorted<W: Word + Ord>(answer: &mut Answer, texts: &str) {
    let mut words = Vec::<W>::new(answer.alloc());
    if read_all(answer, &mut words, texts, ' ').is_some() {
        append_sorted(answer, &mut words);
    }
}
