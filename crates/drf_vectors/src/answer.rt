//! The answer to a question: a text. An error adds its own message to the text.
use std::alloc::Global;
use std::fmt::{Debug, Display, Write};

#[derive(Drop)]
/// A text that is appended to. If memory runs out, it becomes `no memory`.
pub struct Answer {
    alloc: Global,
    text: String,
    is_whole: bool,
}

impl Answer {
    /// Returns an empty answer.
    pub fn new(alloc: Global) -> Answer {
        Answer {
            alloc,
            text: String::new(alloc),
            is_whole: true,
        }
    }

    /// Returns the allocator.
    pub fn alloc(&self) -> Global {
        self.alloc
    }

    /// Returns the text.
    pub fn text(&self) -> &str {
        if self.is_whole {
            self.text.as_str()
        } else {
            "no memory"
        }
    }

    /// Appends a text.
    pub fn say(&mut self, text: &str) {
        self.is_whole &= self.text.push_str(text).is_ok();
    }

    /// Appends a value as `{}` writes it.
    pub fn show<D: Display>(&mut self, shown: &D) {
        self.is_whole &= write!(self.text, "{shown}").is_ok();
    }

    /// Appends a value as `{:?}` writes it.
    pub fn show_parts<D: Debug>(&mut self, shown: &D) {
        self.is_whole &= write!(self.text, "{shown:?}").is_ok();
    }

    /// Removes the last character, a separator that nothing followed.
    pub fn end(&mut self) {
        let _ = self.text.pop();
    }

    /// Returns the value, or appends the message of the error and returns `None`.
    pub fn found<T: Drop, F: Display + Drop>(&mut self, sought: Result<T, F>) -> Option<T> {
        match sought {
            Ok(value) => Some(value),
            Err(fault) => {
                self.show(&fault);
                None
            }
        }
    }
}
