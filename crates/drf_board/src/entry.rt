//! Entries: the elements of a history.
use drf_rows::{Copied, Event, Reply};
use std::alloc::AllocError;

/// An event with its reply: one element of a history. Refused events have entries too.
#[derive(Drop)]
pub struct Entry {
    pub event: Event,
    pub reply: Reply,
}

impl Copied for Entry {
    fn copy(&self) -> Result<Entry, AllocError> {
        Ok(Entry {
            event: self.event.copy()?,
            reply: self.reply.copy()?,
        })
    }
}
