//! Rows that are written as lines.
ghost use Rattle.std.specs.Prelude.{OnOk};
ghost use Rattle.drf_lines.specs.StateLine.{row_line};
ghost use Rattle.drf_lines.specs.Written.{AppendsText};
ghost use Rattle.drf_saved.specs.declared.saved.SavedRow.TheVariants.{Agent, Filter, Framework, Limit, Offer, Task, Weight};
ghost use Rattle.drf_state.specs.Read.{IsRead};

use drf_lines::{
    push_agent_row, push_filter_row, push_framework_row, push_limit_row, push_offer_row,
    push_task_row, push_weight_row,
};
use drf_rows::{AgentRow, FilterRow, FrameworkRow, LimitRow, OfferRow, TaskRow, WeightRow};
use std::alloc::AllocError;

/// A row that is written as a line.
pub(crate) trait Lined {
    ghost use Rattle.drf_saved.specs.declared.saved.SavedRow.{SavedRow};

    ghost saved: { Self → SavedRow };

    /// Appends its line, without a line feed.
    fn push(&self, text: &mut Vec<u8>) -> Result<(), AllocError>
        ensures appends { AppendsText result text.old.items text.new.items (row_line (saved self.now)) }
        ensures read { OnOk result (IsRead (saved self.now)) };
}

impl Lined for AgentRow {
    ghost saved = { Agent };

    fn push(&self, text: &mut Vec<u8>) -> Result<(), AllocError> {
        push_agent_row(text, self)
    }
}

impl Lined for FrameworkRow {
    ghost saved = { Framework };

    fn push(&self, text: &mut Vec<u8>) -> Result<(), AllocError> {
        push_framework_row(text, self)
    }
}

impl Lined for WeightRow {
    ghost saved = { Weight };

    fn push(&self, text: &mut Vec<u8>) -> Result<(), AllocError> {
        push_weight_row(text, self)
    }
}

impl Lined for LimitRow {
    ghost saved = { Limit };

    fn push(&self, text: &mut Vec<u8>) -> Result<(), AllocError> {
        push_limit_row(text, self)
    }
}

impl Lined for OfferRow {
    ghost saved = { Offer };

    fn push(&self, text: &mut Vec<u8>) -> Result<(), AllocError> {
        push_offer_row(text, self)
    }
}

impl Lined for TaskRow {
    ghost saved = { Task };

    fn push(&self, text: &mut Vec<u8>) -> Result<(), AllocError> {
        push_task_row(text, self)
    }
}

impl Lined for FilterRow {
    ghost saved = { Filter };

    fn push(&self, text: &mut Vec<u8>) -> Result<(), AllocError> {
        push_filter_row(text, self)
    }
}
