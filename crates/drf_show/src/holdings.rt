//! The tables of offers and tasks.
use crate::cells::Row;
use crate::shown::Shown;
use drf_lines::{push_offer_row, push_task_row};
use drf_rows::{OfferRow, TaskRow};
use std::alloc::{AllocError, Global};

impl Shown for OfferRow {
    ghost use Rattle.drf_show.specs.ShownText.{offer_heads, offer_shown};

    ghost heads = { offer_heads };

    ghost shown = { offer_shown };

    fn heads(alloc: Global) -> Result<Row, AllocError> {
        let mut row = Row::new(alloc);
        row.put("OFFER")?;
        row.put("FRAMEWORK")?;
        row.put("ROLE")?;
        row.put("AGENT")?;
        row.put("RESOURCES")?;
        Ok(row)
    }

    fn row(&self, alloc: Global) -> Result<Row, AllocError> {
        let mut row = Row::new(alloc);
        row.put_number(self.number)?;
        row.put_name(&self.framework)?;
        row.put_role(&self.role)?;
        row.put_name(&self.agent)?;
        row.put_bundle(&self.bundle)?;
        Ok(row)
    }

    fn push_line(&self, _alloc: Global, text: &mut Vec<u8>) -> Result<(), AllocError> {
        push_offer_row(text, self)
    }
}

impl Shown for TaskRow {
    ghost use Rattle.drf_show.specs.ShownText.{task_heads, task_shown};

    ghost heads = { task_heads };

    ghost shown = { task_shown };

    fn heads(alloc: Global) -> Result<Row, AllocError> {
        let mut row = Row::new(alloc);
        row.put("TASK")?;
        row.put("FRAMEWORK")?;
        row.put("ROLE")?;
        row.put("AGENT")?;
        row.put("USE")?;
        Ok(row)
    }

    fn row(&self, alloc: Global) -> Result<Row, AllocError> {
        let mut row = Row::new(alloc);
        row.put_name(&self.name)?;
        row.put_name(&self.framework)?;
        row.put_role(&self.role)?;
        row.put_name(&self.agent)?;
        row.put_bundle(&self.bundle)?;
        Ok(row)
    }

    fn push_line(&self, _alloc: Global, text: &mut Vec<u8>) -> Result<(), AllocError> {
        push_task_row(text, self)
    }
}
