//! The table of the weights of roles.
use crate::cells::Row;
use crate::shown::Shown;
use drf_lines::push_weight_row;
use drf_rows::WeightRow;
use std::alloc::{AllocError, Global};

impl Shown for WeightRow {
    ghost use Rattle.drf_show.specs.ShownText.{weight_heads, weight_shown};

    ghost heads = { weight_heads };

    ghost shown = { weight_shown };

    fn heads(alloc: Global) -> Result<Row, AllocError> {
        let mut row = Row::new(alloc);
        row.put("ROLE")?;
        row.put("WEIGHT")?;
        Ok(row)
    }

    fn row(&self, alloc: Global) -> Result<Row, AllocError> {
        let mut row = Row::new(alloc);
        row.put_role(&self.role)?;
        row.put_weight(self.weight)?;
        Ok(row)
    }

    fn push_line(&self, _alloc: Global, text: &mut Vec<u8>) -> Result<(), AllocError> {
        push_weight_row(text, self)
    }
}
