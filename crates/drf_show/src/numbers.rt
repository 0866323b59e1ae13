//! The table of the clock, the number of events and the next offer number.
ghost use Rattle.std.specs.Prelude.{◌≡◌, ◌∷◌, ◌++◌, [], decimal, IfOk, OnOk};

use crate::cells::Row;
use crate::shown::Shown;
use drf_lines::push_head;
use drf_saved::Head;
use std::alloc::{AllocError, Global};

impl Shown for Head {
    ghost use Rattle.drf_show.specs.ShownText.{head_heads, head_shown};

    ghost heads = { head_heads };

    ghost shown = { head_shown };

    fn heads(alloc: Global) -> Result<Row, AllocError> {
        let mut row = Row::new(alloc);
        row.put("CLOCK")?;
        row.put("EVENTS")?;
        row.put("NEXT OFFER")?;
        Ok(row)
    }

    fn row(&self, alloc: Global) -> Result<Row, AllocError> {
        let mut row = Row::new(alloc);
        row.put_number(self.clock)?;
        row.put_number(self.events)?;
        row.put_number(self.next_offer)?;
        Ok(row)
    }

    fn push_line(&self, _alloc: Global, text: &mut Vec<u8>) -> Result<(), AllocError> {
        push_head(text, self)
    }
}
