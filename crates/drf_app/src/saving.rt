//! Saves the state after the events of a stream of lines.
ghost use Rattle.std.specs.Prelude.{◌≡◌, ◌≤◌, ◌^◌, true, IfOk};
ghost use Rattle.drf_core.specs.Machine.{live};
ghost use Rattle.drf_journal.specs.Device.{IsNew};
ghost use Rattle.drf_journal.specs.Ended.{HasCause, HasFlushed};
ghost use Rattle.drf_app.specs.Saving.{HasSaved, IsTextOf, saved_of};
ghost use Rattle.drf_rows.specs.Step.{live_rows};
ghost use Rattle.drf_saved_laws.specs.SavedLaws.{IsSaveable};

use drf_core::Core;
use drf_journal::{Device, ProgramSorter, RunFault, advance, write_whole};
use drf_rows::Rows;
use drf_state::{begin_epoch, write_state};
use std::alloc::{AllocError, Global};
use std::io::{Read, Write};

/// Returns the rows of an allocator that are saved: the current state, or the rows after an epoch if `epoch` is set.
fn rows_to_save(alloc: Global, core: &Core<ProgramSorter>, epoch: bool) -> Result<Rows, AllocError>
    ensures rows { IfOk result (λ rows. rows ≡ saved_of epoch (live_rows core.now.rows)) }
    ensures saveable { IfOk result (IsSaveable core.now.limits) }
{
    let mut rows = core.rows()?;
    if !epoch {
        return Ok(rows);
    }
    begin_epoch(alloc, &mut rows)?;
    Ok(rows)
}

/// Returns the text of an allocator's state, or of its state after an epoch if `epoch` is set.
fn state_text(alloc: Global, core: &Core<ProgramSorter>, epoch: bool) -> Result<Vec<u8>, AllocError>
    ensures { IfOk result (λ text. IsTextOf core.now.limits (saved_of epoch (live_rows core.now.rows)) text.items) }
{
    let rows = rows_to_save(alloc, core, epoch)?;
    let text = write_state(alloc, &rows)?;
    Ok(text)
}

/// Applies the events of a reader's lines, and then writes the allocator's state, or its state after an epoch if `epoch` is set. Lines that are
/// not events are skipped, so the input can be a journal. Returns an error if a read or a write fails, or if memory runs out.
pub fn save<R: Read, W: Write>(
    alloc: Global,
    core: Core<ProgramSorter>,
    epoch: bool,
    reader: &mut Device<R>,
    writer: &mut Device<W>,
) -> Result<(), RunFault>
    requires reader { IsNew reader.old.calls reader.old.failed }
    requires writer { IsNew writer.old.calls writer.old.failed }
    ensures saved { HasSaved (live core) epoch (R.remaining reader.old.inner) (R.remaining reader.new.inner)
        (W.contents writer.old.inner) (W.contents writer.new.inner) result }
    ensures cause { HasCause result reader.new.failed reader.new.calls writer.new.failed }
    ensures flushed { writer.old.flushed ≡ true → HasFlushed result writer.new.flushed }
    ensures reads { reader.new.calls ≤ 2 ^ 40 }
{
    let core = advance(alloc, core, reader)?;
    let text = state_text(alloc, &core, epoch)?;
    write_whole(writer, &text)
}
