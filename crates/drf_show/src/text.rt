//! The text that shows an allocator.
ghost use Rattle.std.specs.Prelude.{◌≡◌, ◌≤◌, ◌++◌, ◌∷◌, [], length, map, IfOk, OnOk};
ghost use Rattle.drf_rows.specs.Consistent.{IsConsistent};
ghost use Rattle.drf_rows.specs.Report.{report_of};
ghost use Rattle.drf_rows.specs.Step.{live_rows};
ghost use Rattle.drf_saved_laws.specs.SavedLaws.{IsSaveable};
ghost use Rattle.drf_content.specs.Content.{content_of};
ghost use Rattle.drf_sorter.specs.Content.{IsSame};
ghost use Rattle.drf_show.specs.Consuming.{IsFit};
ghost use Rattle.drf_show.specs.ShownText.{agent_table, behind, client_table, count_table, filter_table, head_table, limit_table, node_table, rows_text, shown, table_in};

use crate::agents::agent_lines;
use crate::clients::client_lines;
use crate::consumption::limit_lines;
use crate::filters::filter_lines;
use crate::form::Form;
use crate::shown::{Shown, push_shown};
use crate::tables::table_lines;
use drf_core::Core;
use drf_hash::HashKey;
use drf_rows::{Limits, Report, Rows};
use drf_saved::Head;
use drf_sorter::Sorter;
use std::alloc::{AllocError, Global};
use std::thread::Threads;

/// Appends a table; an aligned one comes after an empty line.
fn push_table<T: Shown>(
    alloc: Global,
    form: Form,
    items: &[T],
    text: &mut Vec<u8>,
) -> Result<(), AllocError>
    ensures { OnOk result (text.new.items ≡ text.old.items ++ behind form (record { heads = T.heads; rows = map T.shown items.now })) }
{
    if form == Form::Aligned {
        text.push(b'\n')?;
    }
    push_shown(alloc, form, items, text)
}

/// Appends the table of the clock, the events and the next offer number.
fn push_head(alloc: Global, form: Form, rows: &Rows, text: &mut Vec<u8>) -> Result<(), AllocError>
    ensures { OnOk result (text.new.items ≡ text.old.items ++ table_in form (head_table rows.now)) }
{
    let head = Head {
        clock: rows.clock,
        next_offer: rows.next_offer,
        events: rows.events,
    };
    push_shown(alloc, form, &[head], text)
}

/// Appends the table of the agents.
fn push_agents(
    rt: &(impl Threads + Sync),
    alloc: Global,
    key: HashKey,
    form: Form,
    rows: &Rows,
    text: &mut Vec<u8>,
) -> Result<(), AllocError>
    ensures { OnOk result (text.new.items ≡ text.old.items ++ behind form (agent_table rows.now)) }
{
    let lines = agent_lines(rt, alloc, key, rows)?;
    push_table(alloc, form, &lines, text)
}

/// Appends the table of the clients.
fn push_clients<S: Sorter>(
    alloc: Global,
    key: HashKey,
    form: Form,
    sorter: &S,
    rows: &Rows,
    text: &mut Vec<u8>,
) -> Result<(), AllocError>
    requires fit { IsFit rows.now }
    requires content { IsSame (S.content sorter.now) (content_of rows.now) }
    ensures { OnOk result (text.new.items ≡ text.old.items ++ behind form (client_table rows.now)) }
{
    let lines = client_lines(alloc, key, sorter, rows)?;
    push_table(alloc, form, &lines, text)
}

/// Appends the table of the limits.
fn push_limits(
    alloc: Global,
    key: HashKey,
    form: Form,
    rows: &Rows,
    text: &mut Vec<u8>,
) -> Result<(), AllocError>
    requires { IsFit rows.now }
    ensures { OnOk result (text.new.items ≡ text.old.items ++ behind form (limit_table rows.now)) }
{
    let lines = limit_lines(alloc, key, rows)?;
    push_table(alloc, form, &lines, text)
}

/// Appends the table of the filters.
fn push_filters(
    alloc: Global,
    form: Form,
    rows: &Rows,
    text: &mut Vec<u8>,
) -> Result<(), AllocError>
    ensures { OnOk result (text.new.items ≡ text.old.items ++ behind form (filter_table rows.now)) }
{
    let lines = filter_lines(alloc, rows.clock, rows.filters.as_slice())?;
    push_table(alloc, form, &lines, text)
}

/// Appends the table that says how full the tables are.
fn push_counts(
    alloc: Global,
    form: Form,
    rows: &Rows,
    report: &Report,
    limits: &Limits,
    text: &mut Vec<u8>,
) -> Result<(), AllocError>
    requires fit { IsFit rows.now }
    requires report { report.now ≡ report_of rows.now }
    ensures { OnOk result (text.new.items ≡ text.old.items ++ behind form (count_table limits.now rows.now)) }
{
    let scalar_names = report.total.entries().len() as u64;
    let lines = table_lines(alloc, limits, rows, scalar_names)?;
    push_table(alloc, form, &lines, text)
}

/// Appends all tables.
fn push_tables<S: Sorter>(
    rt: &(impl Threads + Sync),
    alloc: Global,
    key: HashKey,
    form: Form,
    sorter: &S,
    rows: &Rows,
    report: &Report,
    limits: &Limits,
    text: &mut Vec<u8>,
) -> Result<(), AllocError>
    requires fit { IsFit rows.now }
    requires content { IsSame (S.content sorter.now) (content_of rows.now) }
    requires report { report.now ≡ report_of rows.now }
    ensures { OnOk result (text.new.items ≡ text.old.items ++ rows_text form limits.now rows.now) }
{
    push_head(alloc, form, rows, text)?;
    push_agents(rt, alloc, key, form, rows, text)?;
    push_clients(alloc, key, form, sorter, rows, text)?;
    push_table(alloc, form, report.nodes.as_slice(), text)?;
    push_table(alloc, form, rows.weights.as_slice(), text)?;
    push_limits(alloc, key, form, rows, text)?;
    push_table(alloc, form, rows.offers.as_slice(), text)?;
    push_table(alloc, form, rows.tasks.as_slice(), text)?;
    push_filters(alloc, form, rows, text)?;
    push_counts(alloc, form, rows, report, limits, text)
}

/// Returns the text that shows the current state of an allocator with these capacities: its numbers, agents, clients, the nodes of its report,
/// weights, limits, offers, tasks and filters, and how full its tables are. Returns an error if memory runs out.
pub fn show<S: Sorter>(
    rt: &(impl Threads + Sync),
    alloc: Global,
    core: &Core<S>,
    limits: &Limits,
    form: Form,
) -> Result<Vec<u8>, AllocError>
    requires limits { core.now.limits ≡ limits.now }
    ensures { IfOk result (λ text. text.items ≡ shown form limits.now core.now.rows) }
{
    // The contract of this call says that the capacities have an upper bound, so the number of rows has one too.
    let _ = limits.agents();
    let rows = core.rows()?;
    let report = core.report()?;
    let mut text = Vec::new(alloc);
    let sorter = core.sorter();
    let key = core.key();
    push_tables(
        rt, alloc, key, form, sorter, &rows, &report, limits, &mut text,
    )?;
    Ok(text)
}
