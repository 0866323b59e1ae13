//! The table of the clients.
ghost use Rattle.std.specs.Prelude.{◌≡◌, ◌++◌, map, IfOk, IsTrue, OnOk};
ghost use Rattle.std.specs.List.{Contains, flat_map};
ghost use Rattle.serde_json.specs.View.{view};
ghost use Rattle.drf_role.specs.Path.{client_path};
ghost use Rattle.drf_role.specs.Text.{Text};
ghost use Rattle.drf_rows.specs.Client.{path_of};
ghost use Rattle.drf_rows.specs.Held.{client_of};
ghost use Rattle.drf_rows.specs.declared.rows.FrameworkRow.{FrameworkRow};
ghost use Rattle.drf_sorter.specs.Content.{IsSame, IsSound, has_node};
ghost use Rattle.drf_content.specs.Content.{content_of};
ghost use Rattle.drf_show.specs.Consuming.{IsFit};
ghost use Rattle.drf_show.specs.Had.{AreSmall, KnowsClients, client_line_by, lines_by, parts_in, weighted_in};
ghost use Rattle.drf_show.specs.Shown.{client_lines};
ghost use Rattle.drf_show.specs.ShownText.{client_value};

use crate::cells::Row;
use crate::had::Had;
use crate::json::push_value;
use crate::shown::Shown;
use drf_bundle::Quantities;
use drf_hash::HashKey;
use drf_lines::write_fraction;
use drf_role::{ClientPath, Name, Role};
use drf_rows::{ClientRow, FrameworkRow, Rows};
use drf_sorter::Sorter;
use drf_text::write_quantities;
use serde_json::{Value, json};
use std::alloc::{AllocError, Global};

/// A client, with the number of offers made to it, its weighted share, the scalars that are offered to it, and those that its tasks use.
#[derive(Drop)]
pub(crate) struct ClientLine {
    pub(crate) framework: Name,
    pub(crate) role: Role,
    pub(crate) suppressed: bool,
    pub(crate) count: u64,
    /// Numerator and denominator, in lowest terms.
    pub(crate) weighted: (u128, u128),
    pub(crate) offered: Quantities,
    pub(crate) used: Quantities,
}

/// Returns the weighted share of a client in lowest terms, or 0/1 if the sorter does not have it.
fn weighted_share<S: Sorter>(
    alloc: Global,
    sorter: &S,
    framework: &Name,
    role: &Role,
) -> Result<(u128, u128), AllocError>
    requires sound { IsSound (S.content sorter.now) }
    requires known { IsTrue (has_node (S.content sorter.now) (client_path role.now framework.now)) }
    ensures { IfOk result (λ share. share ≡ weighted_in (S.content sorter.now) (client_path role.now framework.now)) }
{
    let path = ClientPath::new(alloc, role, framework)?;
    let node = path.node(path.len())?;
    match sorter.share(&node) {
        Some((_share, weighted, _count)) => Ok(weighted.lowest()),
        None => Ok((0, 1)),
    }
}

/// Returns the line of a client.
fn client_line<S: Sorter>(
    alloc: Global,
    sorter: &S,
    offered: &Had,
    used: &Had,
    framework: &FrameworkRow,
    client: &ClientRow,
) -> Result<ClientLine, AllocError>
    requires sound { IsSound (S.content sorter.now) }
    requires known { IsTrue (has_node (S.content sorter.now) (path_of (client_of framework.now client.now))) }
    requires offered { AreSmall (parts_in offered.now framework.now.name) }
    requires used { AreSmall (parts_in used.now framework.now.name) }
    ensures { IfOk result (λ line. line
        ≡ client_line_by (weighted_in (S.content sorter.now)) (parts_in offered.now) (parts_in used.now) framework.now client.now) }
{
    let name = &framework.name;
    Ok(ClientLine {
        framework: name.copy()?,
        role: client.role.copy()?,
        suppressed: client.suppressed,
        count: client.count,
        weighted: weighted_share(alloc, sorter, name, &client.role)?,
        offered: offered.sum_for(alloc, name, &client.role)?,
        used: used.sum_for(alloc, name, &client.role)?,
    })
}

/// Appends the lines of a framework's clients.
fn push_clients<S: Sorter>(
    alloc: Global,
    sorter: &S,
    offered: &Had,
    used: &Had,
    framework: &FrameworkRow,
    lines: &mut Vec<ClientLine>,
) -> Result<(), AllocError>
    requires sound { IsSound (S.content sorter.now) }
    requires known { KnowsClients (S.content sorter.now) framework.now }
    requires offered { AreSmall (parts_in offered.now framework.now.name) }
    requires used { AreSmall (parts_in used.now framework.now.name) }
    ensures { OnOk result (lines.new.items ≡ lines.old.items
        ++ map (client_line_by (weighted_in (S.content sorter.now)) (parts_in offered.now) (parts_in used.now) framework.now) framework.now.clients) }
{
    let clients = framework.clients.as_slice();
    for client in clients {
        lines.push(client_line(alloc, sorter, offered, used, framework, client)?)?;
    }
    Ok(())
}

/// Returns the lines of the clients of all frameworks.
fn lines_of<S: Sorter>(
    alloc: Global,
    sorter: &S,
    offered: &Had,
    used: &Had,
    frameworks: &[FrameworkRow],
) -> Result<Vec<ClientLine>, AllocError>
    requires sound { IsSound (S.content sorter.now) }
    requires known { (f : FrameworkRow) → Contains frameworks.now f → KnowsClients (S.content sorter.now) f }
    requires offered { (name : Text) → AreSmall (parts_in offered.now name) }
    requires used { (name : Text) → AreSmall (parts_in used.now name) }
    ensures { IfOk result (λ lines. lines.items
        ≡ flat_map (lines_by (weighted_in (S.content sorter.now)) (parts_in offered.now) (parts_in used.now)) frameworks.now) }
{
    let mut lines = Vec::new(alloc);
    for framework in frameworks {
        push_clients(alloc, sorter, offered, used, framework, &mut lines)?;
    }
    Ok(lines)
}

/// Returns a line for each client, in order of frameworks. Frameworks are found by hashes that begin with `key`.
pub(crate) fn client_lines<S: Sorter>(
    alloc: Global,
    key: HashKey,
    sorter: &S,
    rows: &Rows,
) -> Result<Vec<ClientLine>, AllocError>
    requires fit { IsFit rows.now }
    requires content { IsSame (S.content sorter.now) (content_of rows.now) }
    ensures { IfOk result (λ lines. lines.items ≡ client_lines rows.now) }
{
    let offered = Had::offers_by_framework(alloc, key, rows.offers.as_slice())?;
    let used = Had::of_tasks(alloc, key, rows.tasks.as_slice())?;
    lines_of(alloc, sorter, &offered, &used, rows.frameworks.as_slice())
}

fn client_value(alloc: Global, line: &ClientLine) -> Result<Value, AllocError>
    ensures { IfOk result (λ value. view value ≡ client_value line.now) }
{
    let count = line.count;
    let framework = line.framework.text();
    let offered = write_quantities(alloc, &line.offered)?;
    let role = line.role.text();
    let suppressed = line.suppressed;
    let used = write_quantities(alloc, &line.used)?;
    let weighted = write_fraction(alloc, line.weighted)?;
    json!(in alloc; {"count": count, "framework": framework, "offered": (offered.as_str()), "role": role, "row": "client", "suppressed": suppressed, "used": (used.as_str()), "weighted": (weighted.as_str())})
}

impl Shown for ClientLine {
    ghost use Rattle.drf_show.specs.ShownText.{client_heads, client_shown};

    ghost heads = { client_heads };

    ghost shown = { client_shown };

    fn heads(alloc: Global) -> Result<Row, AllocError> {
        let mut row = Row::new(alloc);
        row.put("FRAMEWORK")?;
        row.put("ROLE")?;
        row.put("SUPPRESSED")?;
        row.put("COUNT")?;
        row.put("WEIGHTED")?;
        row.put("OFFERED")?;
        row.put("USED")?;
        Ok(row)
    }

    fn row(&self, alloc: Global) -> Result<Row, AllocError> {
        let mut row = Row::new(alloc);
        row.put_name(&self.framework)?;
        row.put_role(&self.role)?;
        row.put_flag(self.suppressed)?;
        row.put_number(self.count)?;
        row.put_fraction(self.weighted)?;
        row.put_quantities(&self.offered)?;
        row.put_quantities(&self.used)?;
        Ok(row)
    }

    fn push_line(&self, alloc: Global, text: &mut Vec<u8>) -> Result<(), AllocError> {
        let value = client_value(alloc, self)?;
        push_value(alloc, &value, text)
    }
}
