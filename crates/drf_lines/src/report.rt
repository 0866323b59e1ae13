//! Writes a report.
ghost use Rattle.std.specs.Prelude.{◌≡◌, ◌++◌, OnOk};
ghost use Rattle.serde_json.specs.Written.{compact_text};
ghost use Rattle.drf_lines.specs.ReportLine.{report_value};
ghost use Rattle.drf_lines.specs.Written.{KeepsPrefix};

use crate::amounts::put_amounts;
use crate::last_report::LastReport;
use crate::member::{put, put_byte};
use drf_rows::Report;
use std::alloc::AllocError;

/// Appends a report. The text of nodes that are the same as in the last report is copied.
pub fn put_report(
    line: &mut Vec<u8>,
    last: &mut LastReport,
    report: &Report,
) -> Result<(), AllocError>
    ensures ok { OnOk result (line.new.items ≡ line.old.items ++ compact_text (report_value report.now)) }
    ensures prefix { KeepsPrefix line.old.items line.new.items }
{
    put(line, "{\"nodes\":")?;
    last.put_nodes(line, &report.nodes)?;
    put_amounts(line, ",\"total\":\"", &report.total)?;
    put_byte(line, b'}')
}
