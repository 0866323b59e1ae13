//! The cells of a row.
ghost use Rattle.std.specs.Prelude.{◌≡◌, ◌∷◌, ◌++◌, [], decimal, map, string_bytes, OnOk};
ghost use Rattle.drf_role.specs.Parts.{text_of};
ghost use Rattle.drf_text.specs.Written.{amount_text};
ghost use Rattle.drf_lines.specs.ReportLine.{fraction_text};
ghost use Rattle.drf_show.specs.ShownText.{bundle_cell, flag_cell, quantities_cell, text_cell};

use drf_bundle::{Bundle, Quantities};
use drf_lines::write_fraction;
use drf_role::{Name, Role};
use drf_text::{write_bundle, write_quantities, write_weight};
use itoa::Buffer;
use std::alloc::{AllocError, Global};
use std::marker::Model;

/// A row of a table: a text for each column.
#[derive(Drop)]
pub(crate) struct Row {
    texts: Vec<String>,
}

impl Model for Row {
    ghost use Rattle.std.specs.Prelude.{map, string_bytes};
    ghost use Rattle.drf_show.specs.Aligned.{Cells};

    ghost Value = { Cells };

    ghost view = { λ row. map string_bytes row.texts.items };
}

impl Row {
    /// Returns a row without cells.
    pub(crate) fn new(alloc: Global) -> Row
        ensures { result ≡ [] }
    {
        Row {
            texts: Vec::new(alloc),
        }
    }

    /// Returns the cells.
    pub(crate) fn texts(&self) -> &[String]
        ensures { map string_bytes result.now ≡ self.now }
    {
        self.texts.as_slice()
    }

    fn alloc(&self) -> Global {
        *self.texts.allocator()
    }

    /// Adds a cell.
    fn push(&mut self, text: String) -> Result<(), AllocError>
        ensures { OnOk result (self.new ≡ self.old ++ string_bytes text ∷ []) }
    {
        self.texts.push(text)?;
        Ok(())
    }

    /// Adds a cell with a text.
    pub(crate) fn put(&mut self, text: &str) -> Result<(), AllocError>
        ensures { OnOk result (self.new ≡ self.old ++ text.now ∷ []) }
    {
        let mut cell = String::with_capacity(self.alloc(), text.len())?;
        cell.push_str(text)?;
        self.push(cell)
    }

    /// Adds a cell with a text, or with `-` if the text is empty.
    fn push_any(&mut self, text: String) -> Result<(), AllocError>
        ensures { OnOk result (self.new ≡ self.old ++ text_cell (string_bytes text) ∷ []) }
    {
        if text.is_empty() {
            return self.put("-");
        }
        self.push(text)
    }

    /// Adds a cell with a number.
    pub(crate) fn put_number(&mut self, number: u64) -> Result<(), AllocError>
        ensures { OnOk result (self.new ≡ self.old ++ decimal number ∷ []) }
    {
        self.put(Buffer::new().format(number))
    }

    /// Adds a cell with `yes` or `no`.
    pub(crate) fn put_flag(&mut self, flag: bool) -> Result<(), AllocError>
        ensures { OnOk result (self.new ≡ self.old ++ flag_cell flag ∷ []) }
    {
        if flag {
            return self.put("yes");
        }
        self.put("no")
    }

    /// Adds a cell with a name.
    pub(crate) fn put_name(&mut self, name: &Name) -> Result<(), AllocError>
        ensures { OnOk result (self.new ≡ self.old ++ name.now ∷ []) }
    {
        self.put(name.text())
    }

    /// Adds a cell with a role.
    pub(crate) fn put_role(&mut self, role: &Role) -> Result<(), AllocError>
        ensures { OnOk result (self.new ≡ self.old ++ text_of role.now ∷ []) }
    {
        self.put(role.text())
    }

    /// Adds a cell with a weight, which is given in thousandths.
    pub(crate) fn put_weight(&mut self, weight: u64) -> Result<(), AllocError>
        ensures { OnOk result (self.new ≡ self.old ++ amount_text weight ∷ []) }
    {
        let text = write_weight(self.alloc(), weight)?;
        self.push(text)
    }

    /// Adds a cell with a fraction.
    pub(crate) fn put_fraction(&mut self, fraction: (u128, u128)) -> Result<(), AllocError>
        ensures { OnOk result (self.new ≡ self.old ++ fraction_text fraction ∷ []) }
    {
        let text = write_fraction(self.alloc(), fraction)?;
        self.push(text)
    }

    /// Adds a cell with a bundle.
    pub(crate) fn put_bundle(&mut self, bundle: &Bundle) -> Result<(), AllocError>
        ensures { OnOk result (self.new ≡ self.old ++ bundle_cell bundle.now ∷ []) }
    {
        let text = write_bundle(self.alloc(), bundle)?;
        self.push_any(text)
    }

    /// Adds a cell with quantities.
    pub(crate) fn put_quantities(&mut self, quantities: &Quantities) -> Result<(), AllocError>
        ensures { OnOk result (self.new ≡ self.old ++ quantities_cell quantities.now ∷ []) }
    {
        let text = write_quantities(self.alloc(), quantities)?;
        self.push_any(text)
    }
}
