//! The findings that are grants.
ghost use Rattle.std.specs.Prelude.{◌≡◌, [], ◌∷◌, ◌++◌, if◌then◌else◌, length, IfOk, OnOk};
ghost use Rattle.drf_why.specs.Pick.{is_grant};
ghost use Rattle.drf_why.specs.Places.{AreGrantsIn, findings_of};

use crate::pick::is_grant;
use drf_explain::Finding;
use std::alloc::{AllocError, Global};

/// The grants among some findings.
#[derive(Drop)]
pub(crate) struct Grants<'a> {
    pub(crate) all: Vec<&'a Finding>,
    /// For each finding, how many grants come before it.
    pub(crate) before: Vec<usize>,
}

impl<'a> Grants<'a> {
    /// Adds the next finding. Returns an error if memory runs out.
    fn add(&mut self, finding: &'a Finding) -> Result<(), AllocError>
        ensures all { OnOk result (findings_of self.new.all.items
            ≡ findings_of self.old.all.items ++ (if is_grant finding.now then finding.now ∷ [] else [])) }
        ensures before { OnOk result (self.new.before.items ≡ self.old.before.items ++ length self.old.all.items ∷ []) }
    {
        self.before.push(self.all.len())?;
        if is_grant(finding) {
            self.all.push(finding)?;
        }
        Ok(())
    }

    /// Returns the grants among some findings.
    pub(crate) fn of(alloc: Global, findings: &'a [Finding]) -> Result<Grants<'a>, AllocError>
        ensures { IfOk result (AreGrantsIn findings.now) }
    {
        let mut grants = Grants {
            all: Vec::new(alloc),
            before: Vec::new(alloc),
        };
        for finding in findings {
            grants.add(finding)?;
        }
        Ok(grants)
    }
}
