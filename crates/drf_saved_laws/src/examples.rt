//! A state, and rows that may not occur in it, computed from the definitions.
#![tactic(auto, unfolding(drf_rows::specs::Cycle::free_of, drf_saved::specs::Saved::head_fault, drf_saved::specs::Saved::row_fault))]

ghost use Rattle.std.specs.Prelude.{◌≡◌, Some, None};
ghost use Rattle.std.specs.List.{AllByRecursion};
ghost use Rattle.drf_rows.specs.LimitNumbers.{ceilings};
ghost use Rattle.drf_saved.specs.Saved.{head_fault, restored, row_fault, saved_rows};
ghost use Rattle.drf_saved_laws.specs.examples.StateExamples.{faulty_heads, faulty_rows, first_rows, one_too_many, other_rows, state, state_head, state_rows, PortsAreRestored};

use drf_rows::Refusal;
use drf_saved::RowFault;

/// Proves that a state restores exactly the rows in its list, with any ports in it.
pub fn state_example()
    ensures restored { restored ceilings state_head state ≡ Some state_rows }
    ensures ports { PortsAreRestored }
    ensures listed { saved_rows state_rows ≡ state }
{}

/// Proves which error is reported for some rows after others, and for some heads, and that other rows have none.
pub fn faults_example()
    ensures rows { AllByRecursion (λ f. row_fault ceilings (first_rows f.0) f.1 ≡ Some f.2) faulty_rows }
    ensures too_many { AllByRecursion (λ f. row_fault f.0 (first_rows f.1) f.2 ≡ Some (RowFault.Refused Refusal.TooMany)) one_too_many }
    ensures others { AllByRecursion (λ f. row_fault ceilings (first_rows f.0) f.1 ≡ None) other_rows }
    ensures heads { AllByRecursion (λ f. head_fault ceilings f.0 ≡ Some f.1) faulty_heads }
{}
