//! Examples of what texts mean, computed from the definition, and theorems which say that reading what was written
//! gives the same value back. The functions do nothing; their contracts are the statements.
ghost use Rattle.std.specs.Prelude.{◌≡◌, [], ◌∷◌, Ok, Err, codes};
ghost use Rattle.drf_bundle.specs.declared.value.Value.TheVariants.{Scalar};
ghost use Rattle.drf_text.specs.Meaning.{meaning_of, quantities_meant};
ghost use Rattle.drf_text.specs.RoundTrip.{BundleIsRead, QuantitiesAreRead, WeightIsRead};
ghost use Rattle.drf_text.specs.declared.fault.TextFault.TheVariants.{Syntax, BadName, BadRole, BadNumber, Kind, TooLarge};

/// Proves examples of texts of bundles: pieces are combined, and the first error of the first piece that has one is the
/// result.
pub fn bundle_text_example()
    ensures nothing { meaning_of (codes " ; ;") ≡ Ok [] }
    ensures rounded { meaning_of (codes "cpus:0.0005") ≡ Ok (record { label = codes "cpus"; role = codes "*" ∷ []; value = Scalar 1 } ∷ []) }
    ensures added { meaning_of (codes "cpus : 1.50 ; cpus(*):2") ≡ Ok (record { label = codes "cpus"; role = codes "*" ∷ []; value = Scalar 3500 } ∷ []) }
    ensures no_colon { meaning_of (codes "cpus") ≡ Err Syntax }
    ensures open_role { meaning_of (codes "cpus(eng:1") ≡ Err Syntax }
    ensures open_range { meaning_of (codes "ports:[1-5") ≡ Err Syntax }
    ensures no_dash { meaning_of (codes "ports:[80]") ≡ Err Syntax }
    ensures no_name { meaning_of (codes ":1") ≡ Err BadName }
    ensures no_role { meaning_of (codes "cpus():1") ≡ Err BadRole }
    ensures exponent { meaning_of (codes "cpus:1e3") ≡ Err BadNumber }
    ensures backwards { meaning_of (codes "ports:[5-1]") ≡ Err BadNumber }
    ensures too_large { meaning_of (codes "cpus:18446744073709551.616") ≡ Err TooLarge }
    ensures too_large_together { meaning_of (codes "cpus:1;cpus(eng):18446744073709551.615") ≡ Err TooLarge }
    ensures skipped { meaning_of (codes "cpus:0.0004;cpus(eng):0.0004") ≡ Ok [] }
{}

/// Proves examples of texts of quantities: amounts of 0 are kept, and reservations are errors.
pub fn quantities_text_example()
    ensures zero { quantities_meant (codes "mem:0;cpus:1;cpus:2") ≡ Ok (record { label = codes "cpus"; amount = 3000 } ∷ record { label = codes "mem"; amount = 0 } ∷ []) }
    ensures reserved { quantities_meant (codes "cpus(*):1") ≡ Err BadRole }
    ensures ranges { quantities_meant (codes "ports:[]") ≡ Err Kind }
{}

/// Proves that reading the text that is written for a bundle gives this bundle.
pub fn bundle_round_trip_law()
    ensures { BundleIsRead }
{}

/// Proves that reading the text that is written for quantities gives these quantities.
pub fn quantities_round_trip_law()
    ensures { QuantitiesAreRead }
{}

/// Proves that reading the text that is written for a weight gives this weight.
pub fn weight_round_trip_law()
    ensures { WeightIsRead }
{}
