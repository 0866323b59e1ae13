//! Theorems about the lines of a state, and examples that are computed from the definition. The functions do nothing;
//! their contracts are the statements.
ghost use Rattle.std.specs.Prelude.{◌≡◌, ℕ, List, [], ◌∷◌, true, false, Err, codes};
ghost use Rattle.serde_json.specs.Data.{null, string, object, member, no_members};
ghost use Rattle.drf_bundle.specs.declared.value.Value.TheVariants.{Scalar};
ghost use Rattle.drf_saved.specs.declared.saved.Head.{Head};
ghost use Rattle.drf_saved.specs.declared.saved.SavedRow.{SavedRow};
ghost use Rattle.drf_saved.specs.declared.saved.SavedRow.TheVariants.{Agent, Framework, Weight, Limit, Offer, Task, Filter};
ghost use Rattle.drf_lines.specs.declared.fault.LineFault.TheVariants.{BadShape, BadText};
ghost use Rattle.drf_lines.specs.EventLine.{report_request};
ghost use Rattle.drf_lines.specs.OneLine.{IsOneLine};
ghost use Rattle.drf_lines.specs.StateLine.{row_value, head_line, row_line, end_line};
ghost use Rattle.drf_lines.specs.StateMeaning.{state_line_in};

/// Proves that no line of a state contains a line feed.
pub fn one_line_law()
    ensures head { (head : Head) → IsOneLine (head_line head) }
    ensures row { (row : SavedRow) → IsOneLine (row_line row) }
    ensures end { (rows : ℕ) (digest : List ℕ) → IsOneLine (end_line rows digest) }
{}

/// Proves the lines of a small state.
pub fn state_lines_example()
    ensures head { head_line (record { clock = 2000; next_offer = 5; events = 11 }) ≡ codes "{\"clock\":2000,\"events\":11,\"next_offer\":5,\"row\":\"state\"}" }
    ensures agent { row_line (Agent (record { name = codes "n2"; total = record { label = codes "cpus"; role = codes "*" ∷ []; value = Scalar 2000 } ∷ record { label = codes "cpus"; role = codes "eng" ∷ []; value = Scalar 1000 } ∷ []; active = false })) ≡ codes "{\"active\":false,\"agent\":\"n2\",\"row\":\"agent\",\"total\":\"cpus:2;cpus(eng):1\"}" }
    ensures framework { row_line (Framework (record { name = codes "f1"; clients = record { role = codes "eng" ∷ codes "web" ∷ []; count = 2; suppressed = true } ∷ [] })) ≡ codes "{\"clients\":[{\"count\":2,\"role\":\"eng/web\",\"suppressed\":true}],\"framework\":\"f1\",\"row\":\"framework\"}" }
    ensures no_clients { row_line (Framework (record { name = codes "f3"; clients = [] })) ≡ codes "{\"clients\":[],\"framework\":\"f3\",\"row\":\"framework\"}" }
    ensures weight { row_line (Weight (record { role = codes "eng" ∷ []; weight = 500 })) ≡ codes "{\"role\":\"eng\",\"row\":\"weight\",\"weight\":\"0.5\"}" }
    ensures limit { row_line (Limit (record { role = codes "ops" ∷ []; limit = record { label = codes "cpus"; amount = 0 } ∷ [] })) ≡ codes "{\"limit\":\"cpus:0\",\"role\":\"ops\",\"row\":\"limit\"}" }
    ensures end { end_line 10 (codes "c937") ≡ codes "{\"row\":\"end\",\"rows\":10,\"sha256\":\"c937\"}" }
{}

/// Proves the lines of an offer, a task and a filter.
pub fn held_lines_example()
    ensures offer { row_line (Offer (record { number = 4; agent = codes "n1"; framework = codes "f2"; role = codes "ops" ∷ []; bundle = record { label = codes "cpus"; role = codes "*" ∷ []; value = Scalar 2000 } ∷ [] })) ≡ codes "{\"agent\":\"n1\",\"framework\":\"f2\",\"offer\":4,\"resources\":\"cpus:2\",\"role\":\"ops\",\"row\":\"offer\"}" }
    ensures task { row_line (Task (record { name = codes "t1"; agent = codes "n1"; framework = codes "f1"; role = codes "eng" ∷ []; bundle = record { label = codes "cpus"; role = codes "*" ∷ []; value = Scalar 1000 } ∷ [] })) ≡ codes "{\"agent\":\"n1\",\"framework\":\"f1\",\"role\":\"eng\",\"row\":\"task\",\"task\":\"t1\",\"use\":\"cpus:1\"}" }
    ensures filter { row_line (Filter (record { framework = codes "f1"; role = codes "eng" ∷ []; agent = codes "n1"; bundle = record { label = codes "cpus"; role = codes "*" ∷ []; value = Scalar 3000 } ∷ []; until = 6000 })) ≡ codes "{\"agent\":\"n1\",\"framework\":\"f1\",\"resources\":\"cpus:3\",\"role\":\"eng\",\"row\":\"filter\",\"until\":6000}" }
{}

/// Proves that an event is not a line of a state, and that the shape of a line is checked before its texts.
pub fn no_state_lines_example()
    ensures event { state_line_in report_request ≡ Err BadShape }
    ensures bad_name { state_line_in (row_value (Agent (record { name = codes "n/1"; total = []; active = true }))) ≡ Err BadText }
    ensures shape_first { state_line_in (object (member (codes "active") null (member (codes "agent") (string (codes "n/1")) (member (codes "row") (string (codes "agent")) (member (codes "total") (string []) no_members))))) ≡ Err BadShape }
    ensures one_key_more { state_line_in (object (member (codes "at") (string []) (member (codes "role") (string (codes "eng")) (member (codes "row") (string (codes "weight")) (member (codes "weight") (string (codes "2")) no_members))))) ≡ Err BadShape }
{}
