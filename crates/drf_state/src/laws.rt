//! A theorem about states. The function does nothing but call other theorems; its contract is the statement.

ghost use Rattle.drf_state.specs.StateLaws.{WhatCanBeSavedIsSaid, WhatIsSaidCanBeSaved, WhatIsSaidIsTheText, WhatIsWrittenIsSaid};

use drf_lines::one_line_law;
use drf_text::{bundle_round_trip_law, quantities_round_trip_law, weight_round_trip_law};

/// Proves that a text which means rows is the text of these rows, and that these rows are valid and can be saved; and
/// that each such state has a text that means it. So this holds for all rows that can be saved, provided that each line
/// is read as the value from which it was written.
pub fn state_law()
    ensures text { WhatIsSaidIsTheText }
    ensures can_be_saved { WhatIsSaidCanBeSaved }
    ensures each { WhatCanBeSavedIsSaid }
    ensures said { WhatIsWrittenIsSaid }
{
    one_line_law();
    bundle_round_trip_law();
    quantities_round_trip_law();
    weight_round_trip_law();
}
