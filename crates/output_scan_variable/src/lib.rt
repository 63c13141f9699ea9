// The scan of a body in the variable reading, by the template's layout (output_budget.rs).
#![tactic(auto)]

ghost use Rattle.std.specs.Prelude.{◌≡◌};
ghost use Rattle.output_scan.specs.Scan.{variable_scan_of};

use output_fields::{Layout, VariableFraming, layout_of};
use output_scan::{Scanned, scan_fixed_body};
use output_scan_one::scan_one_variable;
use output_scan_several::scan_fields;

// The whole records of a body in the variable reading.
pub fn scan_variable_body(body: &[u8], framing: VariableFraming) -> Scanned
    ensures { result ≡ variable_scan_of body.now framing.entry }
{
    match layout_of(framing.widths) {
        Layout::Fixed => scan_fixed_body(body.len(), framing.least, framing.max_records),
        Layout::One { lead } => scan_one_variable(body, framing, lead),
        Layout::Several => scan_fields(body, framing),
    }
}
