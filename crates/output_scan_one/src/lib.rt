// The scan of a body whose template has one variable-length field (output_budget.rs).
#![tactic(auto)]

ghost use Rattle.std.specs.Prelude.{◌≡◌};
ghost use Rattle.output_fields.specs.declared.Layout.TheVariants.{One};
ghost use Rattle.output_fields.specs.Layout.{layout_of};
ghost use Rattle.output_scan.specs.Scan.{variable_scan_of};

use output_fields::{VariableFraming, first_byte, long_length};
use output_scan::Scanned;

// The whole records of a body whose template has one variable-length field, behind `lead` bytes. A record has the least
// size and the field's content, and two bytes more behind a long prefix.
#[tactic(auto, using(output_scan::proofs::Layouts::lead_below))]
pub fn scan_one_variable(body: &[u8], framing: VariableFraming, lead: usize) -> Scanned
    requires { layout_of framing.widths.now ≡ One lead }
    ensures { result ≡ variable_scan_of body.now framing.entry }
{
    let VariableFraming {
        least,
        max_records,
        ..
    } = framing;
    let mut rest = body;
    let mut records: usize = 0;
    let mut long: usize = 0;
    // no `for`: the count is a result too, and would stand beside the loop's own
    while records < max_records {
        if rest.len() < least {
            break;
        }
        let field = &rest[lead..];
        let mut content = first_byte(field);
        let mut step = least;
        if content == 255 {
            if rest.len() - least < 2 {
                break;
            }
            step = least + 2;
            content = long_length(field);
        }
        if rest.len() - step < content {
            break;
        }
        let next = &rest[step..];
        rest = &next[content..];
        records += 1;
        long += step - least;
    }
    Scanned {
        records,
        payload: body.len() - rest.len() - records - long,
        remainder: rest.len(),
    }
}
