// The scan of a body field by field, for a template with several variable-length fields (output_budget.rs).
#![tactic(auto)]

ghost use Rattle.std.specs.Prelude.{◌≡◌};
ghost use Rattle.output_scan.specs.Scan.{variable_scan_of};

use output_fields::{VariableFraming, first_byte, long_length};
use output_scan::Scanned;

// The whole records of a body, field by field. The least size of a record is passed first: `next` starts behind it, and
// a variable-length field moves it on. A cut field ends the scan before its record: it leaves the loop 'records, and
// not 'fields alone.
pub fn scan_fields(body: &[u8], framing: VariableFraming) -> Scanned
    ensures { result ≡ variable_scan_of body.now framing.entry }
{
    let VariableFraming {
        widths,
        least,
        max_records,
    } = framing;
    let mut rest = body;
    let mut records: usize = 0;
    let mut payload: usize = 0;
    // no `for`: the count is a result too, and would stand beside the loop's own
    'records: while records < max_records {
        if rest.len() < least {
            break 'records;
        }
        let mut next = &rest[least..];
        let mut at: usize = 0;
        let mut prefixes: usize = 0;
        'fields: for &width in widths {
            if width != 65535 {
                at += width as usize;
                continue 'fields;
            }
            let field = &rest[at..];
            let short = first_byte(field);
            if short < 255 {
                if next.len() < short {
                    break 'records;
                }
                next = &next[short..];
                at += 1 + short;
                prefixes += 1;
                continue 'fields;
            }
            if next.len() < 2 {
                break 'records;
            }
            next = &next[2..];
            let long = long_length(field);
            if next.len() < long {
                break 'records;
            }
            next = &next[long..];
            at += 3 + long;
            prefixes += 3;
        }
        rest = next;
        records += 1;
        payload += at - prefixes;
    }
    Scanned {
        records,
        payload,
        remainder: rest.len(),
    }
}
