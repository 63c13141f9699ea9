// The whole records at the front of a body (output_budget.rs): what a scan tells, and the scan of records of one size.
#![tactic(auto)]

ghost use Rattle.std.specs.Prelude.{◌≡◌, ◌<◌};
ghost use Rattle.output_scan.specs.Scan.{fixed_scan_of};

// A scan's figures: whole records, their payload without prefixes, and the bytes after the last of them.
#[derive(Clone, Copy, Debug, PartialEq, Eq)]
pub struct Scanned {
    pub records: usize,
    pub payload: usize,
    pub remainder: usize,
}

// The whole records of a body of `body_len` bytes where every record has one size: by a division.
pub fn scan_fixed_body(body_len: usize, record_size: usize, max_records: usize) -> Scanned
    requires { 0 < record_size }
    ensures { result ≡ fixed_scan_of body_len record_size max_records }
{
    let records = (body_len / record_size).min(max_records);
    let consumed = records * record_size;
    Scanned {
        records,
        payload: consumed,
        remainder: body_len - consumed,
    }
}
