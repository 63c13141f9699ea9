// Where the lengths of a record's fields stand: the layout of a template, and length prefixes (output_budget.rs).
#![tactic(auto)]

ghost use Rattle.std.specs.Prelude.{◌≡◌, ◌+◌, ◌*◌, ◌^◌, ◌≤◌, ◌<◌, length, get_or};
ghost use Rattle.wire.specs.declared.Reading.TheVariants.{IpfixVariable};
ghost use Rattle.wire.specs.Size.{least_size};
ghost use Rattle.output_fields.specs.Layout.{has_variable, layout_of};

// Which fields of a template say their length themselves.
#[derive(Clone, Copy, Debug, PartialEq, Eq)]
pub enum Layout {
    // none
    Fixed,
    // one, behind so many bytes of other fields
    One { lead: usize },
    // more than one
    Several,
}

// What a scan in the variable reading looks for: records with fields of these widths, each of the least size or more,
// and at most so many.
#[derive(Clone, Copy, Debug)]
pub struct VariableFraming<'a> {
    pub widths: &'a [u16],
    pub least: usize,
    pub max_records: usize,
    pub ghost sized: { least ≡ least_size widths.now IpfixVariable },
    pub ghost some: { 0 < least },
}

// Whether a field says its length itself.
fn has_variable(widths: &[u16]) -> bool
    ensures { result ≡ has_variable widths.now }
{
    widths.contains(&65535)
}

// The layout of a template whose least size is a `usize`: what stands before a field then is one too.
#[tactic(auto, using(crate::proofs::Widths::layouts))]
pub fn layout_of(widths: &[u16]) -> Layout
    requires { least_size widths.now IpfixVariable < 2 ^ 64 }
    ensures { result ≡ layout_of widths.now }
{
    let mut lead: usize = 0;
    for (i, &width) in widths.iter().enumerate() {
        if width == 65535 {
            if has_variable(&widths[i + 1..]) {
                return Layout::Several;
            }
            return Layout::One { lead };
        }
        lead += width as usize;
    }
    Layout::Fixed
}

// The first byte of a part.
pub fn first_byte(field: &[u8]) -> usize
    requires { 0 < length field.now }
    ensures { (result ≡ get_or field.now 0 0) × (result ≤ 255) }
{
    field[0] as usize
}

// The length that stands in the two bytes behind the first.
pub fn long_length(field: &[u8]) -> usize
    requires { 2 < length field.now }
    ensures { (result ≡ get_or field.now 1 0 * 256 + get_or field.now 2 0) × (result ≤ 65535) }
{
    u16::from_be_bytes([field[1], field[2]]) as usize
}
