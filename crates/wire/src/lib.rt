// Sizes and padding of NetFlow v9 and IPFIX data records (wire.rs).
#![tactic(auto)]

ghost use Rattle.std.specs.Prelude.{◌≡◌, ◌≤◌, length};
ghost use Rattle.wire.specs.Size.{least_field_size, least_size};
ghost use Rattle.wire.specs.Padding.{short_padding, v9_padding, is_complete};

// How the widths of a template are read.
#[derive(Clone, Copy, Debug, PartialEq, Eq)]
pub enum Reading {
    // NetFlow v9: every width is plain, 65,535 too.
    V9Fixed,
    // IPFIX with plain widths only, 65,535 too.
    IpfixFixed,
    // IPFIX: a field of width 65,535 says its length itself.
    IpfixVariable,
}

// The fewest bytes that a field of this width takes: its width, or the one-byte prefix of a variable-length field.
fn minimum_field_size(width: u16, reading: Reading) -> usize
    ensures { result ≡ least_field_size width reading }
{
    match reading {
        Reading::IpfixVariable if width == 65535 => 1,
        _ => width as usize,
    }
}

// The fewest bytes that a record with these widths takes.
pub fn minimum_record_size(widths: &[u16], reading: Reading) -> usize
    requires { length widths.now ≤ 65535 }
    ensures { result ≡ least_size widths.now reading }
{
    widths
        .iter()
        .map(|width| minimum_field_size(*width, reading))
        .sum()
}

// Padding is shorter than a record.
fn is_short_padding(padding_len: usize, minimum_record_size: usize) -> bool
    ensures { result ≡ short_padding padding_len minimum_record_size }
{
    padding_len < minimum_record_size
}

// NetFlow v9 pads to a multiple of four, so by at most three bytes.
fn is_v9_padding(padding_len: usize, minimum_record_size: usize) -> bool
    ensures { result ≡ v9_padding padding_len minimum_record_size }
{
    padding_len <= 3 && is_short_padding(padding_len, minimum_record_size)
}

// At least one whole record, and after the last of them nothing but padding.
#[tactic(auto, unfolding(crate::specs::Padding::is_complete))]
pub fn record_body_is_complete(
    records: usize,
    remainder_len: usize,
    minimum_record_size: usize,
    reading: Reading,
) -> bool
    ensures { result ≡ is_complete records remainder_len minimum_record_size reading }
{
    if records == 0 {
        return false;
    }
    match reading {
        Reading::V9Fixed => is_v9_padding(remainder_len, minimum_record_size),
        Reading::IpfixFixed | Reading::IpfixVariable => {
            is_short_padding(remainder_len, minimum_record_size)
        }
    }
}
