// The preflight, one function for each reading.
ghost use Rattle.wire.specs.declared.Reading.TheVariants.{V9Fixed, IpfixFixed, IpfixVariable};
ghost use Rattle.export_framing.specs.Framing.{Preflights};

use wire::Reading;

// The preflight of a NetFlow v9 body: 0 with the cost written, or 9, 12 or 7 with the words as they were.
#[unsafe(no_mangle)]
pub extern "C" fn netflow_preflight_v9_fixed(
    body: &[u8],
    widths: &[u16],
    max_records: usize,
    cost: &mut [u64; 3],
) -> u32
    ensures { Preflights body.now widths.now V9Fixed max_records result
        cost.old cost.new }
{
    export_framing::preflight(body, widths, Reading::V9Fixed, max_records, cost)
}

// The same of an IPFIX body without variable-length fields.
#[unsafe(no_mangle)]
pub extern "C" fn netflow_preflight_ipfix_fixed(
    body: &[u8],
    widths: &[u16],
    max_records: usize,
    cost: &mut [u64; 3],
) -> u32
    ensures { Preflights body.now widths.now IpfixFixed max_records result
        cost.old cost.new }
{
    export_framing::preflight(body, widths, Reading::IpfixFixed, max_records, cost)
}

// The same of an IPFIX body in which fields of width 65,535 say their length themselves.
#[unsafe(no_mangle)]
pub extern "C" fn netflow_preflight_ipfix_variable(
    body: &[u8],
    widths: &[u16],
    max_records: usize,
    cost: &mut [u64; 3],
) -> u32
    ensures { Preflights body.now widths.now IpfixVariable max_records result
        cost.old cost.new }
{
    export_framing::preflight(body, widths, Reading::IpfixVariable, max_records, cost)
}
