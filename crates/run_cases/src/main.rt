// Runs document 01's cases, marked P or not, on the code, and prints each answer: the number, then the values.
#![tactic(auto)]

use output_preflight::{PendingOutputPreflight, Refusal, preflight};
use wire::Reading;

// Prints the case's name and its answer: 0 with the cost and the remainder, or the refusal's number.
fn show(rt: &impl Print, name: &str, answer: Result<PendingOutputPreflight, Refusal>) {
    let _ = match answer {
        Ok(cost) => {
            let values = cost.field_values.0;
            let payload = cost.field_payload_bytes.0;
            println!(rt; "{name} 0 {values} {payload} {}", cost.remainder_len)
        }
        Err(refusal) => println!(rt; "{name} {}", u32::from(refusal)),
    };
}

// Widths 4, 4.
fn fixed(rt: &impl Print) {
    let body = [0u8; 20];
    let v9 = |part: &[u8], max: usize| preflight(part, &[4, 4], Reading::V9Fixed, max);
    let ipfix = |part: &[u8], max: usize| preflight(part, &[4, 4], Reading::IpfixFixed, max);
    show(rt, "v9, 19 bytes:", v9(&body[..19], 65536));
    show(rt, "v9, 20 bytes:", v9(&body, 65536));
    show(rt, "IPFIX, 20 bytes:", ipfix(&body, 65536));
    show(rt, "v9, 16 bytes, record limit 1:", v9(&body[..16], 1));
    show(
        rt,
        "IPFIX, 16 bytes, record limit 1:",
        ipfix(&body[..16], 1),
    );
}

// IPFIX widths 65,535, 2.
fn variable(rt: &impl Print) {
    let record = [3u8, 0x61, 0x62, 0x63, 0, 0x50];
    let two_zeros = [3u8, 0x61, 0x62, 0x63, 0, 0x50, 0, 0];
    let three_zeros = [3u8, 0x61, 0x62, 0x63, 0, 0x50, 0, 0, 0];
    let cut = [3u8, 0x61, 0x62, 0x63, 0, 0x50, 0xff, 0xff, 0xff];
    let long = [0xffu8, 0, 1, 0x61, 0, 0x50];
    let ipfix = |body: &[u8]| preflight(body, &[65535, 2], Reading::IpfixVariable, 65536);
    show(rt, "03 61 62 63 00 50:", ipfix(&record));
    show(rt, "00 00 after:", ipfix(&two_zeros));
    show(rt, "00 00 00 after:", ipfix(&three_zeros));
    show(rt, "FF FF FF after:", ipfix(&cut));
    show(rt, "FF 00 01 61 00 50:", ipfix(&long));
}

// 9 before 12 before 7, and the largest sizes that are taken.
fn refused(rt: &impl Print) {
    let bytes = [0u8; 65532];
    let widths = [1u16; 65536];
    let v9 = |body: &[u8], max: usize| preflight(body, &[1], Reading::V9Fixed, max);
    let ipfix = |part: &[u16]| preflight(&bytes[..65531], part, Reading::IpfixFixed, 65536);
    show(rt, "record limit 0, 65,532 bytes:", v9(&bytes, 0));
    show(rt, "65,532 bytes:", v9(&bytes, 65536));
    show(rt, "65,531 bytes:", v9(&bytes[..65531], 65536));
    show(rt, "65,536 widths:", ipfix(&widths));
    show(rt, "65,535 widths:", ipfix(&widths[..65535]));
    show(rt, "65,531 widths:", ipfix(&widths[..65531]));
}

// A long prefix that takes the largest body whole, and the same body with one byte less.
fn longest(rt: &impl Print) {
    let mut bytes = [0u8; 65531];
    bytes[..3].copy_from_slice(&[0xff, 0xff, 0xf8]);
    let ipfix = |body: &[u8]| preflight(body, &[65535], Reading::IpfixVariable, 65536);
    show(rt, "FF FF F8 and 65,528 bytes:", ipfix(&bytes));
    show(rt, "one byte less:", ipfix(&bytes[..65530]));
}

fn main(rt: HostRuntime) {
    fixed(&rt);
    variable(&rt);
    refused(&rt);
    longest(&rt);
}
