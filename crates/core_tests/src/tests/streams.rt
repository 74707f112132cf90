//! Numbers as texts have them.
use stream_base::decimal::parse_decimal;

const NUMBERS: &[(&[u8], Option<u64>)] = &[
    (b"0", Some(0)),
    (b"16777216", Some(16_777_216)),
    (b"18446744073709551615", Some(18_446_744_073_709_551_615)),
    (b"18446744073709551616", None),
    (b"", None),
    (b"01", None),
    (b"+1", None),
    (b"1 ", None),
    (b"1\xff", None),
];

#[test]
fn a_number_has_one_spelling(rt: HostRuntime) {
    for (text, number) in NUMBERS {
        assert!(rt; parse_decimal(text) == *number, "{text:?}");
    }
}
