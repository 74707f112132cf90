//! The values of a configuration: what each text spells, and which text spells nothing.

use config_values::{
    MAX_LABEL_BYTES, MAX_NAME_BYTES, addr_of, is_host_name, is_same_addr, mode_of, rate_of, time_of,
};

const TIMES: &[(&[u8], Option<u64>)] = &[
    (b"500ms", Some(500)),
    (b"1ms", Some(1)),
    (b"5s", Some(5_000)),
    (b"30m", Some(1_800_000)),
    (b"2h", Some(7_200_000)),
    (b"24h", Some(86_400_000)),
    (b"1440m", Some(86_400_000)),
    (b"86400s", Some(86_400_000)),
    (b"86400000ms", Some(86_400_000)),
    (b"25h", None),
    (b"86400001ms", None),
    (b"0s", None),
    (b"05s", None),
    (b"5", None),
    (b"s", None),
    (b"", None),
    (b"5 s", None),
    (b"5S", None),
    (b"30x", None),
    (b"1.5s", None),
    (b"-1s", None),
    (b"1m30s", None),
    (b"5sec", None),
    (b"18446744073709551617s", None),
];

#[test]
fn a_time_is_a_number_and_a_unit(rt: HostRuntime) {
    for (text, want) in TIMES {
        assert!(rt; time_of(text) == *want, "{text:?}");
    }
}

const RATES: &[(&[u8], Option<(u32, u32)>)] = &[
    (b"100/s", Some((100, 1))),
    (b"1/s", Some((1, 1))),
    (b"1000000/s", Some((1_000_000, 1))),
    (b"100/m", Some((100, 60))),
    (b"1000000/m", Some((1_000_000, 60))),
    (b"5/h", Some((5, 3_600))),
    (b"1/h", Some((1, 3_600))),
    (b"1000001/h", None),
    (b"0/m", None),
    (b"1000001/s", None),
    (b"0/s", None),
    (b"100", None),
    (b"100/", None),
    (b"100/d", None),
    (b"100/ms", None),
    (b"100/M", None),
    (b"100/sec", None),
    (b"100/s/s", None),
    (b"/s", None),
    (b"010/s", None),
];

#[test]
fn a_rate_is_a_number_in_a_second_a_minute_or_an_hour(rt: HostRuntime) {
    for (text, want) in RATES {
        let rate = rate_of(text).map(|rate| (rate.count, rate.seconds));
        assert!(rt; rate == *want, "{text:?}");
    }
}

const MODES: &[(&[u8], Option<u16>)] = &[
    (b"0660", Some(0o660)),
    (b"0600", Some(384)),
    (b"0777", Some(0o777)),
    (b"0000", Some(0)),
    (b"0124", Some(0o124)),
    (b"660", None),
    (b"0668", None),
    (b"06600", None),
    (b"1660", None),
    (b"0x66", None),
    (b"", None),
];

#[test]
fn a_mode_has_four_octal_digits(rt: HostRuntime) {
    for (text, want) in MODES {
        assert!(rt; mode_of(text) == *want, "{text:?}");
    }
}

const NAMES: &[(&[u8], bool)] = &[
    (b"app.internal", true),
    (b"localhost", true),
    (b"a", true),
    (b"3com.example", true),
    (b"xn--bcher-kva.example", true),
    (b"App-1.Internal", true),
    (b"10.example", true),
    (b"example.10a", true),
    (b"", false),
    (b".", false),
    (b"app.", false),
    (b".app", false),
    (b"app..internal", false),
    (b"-app", false),
    (b"app-", false),
    (b"app-.internal", false),
    (b"app_1", false),
    (b"10.0.0.300", false),
    (b"1234", false),
    (b"example.10", false),
    (b"b\xc3\xbccher", false),
    (b"app internal", false),
];

#[test]
fn a_name_is_one_of_rfc_1123(rt: HostRuntime) {
    for (text, want) in NAMES {
        assert!(rt; is_host_name(text) == *want, "{text:?}");
    }
}

#[test]
fn labels_and_names_have_their_greatest_sizes(rt: HostRuntime) {
    let label = [b'a'; MAX_LABEL_BYTES + 1];
    assert!(rt; is_host_name(&label[..MAX_LABEL_BYTES]));
    assert!(rt; !is_host_name(&label));
    let mut name = [b'a'; MAX_NAME_BYTES + 1];
    name[63] = b'.';
    name[127] = b'.';
    name[191] = b'.';
    assert!(rt; is_host_name(&name[..MAX_NAME_BYTES]));
    assert!(rt; !is_host_name(&name));
}

// Each text, and that of the address which it spells; "" where it spells none.
const ADDRESSES: &[(&[u8], &[u8])] = &[
    (b"tcp:10.0.0.1:443", b"tcp:10.0.0.1:443"),
    (b"tcp:0.0.0.0:1", b"tcp:0.0.0.0:1"),
    (b"tcp:255.255.255.255:65535", b"tcp:255.255.255.255:65535"),
    (b"tcp:[::1]:443", b"tcp:[::1]:443"),
    (b"tcp:[::]:443", b"tcp:[::]:443"),
    (b"tcp:[2001:DB8:0:0::1]:80", b"tcp:[2001:db8::1]:80"),
    (b"tcp:[fe80::1%2]:443", b"tcp:[fe80::1%2]:443"),
    (
        b"tcp:[fe80::1%4294967295]:443",
        b"tcp:[fe80::1%4294967295]:443",
    ),
    (b"tcp:[::10.0.0.1]:80", b"tcp:[::a00:1]:80"),
    (b"unix:/run/x.sock", b"unix:/run/x.sock"),
    (b"unix:/", b"unix:/"),
    (b"tcp:app.internal:8443", b"tcp:app.internal:8443"),
    (b"tcp:localhost:80", b"tcp:localhost:80"),
    (b"", b""),
    (b"10.0.0.1:443", b""),
    (b"tcp:10.0.0.1", b""),
    (b"tcp:10.0.0.1:0", b""),
    (b"tcp:10.0.0.1:65536", b""),
    (b"tcp:10.0.0.1:080", b""),
    (b"tcp:10.0.0.1:443 ", b""),
    (b"tcp:10.0.0.300:443", b""),
    (b"tcp:010.0.0.1:443", b""),
    (b"tcp::1:443", b""),
    (b"tcp::443", b""),
    (b"tcp:[::1]", b""),
    (b"tcp:[::1]443", b""),
    (b"tcp:[::1]x:443", b""),
    (b"tcp:[::1:443", b""),
    (b"tcp:[10.0.0.1]:443", b""),
    (b"tcp:[fe80::1%eth0]:443", b""),
    (b"tcp:[fe80::1%0]:443", b""),
    (b"tcp:[fe80::1%4294967296]:443", b""),
    (b"tcp:[::ffff:10.0.0.1]:443", b""),
    (b"tcp:[::ffff:a00:1]:443", b""),
    (b"udp:10.0.0.1:443", b""),
    (b"TCP:10.0.0.1:443", b""),
    (b"unix:run/x.sock", b""),
    (b"unix:", b""),
    (b"unix:/run/x y.sock", b""),
    (b"unix:@abstract", b""),
    (b"tcp:app_1:80", b""),
];

#[test]
fn an_address_is_read_and_written(rt: HostRuntime) {
    for (text, want) in ADDRESSES {
        let found = match addr_of(text) {
            Some(addr) => addr.text().as_slice() == *want,
            None => want.is_empty(),
        };
        assert!(rt; found, "{text:?}");
    }
}

const PATH: &[u8] = b"unix:/23456789.123456789.123456789.123456789.123456789.\
    123456789.123456789.123456789.123456789.123456789.12345678";

#[test]
fn a_path_has_at_most_107_bytes(rt: HostRuntime) {
    assert!(rt; PATH.len() > 112);
    assert!(rt; addr_of(&PATH[..112]).is_some());
    assert!(rt; addr_of(&PATH[..113]).is_none());
}

/// Whether both texts spell addresses, and these are one.
fn are_one(one: &[u8], other: &[u8]) -> Option<bool> {
    let one = addr_of(one)?;
    let other = addr_of(other)?;
    Some(is_same_addr(&one, &other))
}

const PAIRS: &[(&[u8], &[u8], bool)] = &[
    (b"tcp:[::1]:80", b"tcp:[0:0::1]:80", true),
    (b"tcp:[::1]:80", b"tcp:[::1]:81", false),
    (b"tcp:[fe80::1%2]:80", b"tcp:[fe80::1%3]:80", false),
    (b"tcp:10.0.0.1:80", b"tcp:10.0.0.1:80", true),
    (b"tcp:10.0.0.1:80", b"tcp:10.0.0.1:81", false),
    (b"tcp:0.0.0.0:80", b"tcp:[::]:80", false),
    (b"unix:/run/a", b"unix:/run/a", true),
    (b"unix:/run/a", b"unix:/run/b", false),
    (b"tcp:app:80", b"tcp:app:80", true),
    (b"tcp:app:80", b"tcp:app:81", false),
];

#[test]
fn addresses_are_one_by_what_they_say(rt: HostRuntime) {
    for (one, other, want) in PAIRS {
        assert!(rt; are_one(one, other) == Some(*want), "{one:?} {other:?}");
    }
}
