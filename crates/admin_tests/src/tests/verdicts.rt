//! The lines and statuses of the rules file's format, and writers that take less than a line.

use arrayvec::ArrayVec;
use relay_admin::check_status;

const WEB: &str = "relay web tcp:127.0.0.1:8080 unix:/tmp/a.sock 5000\n";

const COMMENTED: &str = "# x\nrelay a tcp:0.0.0.0:1 tcp:255.255.255.255:65535 never\n";

const SAME_NAME: &str = "relay a unix:/x unix:/y never\nrelay a unix:/z unix:/y 1\n";

const SAME_LISTEN: &str = "relay a unix:/x unix:/y never\nrelay b unix:/x unix:/z 1\n";

// Whether a text has this status and this line.
fn is_said(text: &[u8], status: u8, line: &str) -> bool {
    let mut said: ArrayVec<u8, 64> = ArrayVec::new();
    let got = check_status(text, &mut said);
    got == status && said.as_slice() == line.as_bytes()
}

#[test]
fn rules_are_counted(rt: HostRuntime) {
    assert!(rt; is_said(b"", 0, "rules 0\n"));
    assert!(rt; is_said(WEB.as_bytes(), 0, "rules 1\n"));
    assert!(rt; is_said(COMMENTED.as_bytes(), 0, "rules 1\n"));
}

#[test]
fn first_fault_is_printed_with_its_line(rt: HostRuntime) {
    let zero = "relay a tcp:0.0.0.0:01 tcp:1.1.1.1:1 never\n".as_bytes();
    let past_a_day = "relay a unix:/x unix:/y 86400001\n".as_bytes();
    assert!(rt; is_said(zero, 1, "bad rules: line 1\n"));
    assert!(rt; is_said(past_a_day, 1, "bad rules: line 1\n"));
    assert!(rt; is_said(SAME_NAME.as_bytes(), 1, "bad rules: same name at line 2\n"));
    let same_listen = "bad rules: same listen address at line 2\n";
    assert!(rt; is_said(SAME_LISTEN.as_bytes(), 1, same_listen));
}

#[test]
fn too_long_text_is_told_without_a_number(rt: HostRuntime) {
    let comment = [b'#'; 65_537];
    assert!(rt; is_said(&comment[..65_536], 0, "rules 0\n"));
    assert!(rt; is_said(&comment, 1, "bad rules: too long\n"));
}

#[test]
fn verdict_that_is_cut_has_a_status_of_its_own(rt: HostRuntime) {
    let mut said: ArrayVec<u8, 5> = ArrayVec::new();
    assert_eq!(rt; check_status(WEB.as_bytes(), &mut said), 3);
    assert!(rt; said.as_slice() == "rules".as_bytes());
}
