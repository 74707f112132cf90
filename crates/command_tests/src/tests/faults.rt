//! Each fault's line and status.

use arrayvec::ArrayString;
use relay_admin::{DeskAnswer, ServeFault, reply_in};
use relay_command::{Fault, NO_MEMORY};
use std::alloc::Global;
use std::prelude::HostRuntime;

/// Whether a fault has this line and this status.
fn is_told(alloc: Global, fault: Fault, line: &str, status: u8) -> bool {
    let text = format!(in alloc; "{fault}");
    text.is_ok_and(|text| text.as_str() == line) && fault.status() == status
}

fn is_listening_told(alloc: Global, name: &str, line: &str, status: u8) -> bool {
    match ArrayString::from(name) {
        Ok(name) => is_told(alloc, Fault::Relay(ServeFault::Listen(name)), line, status),
        Err(_) => false,
    }
}

#[test]
fn each_fault_has_its_line_and_status(rt: HostRuntime) {
    for (fault, line, status) in [
        (Fault::BadCommandLine, "bad command line", 2),
        (Fault::TraceRead, "trace fault: read", 3),
        (Fault::TraceWrite, "trace fault: write", 3),
        (Fault::TraceMemory, "trace fault: memory", 3),
        (Fault::Relay(ServeFault::Log), "cannot open log", 3),
        (Fault::Reach, "cannot reach admin", 3),
        (Fault::Print, "cannot print reply", 3),
        (Fault::Relay(ServeFault::RulesFile), "cannot read rules", 3),
        (Fault::Relay(ServeFault::Admin), "cannot listen admin", 3),
        (
            Fault::Relay(ServeFault::Metrics),
            "cannot listen metrics",
            3,
        ),
        (Fault::Relay(ServeFault::Device), "relay fault: device", 3),
        (NO_MEMORY, "relay fault: memory", 3),
    ] {
        assert!(&rt; is_told(rt.alloc(), fault, line, status), "{line}");
    }
    let is_told = is_listening_told(rt.alloc(), "web-1", "cannot listen web-1", 3);
    assert!(&rt; is_told, "cannot listen web-1");
}

/// Whether a session is told of a reload what `serve` prints where it doesn't start.
fn is_told_alike(alloc: Global, fault: ServeFault, answer: &DeskAnswer) -> bool {
    let Ok(line) = format!(in alloc; "{fault}\n") else {
        return false;
    };
    let Ok(reply) = reply_in(alloc, answer) else {
        return false;
    };
    reply.as_slice() == line.as_bytes()
}

#[test]
fn a_reload_is_told_what_serve_prints(rt: HostRuntime) {
    let fault = ServeFault::RulesFile;
    let is_unread_alike = is_told_alike(rt.alloc(), fault, &DeskAnswer::CannotRead);
    assert!(&rt; is_unread_alike, "cannot read rules");
    let name = ArrayString::from("web-1");
    assert!(&rt; name.is_ok(), "web-1");
    if let Ok(name) = name {
        let fault = ServeFault::Listen(name);
        let is_unheard_alike = is_told_alike(rt.alloc(), fault, &DeskAnswer::CannotListen(name));
        assert!(&rt; is_unheard_alike, "cannot listen web-1");
    }
}
