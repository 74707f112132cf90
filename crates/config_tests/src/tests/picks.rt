//! Runs of picks, as a rule makes them.

use target_pick::{Balance, MAX_TARGETS, Seen, pick, source_number, try_next};

const UP: Seen = Seen {
    weight: 1,
    is_backup: false,
    is_up: true,
    is_drained: false,
    was_tried: false,
    connections: 0,
};

const DOWN: Seen = Seen {
    weight: 1,
    is_backup: false,
    is_up: false,
    is_drained: false,
    was_tried: false,
    connections: 0,
};

const BACKUP: Seen = Seen {
    weight: 1,
    is_backup: true,
    is_up: true,
    is_drained: false,
    was_tried: false,
    connections: 0,
};

fn weighing(weight: u16) -> Seen {
    Seen { weight, ..UP }
}

fn with_connections(weight: u16, connections: u32) -> Seen {
    Seen {
        weight,
        connections,
        ..UP
    }
}

/// Whether so many picks by turns give these places, in order.
fn gives(targets: &[Seen], want: &[usize]) -> bool {
    if targets.len() > MAX_TARGETS {
        return false;
    }
    for (turn, at) in want.iter().enumerate() {
        if pick(Balance::RoundRobin, targets, turn as u64, 0) != Some(*at) {
            return false;
        }
    }
    true
}

#[test]
fn turns_go_round_by_weight(rt: HostRuntime) {
    assert!(rt; gives(&[UP, UP, UP], &[0, 1, 2, 0, 1, 2, 0]));
    assert!(rt; gives(&[weighing(2), DOWN, weighing(1)], &[0, 0, 2, 0, 0, 2]));
    assert!(rt; gives(&[weighing(0), UP], &[1, 1, 1]));
}

#[test]
fn backups_come_last(rt: HostRuntime) {
    assert!(rt; gives(&[BACKUP, UP, BACKUP], &[1, 1, 1]));
    assert!(rt; gives(&[BACKUP, DOWN, BACKUP], &[0, 2, 0, 2]));
    let drained = Seen {
        is_drained: true,
        ..UP
    };
    assert!(rt; gives(&[BACKUP, drained], &[0, 0]));
    assert!(rt; pick(Balance::RoundRobin, &[DOWN, drained], 0, 0).is_none());
    assert!(rt; pick(Balance::First, &[], 0, 0).is_none());
}

#[test]
fn the_least_loaded_is_least_by_weight_and_idle_ones_take_turns(rt: HostRuntime) {
    let targets = [
        with_connections(2, 5),
        with_connections(1, 2),
        with_connections(4, 9),
    ];
    assert!(rt; pick(Balance::LeastConnections, &targets, 7, 0) == Some(1));
    let idle = [UP, UP, UP];
    assert!(rt; pick(Balance::LeastConnections, &idle, 0, 0) == Some(0));
    assert!(rt; pick(Balance::LeastConnections, &idle, 1, 0) == Some(1));
    assert!(rt; pick(Balance::LeastConnections, &idle, 5, 0) == Some(2));
    let huge = [
        with_connections(65_535, u32::MAX),
        with_connections(1, u32::MAX),
    ];
    assert!(rt; pick(Balance::LeastConnections, &huge, 0, 0) == Some(0));
}

#[test]
fn a_source_stays_at_its_target(rt: HostRuntime) {
    // FNV-1a's own vectors.
    assert_eq!(rt; source_number(b""), 0xcbf2_9ce4_8422_2325);
    assert_eq!(rt; source_number(b"a"), 0xaf63_dc4c_8601_ec8c);
    assert_eq!(rt; source_number(b"foobar"), 0x8594_4171_f739_67e8);
    let source = source_number(&[10, 0, 0, 7]);
    let first = pick(Balance::Source, &[UP, UP, UP], 0, source);
    assert!(rt; first.is_some());
    assert!(rt; pick(Balance::Source, &[UP, UP, UP], 99, source) == first);
}

#[test]
fn each_target_is_tried_once(rt: HostRuntime) {
    let mut targets = [UP, DOWN, BACKUP, UP];
    assert!(rt; try_next(Balance::First, &mut targets, 0, 0) == Some(0));
    assert!(rt; try_next(Balance::First, &mut targets, 0, 0) == Some(3));
    assert!(rt; try_next(Balance::First, &mut targets, 0, 0) == Some(2));
    assert!(rt; try_next(Balance::First, &mut targets, 0, 0).is_none());
}
