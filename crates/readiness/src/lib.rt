//! Sockets that never wait, and a poller that tells the descriptors in a table what is ready and
//! what time it is: Go's network poller, over `epoll`.
//!
//! `addr`, `peer`, `local`, `sock`, `open`, `from_source`, `peeking`, `unix_listener`, `v6_listener` and `socket_options` have the sockets, over
//! `raw_address` and `raw_socket`, `sock_control` what the system is asked by about one, `resources` what a descriptor makes of them, and `last_codes` and `noted_listen` the numbers of the system's errors. `batch`
//! and `poll_timeout` decide what a poll's events say and how long a poll waits, `poller` polls,
//! `holding` puts sockets into its table, and `timer_alarms` has deadlines wake it.
#![tactic(auto)]

mod addr;
mod agenda;
mod batch;
mod due_timers;
mod event_loop;
mod from_source;
mod giving_way;
mod holding;
mod last_codes;
pub mod laws;
mod local;
mod loop_driver;
mod loop_remote;
mod loop_token;
mod named_tasks;
mod noted_listen;
mod open;
mod peeking;
mod peer;
mod poll_timeout;
mod polled_events;
mod poller;
mod raw_address;
mod raw_socket;
mod registrar;
mod resources;
mod resuming;
mod sock;
mod sock_control;
mod socket_options;
mod system_error;
mod task_times;
mod tasks;
mod telling;
mod timer_alarms;
mod turning;
mod unix_listener;
mod v6_listener;

pub use addr::{Addr, MAX_PATH_BYTES};
pub use agenda::{Step, Why, step_of_event, step_of_timer};
pub use batch::{Ev, MAX_EVENTS, Ready, batch_of};
pub use event_loop::EventLoop;
pub use holding::{HeldSocket, HoldFault, Holds};
pub use last_codes::LastCodes;
pub use loop_driver::LoopDriver;
pub use loop_remote::{LoopRemote, RemoteAlarms};
pub use loop_token::{LAST_SERIAL, MAX_PLACES, Place, Side, side_of};
pub use named_tasks::MAX_NAMED;
pub use noted_listen::{NotedListen, NotedListenRes};
pub use open::{connect, connect_from, connect_io, listen, listen_io, listen_with};
pub use peer::PeerStream;
pub use poll_timeout::{MAX_WAIT_MS, sleep_ms, wait_ms};
pub use poller::{HasCell, Poller};
pub use registrar::Registrar;
pub use resources::{ListenRes, NoWrites, ReadHalf, SockRes, WriteHalf};
pub use sock::{Listen, Sock};
pub use sock_control::SockControl;
pub use socket_options::TcpOptions;
pub use tasks::{Host, NoPlace, Turn};
pub use timer_alarms::TimerAlarms;

// What callers of the above speak of, so that they need this crate alone.
pub use conntable::{ConnTable, Refusal as TableRefusal};
pub use deadline_core::Timers;
pub use mio::Waker;
