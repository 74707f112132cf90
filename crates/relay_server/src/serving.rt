//! A relay from its sockets to its end.

ghost use Rattle.std.specs.Prelude.{◌≡◌, ◌⊎◌, ◌+◌, OnOk, IfErr};
ghost use Rattle.relay_server.specs.Output.{SaysItListens, WritesBothLines};
ghost use Rattle.relay_server.specs.Server.{admin_path, started_in, unstarted_in};
ghost use Rattle.relay_admin.specs.ServeFault.{IsRunFault};

use crate::bounds::ServeRuntime;
use crate::given::{Given, tell_unused};
use crate::log_source::OpensLog;
use crate::outlets::StartedOutlets;
use crate::output::{write_listening, write_totals};
use crate::server::Server;
use relay_admin::ServeFault;
use relay_facts::config::Config;
use relay_settings::Settings;
use std::fs::Files;
use std::io::Write;
use std::mem;
use std::net::{Net, TcpListener, TcpStream};
use std::random::RandomSource;
use std::sync::Wait;
use std::thread::Threads;
use std::time::Clock;

// Where admin sessions are served. `Config::read` refuses settings that say it nowhere (`admin`), and
// no socket is opened at the path without a byte.
fn admin_of(settings: &Settings) -> &str
    ensures { result.now ≡ admin_path settings.now }
{
    match &settings.admin {
        Some(admin) => admin.as_str(),
        None => "",
    }
}

// Opens all, says that the relay listens, and turns until an admin session says stop, until it has
// finished, or until something fails. The threads are started before, so that nothing which is
// refused after the line ends it. The steps stand in the order of the faults that `serve` promises.
fn run<L, O, R, W: Write>(
    server: &mut Server<R>,
    started: &mut StartedOutlets,
    settings: &Settings,
    errors: Option<L>,
    logs: O,
    writer: &mut W,
) -> Result<(), ServeFault>
where
    L: Write + Drop + Send + 'static,
    O: OpensLog<Log = L> + Drop,
    R: ServeRuntime + Files + Eprint,
    ensures said { OnOk result (SaysItListens (W.contents writer.old) (W.contents writer.new)) }
    ensures started { OnOk result
        (started_in server.new ≡ started_in server.old + unstarted_in server.old) }
    ensures unwritten { IfErr result (λ fault. IsRunFault fault
        ⊎ (W.contents writer.new ≡ W.contents writer.old)) }
{
    server.open(admin_of(settings), settings.admin_mode)?;
    tell_unused(errors, server.unused());
    started.start_log(server, &settings.log, logs)?;
    started.serve_metrics(server, &settings.metrics)?;
    started.look_names_up(server)?;
    server.start()?;
    write_listening(writer, server.rules())?;
    server.run()
}

/// Runs such a relay until an admin session says stop, or finish and that is over. Its log, where it
/// has one, is opened by `logs`. A rule, also one that a reload brings, and the admin socket take the
/// listener that is given at their address, and leave its path. It writes `listening N` once all
/// sockets are open, and at the end `up U down D`, the bytes copied to the targets and to the clients.
/// A fault at the start is the first of: the poller, the listeners in the rules' order, the admin
/// socket, the log, the metrics' address. Whatever comes, no socket and no path that it bound is left, and no
/// thread but one that waits for the system's resolver.
// (its bounds are spelt out: a program that calls it over `ServeRuntime` isn't covered by the
// prover)
pub fn serve<L, O, R, W: Write>(
    rt: R,
    config: Config,
    given: Given<L>,
    logs: O,
    writer: &mut W,
) -> Result<(), ServeFault>
where
    L: Write + Drop + Send + 'static,
    O: OpensLog<Log = L> + Drop,
    R: Wait
        + Threads
        + Net<Listener = TcpListener, Stream = TcpStream>
        + Clock
        + Files
        + Eprint
        + RandomSource
        + AllocGlobal
        + Copy
        + Send
        + Sync
        + 'static,
    ensures written { OnOk result (WritesBothLines config.capacity.loops.count
        (W.contents writer.old) (W.contents writer.new)) }
    // Where a socket is at fault, nothing was written.
    ensures unwritten { IfErr result (λ fault. IsRunFault fault
        ⊎ (W.contents writer.new ≡ W.contents writer.old)) }
{
    let alloc = rt.alloc();
    let mut config = config;
    let settings = mem::replace(&mut config.settings, Settings::none());
    let server = Server::new(rt, alloc, config)?;
    let (mut server, mut started) = (server, StartedOutlets::none());
    let Given { listeners, errors } = given;
    server.give(listeners);
    let ran = run(&mut server, &mut started, &settings, errors, logs, writer);
    let ended = server.end();
    started.end(&rt);
    ran?;
    let totals = ended?;
    write_totals(writer, &totals)
}
