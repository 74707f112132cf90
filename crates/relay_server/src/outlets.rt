//! Where a relay tells of itself, beside standard output and its admin socket.

ghost use Rattle.std.specs.Prelude.{◌≡◌, None, IfErr, IfOk, IsSome, OnOk};
ghost use Rattle.relay_server.specs.Fault.{IsLogFault, IsMetricsFault, metrics_fault};

use crate::bounds::{NamesRuntime, ServeRuntime};
use crate::figures::RelayFigures;
use crate::log_source::OpensLog;
use crate::names_thread::NamesThread;
use crate::server::Server;
use log_writer::LogThread;
use metrics_server::{LIMIT_NS, MetricsServer, Running};
use relay_admin::{Addr, ServeFault};
use relay_shared::address::socket_address;
use relay_shared::stale_path::StalePath;
use rwloops::Fault;
use std::alloc::Global;
use std::fs::Files;
use std::io::Write;
use std::net::Net;
use std::sync::Wait;
use std::thread::Threads;
use std::time::Clock;
use std::{fs, mem};

/// The thread of names, that of a log and the server of metrics with its path, as far as a relay has them.
/// It isn't `Drop`: `end` alone lets it go, so that none of them is left.
pub(crate) struct StartedOutlets {
    names: Option<NamesThread>,
    log: Option<LogThread>,
    metrics: Option<(Running, MetricsPath)>,
}

/// The path of a server of metrics. The open of one alone makes it, and it can't be dropped: it is
/// spent by its removal, so that none is left.
struct MetricsPath {
    addr: Addr,
}

impl MetricsPath {
    // Removes it, where its address has one, and passes over faults.
    fn remove<R: Files>(self, rt: &R) {
        let MetricsPath { addr } = self;
        if let Addr::Unix(path) = addr {
            let _ = fs::remove_file(rt, path.as_str());
        }
    }
}

// What a refusal of the server of metrics is to the relay.
fn of_metrics(fault: Fault) -> ServeFault
    ensures fault { result ≡ metrics_fault fault }
    ensures kind { IsMetricsFault result }
{
    match fault {
        Fault::OutOfMemory => ServeFault::Memory,
        _ => ServeFault::Metrics,
    }
}

// A server of these figures at this address, and its path.
fn open_figures<R>(
    rt: R,
    alloc: Global,
    addr: &Addr,
    figures: RelayFigures<R>,
) -> Result<(MetricsServer<R, RelayFigures<R>>, MetricsPath), ServeFault>
where
    R: ServeRuntime + Files,
    ensures path { IfOk result (λ opened. opened.1.addr ≡ addr.now) }
    ensures faults { IfErr result IsMetricsFault }
{
    match MetricsServer::open(rt, alloc, &socket_address(addr), LIMIT_NS, figures) {
        Ok(server) => Ok((server, MetricsPath { addr: *addr })),
        Err(fault) => Err(of_metrics(fault)),
    }
}

// Serves these figures at this address from now on. Where that is refused, no path of its listener
// is left.
fn serve_figures<R>(
    rt: R,
    alloc: Global,
    addr: &Addr,
    figures: RelayFigures<R>,
) -> Result<(Running, MetricsPath), ServeFault>
where
    R: ServeRuntime + Files,
    ensures path { IfOk result (λ served. served.1.addr ≡ addr.now) }
    ensures faults { IfErr result IsMetricsFault }
{
    let (server, path) = open_figures(rt, alloc, addr, figures)?;
    match server.start() {
        Ok(running) => Ok((running, path)),
        Err(fault) => {
            path.remove(&rt);
            Err(of_metrics(fault))
        }
    }
}

// Removes what gives way at an address.
fn remove_stale<R: Files + Net>(rt: &R, addr: &Addr) {
    if let Some(stale) = StalePath::at(rt, addr) {
        stale.remove(rt);
    }
}

// Ends a server of metrics, if there is one, and removes its path.
fn end_metrics<R: Wait + Threads + Files>(rt: &R, metrics: Option<(Running, MetricsPath)>) {
    if let Some((running, path)) = metrics {
        running.stop(rt);
        path.remove(rt);
    }
}

// Ends the thread of names, if there is one.
fn end_names<R: Wait + Threads + Clock>(rt: &R, names: Option<NamesThread>) {
    if let Some(names) = names {
        names.end(rt);
    }
}

impl StartedOutlets {
    /// None of them.
    pub(crate) fn none() -> StartedOutlets
        ensures names { result.names ≡ None }
        ensures log { result.log ≡ None }
        ensures metrics { result.metrics ≡ None }
    {
        StartedOutlets {
            names: None,
            log: None,
            metrics: None,
        }
    }

    /// Looks up the names of hosts, where a relay's file may have some.
    pub(crate) fn look_names_up<R: NamesRuntime + Files>(
        &mut self,
        server: &Server<R>,
    ) -> Result<(), ServeFault>
        ensures faults { IfErr result (λ fault. fault ≡ ServeFault.Memory) }
        ensures log { self.new.log ≡ self.old.log }
        ensures metrics { self.new.metrics ≡ self.old.metrics }
    {
        let thread = server.names_thread()?;
        end_names(&server.main.host.rt, mem::replace(&mut self.names, thread));
        Ok(())
    }

    /// Opens a relay's log at this path and starts its thread, where it has one.
    pub(crate) fn start_log<L, O, R>(
        &mut self,
        server: &Server<R>,
        path: &Option<String>,
        logs: O,
    ) -> Result<(), ServeFault>
    where
        L: Write + Drop + Send + 'static,
        O: OpensLog<Log = L> + Drop,
        R: ServeRuntime + Files + Eprint,
        ensures faults { IfErr result IsLogFault }
    {
        if let (Some(path), Some(log)) = (path, server.log()?) {
            let Some(writer) = logs.open(path.as_str()) else {
                return Err(ServeFault::Log);
            };
            self.log = Some(LogThread::start(server.main.host.rt, log, writer)?);
        }
        Ok(())
    }

    /// Serves a relay's metrics, where they are asked for.
    pub(crate) fn serve_metrics<R: ServeRuntime + Files + Eprint>(
        &mut self,
        server: &Server<R>,
        metrics: &Option<Addr>,
    ) -> Result<(), ServeFault>
        ensures served { OnOk result (IsSome metrics.now → IsSome self.new.metrics) }
        ensures faults { IfErr result IsMetricsFault }
        ensures log { self.new.log ≡ self.old.log }
    {
        if let Some(addr) = metrics {
            let (rt, alloc) = (server.main.host.rt, server.main.alloc);
            if server.replaces_stale() {
                remove_stale(&rt, addr);
            }
            let served = serve_figures(rt, alloc, addr, server.figures()?)?;
            end_metrics(&rt, mem::replace(&mut self.metrics, Some(served)));
        }
        Ok(())
    }

    /// Ends all of it, the log last.
    pub(crate) fn end<R: Wait + Threads + Clock + Files>(self, rt: &R) {
        let StartedOutlets {
            names,
            log,
            metrics,
        } = self;
        end_names(rt, names);
        end_metrics(rt, metrics);
        if let Some(log) = log {
            log.finish(rt);
        }
    }
}
