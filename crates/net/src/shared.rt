//! What the threads of a net share: the table, the timers and the clock. Locks are taken in the
//! order limits, table, cell, timers; nobody outside this crate sees one.

ghost use Rattle.std.specs.Prelude.{◌≡◌, false, Ok, Err, IfOk, IfErr};
ghost use Rattle.rwloops.specs.declared.fault.Fault.{Fault};
ghost use Rattle.fd_descriptor.specs.FdHandle.{saw_closed};
ghost use Rattle.net.specs.Gone.{gone_id};

use crate::entry::{Closer, Entry};
use crate::errors::told;
use crate::gone::{Absent, Gone};
use crate::home::Home;
use crate::runs::Runs;
use arrayvec::ArrayString;
use fd_descriptor::{Alarms, DevKind, Dirs, Fault, FdHandle, PollCell};
use readiness::{
    ConnTable, LastCodes, Listen, MAX_PATH_BYTES, NoWrites, NotedListen, NotedListenRes, Registrar,
    Sock, SockRes, TableRefusal, TimerAlarms, Timers, Waker,
};
use std::alloc::Global;
use std::io;
use std::sync::atomic::{AtomicBool, Ordering};
use std::sync::{Arc, Mutex, MutexGuard};
use std::time::Instant;

#[derive(Drop)]
pub(crate) struct Shared<R: Runs> {
    pub(crate) rt: R,
    pub(crate) alloc: Global,
    pub(crate) start: Instant,
    pub(crate) table: Mutex<ConnTable<Entry>>,
    pub(crate) timers: Arc<Mutex<Timers>>,
    pub(crate) alarms: TimerAlarms<R>,
    pub(crate) registrar: Registrar,
    pub(crate) waker: Arc<Waker>,
    pub(crate) stopped: AtomicBool,
}

// A descriptor of a connection, with its cell and another handle.
fn open_conn(
    alloc: Global,
    sock: Sock,
    codes: &Arc<LastCodes>,
    id: u64,
) -> io::Result<(Arc<PollCell>, FdHandle<SockRes>, FdHandle<SockRes>)>
    ensures open { IfOk result (λ opened. saw_closed opened.2 ≡ false) }
{
    let (read, write) = sock.split_noting(alloc, codes)?;
    let mut handle = FdHandle::open(alloc, read, write, id)?;
    let cell = handle.cell()?;
    let other = told(handle.share(), None)?;
    Ok((cell, handle, other))
}

// The same of a listener.
fn open_listener(
    alloc: Global,
    listen: Listen,
    codes: &Arc<LastCodes>,
    id: u64,
) -> io::Result<
    (
        Arc<PollCell>,
        FdHandle<NotedListenRes>,
        FdHandle<NotedListenRes>,
    ),
>
    ensures open { IfOk result (λ opened. saw_closed opened.2 ≡ false) }
{
    let listen = NotedListen::new(listen, Arc::try_clone(codes)?);
    let mut handle = FdHandle::open(alloc, listen, NoWrites, id)?;
    let cell = handle.cell()?;
    let other = told(handle.share(), None)?;
    Ok((cell, handle, other))
}

// Puts a descriptor's entry into the table, whose lock has been held since `vacant`.
fn enter(table: &mut ConnTable<Entry>, entry: Entry) -> Result<u64, Fault> {
    match table.insert(entry) {
        Ok((id, _)) => Ok(id),
        Err((_, refusal)) => Err(match refusal {
            TableRefusal::OutOfMemory => Fault::OutOfMemory,
            _ => Fault::TooMany,
        }),
    }
}

// The fault of a socket that isn't registered.
fn registered(done: Result<(), DevKind>) -> Result<(), Fault>
    ensures done { IfOk done (λ _. result ≡ Ok tt) }
    ensures refused { IfErr done (λ kind. result ≡ Err (Fault.Device kind)) }
{
    match done {
        Ok(()) => Ok(()),
        Err(kind) => Err(Fault::Device(kind)),
    }
}

impl<R: Runs> Shared<R> {
    /// The nanoseconds since the start, which are the moments of all deadlines.
    pub(crate) fn now(&self) -> u64 {
        match self.start.elapsed(&self.rt) {
            Ok(passed) => u64::try_from(passed.as_nanos()).unwrap_or(u64::MAX),
            Err(_) => u64::MAX,
        }
    }

    // The id and the token of the next entry, of a net that takes one more.
    fn vacant(&self, table: &ConnTable<Entry>) -> Result<(u64, u64), Fault> {
        if self.stopped.load(Ordering::SeqCst) {
            return Err(Fault::Closed);
        }
        match table.vacant() {
            Ok(next) => Ok(next),
            Err(_) => Err(Fault::TooMany),
        }
    }

    // Registers a socket with who tells it, and gives the key of its deadlines: in the net the id
    // and the token are those of its entry, in a loop both are its task's token.
    fn register(&self, sock: &mut Sock, home: &Home<'_, R>, next: (u64, u64)) -> io::Result<u64> {
        let (id, token) = next;
        match home {
            Home::Net => {
                self.registrar.register(sock, token)?;
                Ok(id)
            }
            Home::Loop(place) => {
                told(registered(place.poller.register(sock, place.token)), None)?;
                Ok(place.token)
            }
        }
    }

    /// Makes a descriptor of a connection. Where anything is refused the socket is dropped, which
    /// closes it.
    pub(crate) fn hold(
        &self,
        sock: Sock,
        codes: &Arc<LastCodes>,
        home: &Home<'_, R>,
    ) -> io::Result<(u64, FdHandle<SockRes>)>
        ensures open { IfOk result (λ held. saw_closed held.1 ≡ false) }
    {
        let rt = self.rt;
        let seat = home.seat()?;
        let mut table = self.table.lock(&rt);
        let next = told(self.vacant(&table), None)?;
        let mut sock = sock;
        let key = self.register(&mut sock, home, next)?;
        let (cell, handle, other) = open_conn(self.alloc, sock, codes, key)?;
        let closer = Closer::Conn(handle);
        let id = told(enter(&mut *table, Entry { cell, closer, seat }), None)?;
        Ok((id, other))
    }

    /// The same of a listener, with the path that goes when it closes.
    pub(crate) fn hold_listener(
        &self,
        listen: Listen,
        codes: &Arc<LastCodes>,
        path: Option<ArrayString<MAX_PATH_BYTES>>,
    ) -> io::Result<(u64, FdHandle<NotedListenRes>)>
        ensures open { IfOk result (λ held. saw_closed held.1 ≡ false) }
    {
        let rt = self.rt;
        let mut table = self.table.lock(&rt);
        let (id, token) = told(self.vacant(&table), None)?;
        let mut listen = listen;
        self.registrar.register_listener(&mut listen, token)?;
        let (cell, handle, other) = open_listener(self.alloc, listen, codes, id)?;
        let closer = Closer::Listener(handle, path);
        let seat = None;
        let id = told(enter(&mut *table, Entry { cell, closer, seat }), None)?;
        Ok((id, other))
    }

    /// Keeps an entry in the table for as long as this lives; `None` says that it is out.
    pub(crate) fn keep_listed(&self, id: u64) -> Option<MutexGuard<'_, ConnTable<Entry>>> {
        let table = self.table.lock(&self.rt);
        let is_there = table.by_id(id).is_some();
        if is_there { Some(table) } else { None }
    }

    /// Takes an entry out, so that turns tell it nothing more, and gives it where it was there. The
    /// path of a Unix listener goes with it.
    pub(crate) fn take(&self, id: u64) -> (Absent, Option<Entry>)
        ensures own { result.0.id ≡ id }
    {
        let (absent, entry) = Absent::take_out(&mut *self.table.lock(&self.rt), id);
        if let Some(entry) = &entry {
            self.alarms.disarm(id, Dirs::Both);
            entry.unlink(&self.rt);
        }
        (absent, entry)
    }

    /// Takes an entry out and closes its descriptor, for all that share it.
    pub(crate) fn end(&self, id: u64) -> Gone
        ensures own { gone_id result ≡ id }
    {
        let (absent, entry) = self.take(id);
        let shut = match entry {
            Some(entry) => Some(entry.close(&self.rt)),
            None => None,
        };
        Gone::new(absent, shut)
    }

    // From now on nothing more is taken on. Who takes something on just now has the table's lock.
    fn stop(&self) {
        let _table = self.table.lock(&self.rt);
        self.stopped.store(true, Ordering::SeqCst);
    }

    /// Closes all there is, and takes nothing more on.
    pub(crate) fn end_all(&self) {
        self.stop();
        for _ in self.rt.forever() {
            let first = self.table.lock(&self.rt).first_id();
            match first {
                Some(id) => drop(self.end(id)),
                None => return,
            }
        }
    }
}
