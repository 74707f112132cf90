//! The page, and how a connection is answered with it.

ghost use Rattle.std.specs.Prelude.{[]};
ghost use Rattle.page_server.specs.declared.page.TheConstants.{PAGE};
ghost use Rattle.http_server.specs.Response.{IsResponse};

use bytes::{BufMut, Bytes};
use http::Request;
use http_server::{Config, Connection, Response, Service, serve};
use net::{Conn, Runs};
use std::alloc::{AllocError, Global};
use std::hash::RandomState;
use std::io;
use std::random::RandomSource;
use std::time::Duration;

/// What every request is answered with.
pub const PAGE: &[u8] = b"Hello from a socket that many threads share.\n";

/// The seconds that a connection has.
const LIMIT_SECONDS: u64 = 10;

/// The page as a service of HTTP.
#[derive(Drop)]
pub struct Page;

impl Service for Page {
    ghost answers = { λ _ _ response _. IsResponse 200 [] PAGE.now response };

    fn call(&mut self, _: &Request<Bytes>, response: &mut Response) -> Result<(), AllocError> {
        response.body.put_slice(PAGE)
    }
}

/// Serves the page to one client by HTTP/1.1, until it asks for no more or its time is over.
pub fn serve_page<R: Runs + RandomSource>(rt: R, alloc: Global, conn: Conn<R>) -> io::Result<()> {
    let mut reader = conn;
    reader.set_deadline(Some(Duration::from_secs(LIMIT_SECONDS)))?;
    let mut writer = reader.try_clone()?;
    let keys = RandomState::new(&rt)?;
    let mut connection = Connection::new(alloc, keys, Config::default());
    serve(&mut connection, &mut Page, &mut reader, &mut writer)
}
