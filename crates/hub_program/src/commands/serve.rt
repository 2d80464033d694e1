//! `serve`: connections over a socket.

use crate::store::{close_served, open_served};
use hub::Hub;
use hub_core::Shelf;
use hub_service::{Fault, Status, print, serve_count};
use std::io::Write;
use std::net::{Ipv4Addr, TcpListener};

/// Serves `count` connections on 127.0.0.1, for the hub over any shelf.
fn serve_hub<Sh: Shelf, W: Write, E: Write>(
    rt: &HostRuntime,
    hub: &mut Hub<Sh>,
    port: u16,
    count: u32,
    writer: &mut W,
    errors: &mut E,
) -> Result<Status, Fault> {
    let Ok(listener) = TcpListener::bind(rt, (Ipv4Addr::LOCALHOST, port)) else {
        return Err(Fault::ListenFailed);
    };
    let line = format!(in rt.alloc(); "listening {port}\n")?;
    print(writer, line.as_str())?;
    Ok(serve_count(rt.alloc(), &listener, count, hub, rt, errors))
}

/// Opens the store, and serves `count` connections on 127.0.0.1. Fails with `Failed` if changes are in the log alone at its end.
pub fn run<W: Write, E: Write>(
    rt: &HostRuntime,
    store: &str,
    port: u16,
    count: u32,
    writer: &mut W,
    errors: &mut E,
) -> Result<Status, Fault> {
    let mut hub = Hub::new(open_served(rt, store, errors)?);
    let outcome = serve_hub(rt, &mut hub, port, count, writer, errors);
    let closed = close_served(hub.into_shelf());
    let status = outcome?;
    closed?;
    Ok(status)
}
