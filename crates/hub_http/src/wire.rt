//! What a request's bytes ask.
ghost use Rattle.std.specs.Prelude.{◌≡◌, ℕ, ◌+◌, ◌≤◌, ◌<◌, List, length, map, take, drop};
ghost use Rattle.httparse.specs.Borrowed.{header_parts};
ghost use Rattle.httparse.specs.Spans.{RequestOverflows};
ghost use Rattle.httparse.specs.Grammar.{HasNoRequest, MayBecomeRequest};
ghost use Rattle.hub_http.specs.Wire.{Wire, Answers, asked_by, window};
ghost use Rattle.hub_http.specs.inner.Arrivals.{Stands, Arrives};

use crate::fields::{read_body_length, read_key};
use crate::request_fault::RequestFault;
use crate::requests::read_request;
use crate::wire_fault::WireFault;
use crate::{FIELD_LIMIT, HEAD_LIMIT};
use httparse::{EMPTY_HEADER, Error, Header, Status};
use hub::Key;
use hub_core::Request;
use std::alloc::Global;

/// What is known of a request while its bytes come.
#[derive(Drop)]
pub(crate) enum Arrival {
    /// At least so many bytes are wanted.
    Wants(usize),
    Asks(Key, Request),
    Refused(WireFault),
}

/// Returns the key and the request that the bytes of an HTTP/1.x request ask, or fails with their first fault. Bytes
/// after the body are ignored. Takes memory for its result and for reading; fails with `NoMemory` in place of any other
/// answer if that doesn't suffice.
pub fn request_of(alloc: Global, bytes: &[u8]) -> Result<(Key, Request), WireFault>
    ensures { Answers bytes.now result }
{
    match read_wire(alloc, bytes) {
        Arrival::Wants(_) => Err(WireFault::Truncated),
        Arrival::Asks(key, request) => Ok((key, request)),
        Arrival::Refused(fault) => Err(fault),
    }
}

/// What a whole head with the bytes after it asks.
#[tactic(auto, unfolding(crate::specs::Wire::asked_by))]
fn after_head(
    alloc: Global,
    method: &str,
    target: &str,
    fields: &[Header<'_>],
    head: usize,
    rest: &[u8],
) -> Arrival
    requires { head ≤ HEAD_LIMIT }
    ensures { Stands (asked_by method.now target.now (map header_parts fields.now) rest.now)
        (head + length rest.now) result }
{
    if fields.len() > FIELD_LIMIT {
        return Arrival::Refused(WireFault::HeadTooLong);
    }
    let n = match read_body_length(method == "GET", fields) {
        Ok(n) => n as usize,
        Err(e) => return Arrival::Refused(e),
    };
    if rest.len() < n {
        return Arrival::Wants(head + n);
    }
    match read_request(alloc, method, target, &rest[..n]) {
        Ok(request) => Arrival::Asks(read_key(fields), request),
        Err(RequestFault::NoRoute) => Arrival::Refused(WireFault::NoRoute),
        Err(RequestFault::BadBody) => Arrival::Refused(WireFault::BadBody),
        Err(RequestFault::NoMemory) => Arrival::Refused(WireFault::NoMemory),
    }
}

/// The bytes in which a head must end.
fn front_of(bytes: &[u8]) -> &[u8]
    ensures { result.now ≡ window bytes.now }
{
    if bytes.len() < HEAD_LIMIT {
        bytes
    } else {
        &bytes[..HEAD_LIMIT]
    }
}

fn behind(bytes: &[u8], len: usize) -> &[u8]
    requires { len ≤ length bytes.now }
    ensures { result.now ≡ drop len bytes.now }
{
    &bytes[len..]
}

/// What the bytes that have come ask.
pub(crate) fn read_wire(alloc: Global, bytes: &[u8]) -> Arrival
    ensures { Arrives bytes.now result }
{
    let front = front_of(bytes);
    // room for a usual head, without taking memory
    let mut headers = [EMPTY_HEADER; FIELD_LIMIT];
    let mut head = httparse::Request::new(&mut headers);
    match head.parse(front) {
        Ok(Status::Complete(len)) => {
            let (Some(method), Some(target)) = (head.method, head.path) else {
                unreachable!()
            };
            let rest = behind(bytes, len);
            after_head(alloc, method, target, head.headers, len, rest)
        }
        Ok(Status::Partial) => open_head(bytes),
        Err(Error::TooManyHeaders) => read_many_fields(alloc, bytes),
        Err(_) => Arrival::Refused(WireFault::BadHead),
    }
}

/// A head that isn't whole yet.
fn open_head(bytes: &[u8]) -> Arrival
    requires none { HasNoRequest (window bytes.now) }
    requires may { MayBecomeRequest (window bytes.now) }
    ensures { Arrives bytes.now result }
{
    if bytes.len() < HEAD_LIMIT {
        Arrival::Wants(bytes.len() + 1)
    } else {
        Arrival::Refused(WireFault::HeadTooLong)
    }
}

/// A head with more than [`FIELD_LIMIT`] fields: HeadTooLong if it is whole, BadHead if it is malformed, and otherwise
/// one that isn't whole yet.
fn read_many_fields(alloc: Global, bytes: &[u8]) -> Arrival
    requires { RequestOverflows FIELD_LIMIT (window bytes.now) }
    ensures { Arrives bytes.now result }
{
    match vec![in alloc; EMPTY_HEADER; HEAD_LIMIT] {
        Ok(mut headers) => read_in_room(bytes, &mut headers),
        Err(_) => Arrival::Refused(WireFault::NoMemory),
    }
}

/// The same with room for as many fields as bytes.
fn read_in_room<'b>(bytes: &'b [u8], headers: &mut [Header<'b>]) -> Arrival
    requires many { RequestOverflows FIELD_LIMIT (window bytes.now) }
    requires room { HEAD_LIMIT ≤ length headers.old }
    ensures { Arrives bytes.now result }
{
    let front = front_of(bytes);
    let mut head = httparse::Request::new(headers);
    match head.parse(front) {
        Ok(Status::Complete(_)) => Arrival::Refused(WireFault::HeadTooLong),
        Ok(Status::Partial) => open_head(bytes),
        Err(Error::TooManyHeaders) => unreachable!(),
        Err(_) => Arrival::Refused(WireFault::BadHead),
    }
}
