//! The bytes of replies.
ghost use Rattle.std.specs.Prelude.{◌≡◌, IfOk, OnOk, string_bytes};
ghost use Rattle.std.specs.Io.KnownBytes.{Appends};
ghost use Rattle.circle.specs.Codes.{status_of as status_of_code};
ghost use Rattle.hub_http.specs.Replies as spec;
ghost use Rattle.hub_http.specs.inner.Messages.{status_line, fields, reason_text};

use crate::bodies::{put_body, put_refusal};
use crate::wire_fault::WireFault;
use http::StatusCode;
use hub_core::{Code, Reply};
use json_text::{Refused, Sink, Source, Tokens, bytes_of, length_of, write_from};
use std::alloc::{AllocError, Global};
use std::io::Write;

fn fault_name(fault: WireFault) -> &'static str
    ensures { result.now ≡ spec.fault_name fault }
{
    match fault {
        WireFault::HeadTooLong => "HeadTooLong",
        WireFault::BadHead => "BadHead",
        WireFault::Chunked => "Chunked",
        WireFault::NoLength => "NoLength",
        WireFault::TooLarge => "TooLarge",
        WireFault::Truncated => "Truncated",
        WireFault::NoRoute => "NoRoute",
        WireFault::BadBody => "BadBody",
        WireFault::NoMemory => "NoMemory",
    }
}

fn fault_status(fault: WireFault) -> Option<StatusCode>
    ensures { result ≡ spec.fault_status fault }
{
    match fault {
        WireFault::HeadTooLong => Some(StatusCode::REQUEST_HEADER_FIELDS_TOO_LARGE),
        WireFault::BadHead | WireFault::BadBody => Some(StatusCode::BAD_REQUEST),
        WireFault::Chunked => Some(StatusCode::NOT_IMPLEMENTED),
        WireFault::NoLength => Some(StatusCode::LENGTH_REQUIRED),
        WireFault::TooLarge => Some(StatusCode::PAYLOAD_TOO_LARGE),
        WireFault::NoRoute => Some(StatusCode::NOT_FOUND),
        WireFault::Truncated | WireFault::NoMemory => None,
    }
}

#[tactic(auto, using(crate::proofs::Statuses::status_known))]
fn code_status(code: Code) -> StatusCode
    ensures { result ≡ status_of_code code }
{
    match StatusCode::from_u16(code.status()) {
        Ok(status) => status,
        Err(_) => unreachable!(),
    }
}

fn status(reply: &Reply) -> StatusCode
    ensures { result ≡ spec.status_of reply.now }
{
    match reply {
        Reply::Refused(why) => code_status(why.code),
        _ => StatusCode::OK,
    }
}

/// The field that asks for a bearer token on 401 (RFC 9110 section 11.6.1).
fn challenge(status: StatusCode) -> &'static str
    ensures { result.now ≡ spec.challenge status }
{
    if status.as_u16() == 401 {
        "WWW-Authenticate: Bearer\r\n"
    } else {
        ""
    }
}

/// The reason phrase of a status (RFC 9110 section 15).
fn reason(status: StatusCode) -> &'static str
    ensures { result.now ≡ reason_text status }
{
    match status.canonical_reason() {
        Some(reason) => reason,
        None => "<unknown status code>",
    }
}

/// The body of a message.
#[derive(Clone, Copy, Drop)]
pub(crate) enum Body<'a> {
    /// The hub's reply.
    Answer(&'a Reply),
    /// The fault of the bytes.
    Fault(WireFault),
}

impl<'a> Body<'a> {
    ghost use Rattle.std.specs.Prelude.{◌++◌, true};
    ghost use Rattle.serde_json.specs.Written.{comma_if};
    ghost use Rattle.hub_http.specs.inner.Messages.{body_bytes};

    fn put<S: Sink>(&self, out: &mut Tokens<S>) -> Result<(), Refused>
        ensures { OnOk result (S.puts out.old.sink
            (comma_if out.old.after_value ++ body_bytes self.now) out.new.sink) }
    {
        match self {
            Body::Answer(reply) => put_body(out, reply),
            Body::Fault(fault) => put_refusal(out, fault_name(*fault), "", "request refused"),
        }
    }
}

impl<'a> Source for Body<'a> {
    ghost use Rattle.hub_http.specs.inner.Messages.{body_bytes};

    ghost bytes = { body_bytes };

    fn put_into<S: Sink + Drop>(&self, sink: S) -> Result<S, Refused> {
        let mut out = Tokens::new(sink);
        self.put(&mut out)?;
        Ok(out.sink)
    }
}

/// A message: a status line, the fields and a body (RFC 9112 section 2.1).
#[derive(Clone, Copy, Drop)]
pub(crate) struct Message<'a> {
    status: StatusCode,
    body: Body<'a>,
}

impl<'a> Message<'a> {
    ghost use Rattle.std.specs.Prelude.{◌≡◌, [], MatchOption};
    ghost use Rattle.hub_http.specs.inner.Messages.{message_bytes};
    ghost use Rattle.hub_http.specs.Replies.{reply_text, fault_text};

    pub(crate) fn of_reply(reply: &'a Reply) -> Message<'a>
        ensures { message_bytes result ≡ reply_text reply.now }
    {
        Message {
            status: status(reply),
            body: Body::Answer(reply),
        }
    }

    /// The message of a fault. None if it has no status.
    pub(crate) fn of_fault(fault: WireFault) -> Option<Message<'a>>
        ensures { MatchOption result (fault_text fault ≡ [])
            (λ m. message_bytes m ≡ fault_text fault) }
    {
        match fault_status(fault) {
            None => None,
            Some(status) => Some(Message {
                status,
                body: Body::Fault(fault),
            }),
        }
    }
}

/// Puts the status line (RFC 9112 section 4) without its end.
fn put_status_line<S: Sink>(sink: &mut S, status: StatusCode) -> Result<(), Refused>
    ensures { OnOk result (S.puts sink.old (status_line status) sink.new) }
{
    let mut digits = itoa::Buffer::new();
    sink.put(b"HTTP/1.1 ")?;
    sink.put(digits.format(status.as_u16()).as_bytes())?;
    sink.put(b" ")?;
    sink.put(reason(status).as_bytes())
}

/// Puts the end of the status line, the fields (RFC 9112 section 5) and the empty line.
fn put_fields<S: Sink>(sink: &mut S, status: StatusCode, length: usize) -> Result<(), Refused>
    ensures { OnOk result (S.puts sink.old (fields status length) sink.new) }
{
    let mut digits = itoa::Buffer::new();
    sink.put(b"\r\nContent-Type: application/json\r\nContent-Length: ")?;
    sink.put(digits.format(length).as_bytes())?;
    sink.put(b"\r\nConnection: close\r\n")?;
    sink.put(challenge(status).as_bytes())?;
    sink.put(b"\r\n")
}

impl<'a> Source for Message<'a> {
    ghost use Rattle.hub_http.specs.inner.Messages.{message_bytes};

    ghost bytes = { message_bytes };

    /// The body is put twice: first to count its bytes for Content-Length, then to the sink. So a reply needs no
    /// memory, and a request that was given up for want of memory is still answered.
    fn put_into<S: Sink + Drop>(&self, sink: S) -> Result<S, Refused> {
        let Some(length) = length_of(&self.body) else {
            return Err(Refused);
        };
        let mut sink = sink;
        put_status_line(&mut sink, self.status)?;
        put_fields(&mut sink, self.status, length)?;
        self.body.put_into(sink)
    }
}

/// Returns the body of a reply as compact JSON. Fails if the memory doesn't suffice.
pub fn body_text(alloc: Global, reply: &Reply) -> Result<String, AllocError>
    ensures { IfOk result (λ s. string_bytes s ≡ spec.body_text reply.now) }
{
    let bytes = bytes_of(alloc, &Body::Answer(reply))?;
    match String::from_utf8(bytes) {
        Ok(text) => Ok(text),
        Err(_) => Err(AllocError),
    }
}

/// Returns the bytes of a reply (RFC 9112 section 4). Fails if the memory doesn't suffice.
pub fn reply_bytes(alloc: Global, reply: &Reply) -> Result<Vec<u8>, AllocError>
    ensures { IfOk result (λ v. v.items ≡ spec.reply_text reply.now) }
{
    // written out here because the prover needs the type of the body
    let message = Message {
        status: status(reply),
        body: Body::Answer(reply),
    };
    bytes_of(alloc, &message)
}

/// Returns the bytes of a fault, and none if it has no status. Fails if the memory doesn't suffice.
pub fn fault_bytes(alloc: Global, fault: WireFault) -> Result<Vec<u8>, AllocError>
    ensures { IfOk result (λ v. v.items ≡ spec.fault_text fault) }
{
    match Message::of_fault(fault) {
        None => Ok(Vec::new(alloc)),
        Some(message) => bytes_of(alloc, &message),
    }
}

/// Writes the bytes of a reply, in pieces. Takes no memory.
pub(crate) fn write_reply<W: Write>(writer: &mut W, reply: &Reply) -> Result<(), Refused>
    ensures { OnOk result (Appends (W.contents writer.old) (W.contents writer.new)
        (spec.reply_text reply.now)) }
{
    write_from(writer, &Message::of_reply(reply))
}

/// Writes the bytes of a fault, in pieces. Takes no memory.
pub(crate) fn write_fault<W: Write>(writer: &mut W, fault: WireFault) -> Result<(), Refused>
    ensures { OnOk result (Appends (W.contents writer.old) (W.contents writer.new)
        (spec.fault_text fault)) }
{
    match Message::of_fault(fault) {
        None => Ok(()),
        Some(message) => write_from(writer, &message),
    }
}
