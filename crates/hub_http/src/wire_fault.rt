//! Faults of a request's bytes.
use thiserror::Error;

/// Faults of a request's bytes. Bytes have the first that holds, in this order.
#[derive(Clone, Copy, Debug, PartialEq, Eq, Drop, Error)]
pub enum WireFault {
    /// The first [`HEAD_LIMIT`](crate::HEAD_LIMIT) bytes are there, hold no whole head and may still begin one. Or a
    /// whole head has more than [`FIELD_LIMIT`](crate::FIELD_LIMIT) fields.
    #[error("the head is too long")]
    HeadTooLong,
    /// The bytes begin no head of HTTP/1.0 or HTTP/1.1, or Content-Length is there twice or isn't digits.
    #[error("the head is none of HTTP/1.x")]
    BadHead,
    /// There is a Transfer-Encoding field.
    #[error("there is a Transfer-Encoding")]
    Chunked,
    /// There is no Content-Length, and the method isn't GET.
    #[error("there is no Content-Length")]
    NoLength,
    /// Content-Length is over [`BODY_LIMIT`](crate::BODY_LIMIT).
    #[error("the body is too large")]
    TooLarge,
    /// The bytes end before the head or the body does.
    #[error("the request ends early")]
    Truncated,
    /// The method and the path have no route.
    #[error("there is no such route")]
    NoRoute,
    /// A parameter is missing, unknown, repeated or can't be read. Or there is a query if the parameters are in the
    /// body, or a body on a GET.
    #[error("a parameter is missing, unknown, repeated or unreadable")]
    BadBody,
    #[error("no memory")]
    NoMemory,
}
