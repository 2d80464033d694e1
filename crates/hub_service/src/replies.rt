//! What is printed of a reply, and the program's outcome with it.
ghost use Rattle.std.specs.Prelude.{◌≡◌, ◌++◌, ◌∷◌, [], IfOk, string_bytes};
ghost use Rattle.hub_http.specs.Replies.{body_text as body_told};
ghost use Rattle.hub_service.specs.Replies.{reply_status};
ghost use Rattle.hub_service.specs.Replies as spec;

use crate::status::Status;
use hub_core::Reply;
use hub_http::body_text;
use std::alloc::{AllocError, Global};

/// Returns the program's outcome with a reply.
pub fn status_of(reply: &Reply) -> Status
    ensures { result ≡ reply_status reply.now }
{
    match reply {
        Reply::Refused(_) => Status::Refused,
        _ => Status::Done,
    }
}

/// The body of a reply, and a newline.
fn line_of(alloc: Global, reply: &Reply) -> Result<String, AllocError>
    ensures { IfOk result (λ line. string_bytes line ≡ body_told reply.now ++ 10 ∷ []) }
{
    let mut line = body_text(alloc, reply)?;
    line.push('\n')?;
    Ok(line)
}

/// Returns what is printed of a reply: the lines of an explanation, and otherwise the body with a newline.
pub fn reply_lines(alloc: Global, reply: &Reply) -> Result<String, AllocError>
    ensures { IfOk result (λ text. string_bytes text ≡ spec.printed reply.now) }
{
    match reply {
        Reply::Trace(lines) => String::from_str(alloc, lines.as_str()),
        _ => line_of(alloc, reply),
    }
}
