//! The present moment.

use crate::fault::Fault;
use std::time::{Clock, SystemTime, UNIX_EPOCH};

/// Returns the seconds since the beginning of 1970 (UTC). Fails with `ReadFailed` if the clock can't be read or is
/// before that.
pub fn seconds<C: Clock>(clock: &C) -> Result<i64, Fault> {
    let Ok(now) = SystemTime::now(clock) else {
        return Err(Fault::ReadFailed);
    };
    let Ok(since) = now.duration_since(UNIX_EPOCH) else {
        return Err(Fault::ReadFailed);
    };
    match i64::try_from(since.as_secs()) {
        Ok(seconds) => Ok(seconds),
        Err(_) => Err(Fault::ReadFailed),
    }
}
