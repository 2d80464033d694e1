//! Moments as texts.

ghost use Rattle.std.specs.Prelude.{◌≡◌};
ghost use Rattle.policy.specs.Moment.{moment_in};
ghost use Rattle.policy.specs.Moment as spec;

use crate::fault::MomentFault;
use jiff::Timestamp;

/// Returns the moment that the text gives, in seconds since the beginning of 1970 (UTC): a date, a time of day and an
/// offset from UTC (RFC 3339 section 5.6), or any other text that `jiff` reads as an instant. A leap second (23:59:60)
/// is read as the second before it. Allocates nothing.
///
/// Fails with BadMoment if `jiff` refuses the text, or if the instant is no whole second.
pub fn read_moment(text: &str) -> Result<i64, MomentFault>
    ensures { result ≡ moment_in text.now }
{
    match text.parse::<Timestamp>() {
        Ok(instant) => whole_second(instant),
        Err(_) => Err(MomentFault::BadMoment),
    }
}

/// Returns the seconds of an instant. Fails with BadMoment if it is no whole second.
fn whole_second(instant: Timestamp) -> Result<i64, MomentFault>
    ensures { result ≡ spec.whole_second instant.nanosecond }
{
    if instant.subsec_nanosecond() == 0 {
        Ok(instant.as_second())
    } else {
        Err(MomentFault::BadMoment)
    }
}
