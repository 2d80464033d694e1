//! Whether a text needs no escape, by vectors. Two loads that overlap cover a short text.
ghost use Rattle.std.specs.Prelude.{◌≡◌, ◌+◌, ◌≤◌, length};
ghost use Rattle.std.specs.Bool.{OnTrue};
ghost use Rattle.json.specs.Print.{escape};
ghost use Rattle.json.specs.Written.{PlainBetween};

use std::simd::prelude::*;

/// Returns whether none of the eight bytes at this place is escaped.
#[inline(always)]
fn plain_8(bytes: &[u8], at: usize) -> bool
    requires { at + 8 ≤ length bytes.now }
    ensures { OnTrue result (PlainBetween bytes.now at (at + 8)) }
{
    let v = u8x8::from_slice(&bytes[at..]);
    (v.simd_eq(u8x8::splat(b'"'))
        | v.simd_eq(u8x8::splat(b'\\'))
        | v.simd_lt(u8x8::splat(0x20))).to_bitmask()
        == 0
}

/// The same for sixteen bytes.
#[inline(always)]
fn plain_16(bytes: &[u8], at: usize) -> bool
    requires { at + 16 ≤ length bytes.now }
    ensures { OnTrue result (PlainBetween bytes.now at (at + 16)) }
{
    let v = u8x16::from_slice(&bytes[at..]);
    (v.simd_eq(u8x16::splat(b'"'))
        | v.simd_eq(u8x16::splat(b'\\'))
        | v.simd_lt(u8x16::splat(0x20))).to_bitmask()
        == 0
}

/// The same for bytes one by one.
fn plain_few(bytes: &[u8]) -> bool
    ensures { OnTrue result (PlainBetween bytes.now 0 (length bytes.now)) }
{
    for byte in bytes {
        if *byte == b'"' || *byte == b'\\' || *byte < 0x20 {
            return false;
        }
    }
    true
}

/// The same for sixteen bytes or more.
fn plain_many(bytes: &[u8]) -> bool
    requires { 16 ≤ length bytes.now }
    ensures { OnTrue result (PlainBetween bytes.now 0 (length bytes.now)) }
{
    let mut at = 0;
    while bytes.len() - at > 16 {
        if !plain_16(bytes, at) {
            return false;
        }
        at += 16;
    }
    plain_16(bytes, bytes.len() - 16)
}

/// The same for sixteen bytes or fewer.
fn plain_short(bytes: &[u8]) -> bool
    requires { length bytes.now ≤ 16 }
    ensures { OnTrue result (PlainBetween bytes.now 0 (length bytes.now)) }
{
    let len = bytes.len();
    if len >= 8 {
        plain_8(bytes, 0) && plain_8(bytes, len - 8)
    } else {
        plain_few(bytes)
    }
}

/// Returns whether a JSON string holds the bytes as they are. May return false for such bytes too.
pub(crate) fn needs_no_escape(bytes: &[u8]) -> bool
    ensures { OnTrue result (escape bytes.now ≡ bytes.now) }
{
    if bytes.len() < 16 {
        plain_short(bytes)
    } else {
        plain_many(bytes)
    }
}
