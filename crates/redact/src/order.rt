//! The order of places: by the bytes of their JSON pointers (RFC 6901 section 3). No pointer is printed.

ghost use Rattle.std.specs.Prelude.{◌≡◌, ◌≤◌, length, drop};
ghost use Rattle.std.specs.Ordering.{nat_cmp};
ghost use Rattle.std.specs.Cmp.Lexicographic.{slice_cmp};
ghost use Rattle.iodef_tree.specs.Pointer.{pointer_text};
ghost use Rattle.redact.specs.inner.Tokens.{token_of, path_of};
ghost use Rattle.redact.specs.inner.Weights.{weights, first_weight};
ghost use Rattle.redact.specs.inner.Weights as spec;

use crate::trail::{Token, is_same};
use std::cmp::Ordering;

/// Returns the weight of a byte in the order of printed tokens: `~` is printed as `~0` and `/` as `~1`.
fn weight(byte: u8) -> u16
    ensures { result ≡ spec.weight byte }
{
    match byte {
        b'/' => 127,
        0..=126 => u16::from(byte),
        _ => u16::from(byte) + 1,
    }
}

/// Returns the weight of the byte at this place of the token. Behind the last byte it is that of a slash, if another
/// token follows.
fn weight_at(token: &[u8], place: usize, is_followed: bool) -> Option<u16>
    requires { place ≤ length token.now }
    ensures { result ≡ first_weight (drop place token.now) is_followed }
{
    match token.get(place) {
        Some(byte) => Some(weight(*byte)),
        None if is_followed => Some(u16::from(b'/')),
        None => None,
    }
}

/// Compares two tokens as they are printed, each with the slash behind it if another token follows.
#[tactic(auto, using(crate::proofs::PrintedOrder::turn_same, crate::proofs::PrintedOrder::turn_apart, crate::proofs::PrintedOrder::at_end))]
fn compare_bytes(
    one: &[u8],
    one_is_followed: bool,
    other: &[u8],
    other_is_followed: bool,
) -> Ordering
    ensures { result ≡
        slice_cmp nat_cmp (weights one.now one_is_followed)
        (weights other.now other_is_followed) }
{
    let shorter = one.len().min(other.len());
    for i in 0..shorter {
        if one[i] != other[i] {
            return weight(one[i]).cmp(&weight(other[i]));
        }
    }
    weight_at(one, shorter, one_is_followed).cmp(&weight_at(other, shorter, other_is_followed))
}

/// The same for tokens that are names or places.
fn compare_tokens(
    one: Token<'_>,
    one_is_followed: bool,
    other: Token<'_>,
    other_is_followed: bool,
) -> Ordering
    ensures { result ≡
        slice_cmp nat_cmp (weights (token_of one.entry) one_is_followed)
        (weights (token_of other.entry) other_is_followed) }
{
    let mut digits = itoa::Buffer::new();
    let mut other_digits = itoa::Buffer::new();
    compare_bytes(
        one.as_str(&mut digits).as_bytes(),
        one_is_followed,
        other.as_str(&mut other_digits).as_bytes(),
        other_is_followed,
    )
}

/// Compares two paths by the bytes of their JSON pointers. Allocates nothing.
#[tactic(auto, using(crate::proofs::PrintedOrder::same_first, crate::proofs::PrintedOrder::other_first))]
pub fn compare(one: &[Token<'_>], other: &[Token<'_>]) -> Ordering
    ensures { result ≡
        slice_cmp nat_cmp (pointer_text (path_of one.now)) (pointer_text (path_of other.now)) }
{
    match (one.split_first(), other.split_first()) {
        (None, None) => Ordering::Equal,
        (None, Some(_)) => Ordering::Less,
        (Some(_), None) => Ordering::Greater,
        (Some((first, behind)), Some((second, rest))) => {
            if is_same(*first, *second) {
                compare(behind, rest)
            } else {
                compare_tokens(*first, !behind.is_empty(), *second, !rest.is_empty())
            }
        }
    }
}
