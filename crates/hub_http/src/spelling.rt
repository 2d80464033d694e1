//! Reading the texts of parameters.
ghost use Rattle.std.specs.Prelude.{◌≡◌, ℕ, List, Ok, length, codes};
ghost use Rattle.std.specs.List.{list_all};
ghost use Rattle.std.specs.Char.{is_ascii_digit};
ghost use Rattle.hub_http.specs.Outcome.{Yields, YieldsAs};
ghost use Rattle.hub_http.specs.Spelling as spec;
ghost use Rattle.hub_http.specs.inner.Texts.{texts};

use crate::request_fault::RequestFault;
use circle::directory::{Handling, Role};
use circle::text::Text;
use hub_core::{WantedGate, WantedGates};
use policy::MomentFault;
use std::alloc::Global;

pub(crate) fn has_digits_alone(text: &[u8]) -> bool
    ensures { result ≡ list_all is_ascii_digit text.now }
{
    text.iter().all(|b| b.is_ascii_digit())
}

/// Whether a text is decimal digits without a leading zero.
fn is_numeral(text: &[u8]) -> bool
    ensures { result ≡ spec.is_numeral text.now }
{
    if text.is_empty() || !has_digits_alone(text) {
        return false;
    }
    if text[0] == b'0' {
        return text.len() == 1;
    }
    true
}

/// Reads a number below 2^32 in decimal digits without a leading zero.
#[tactic(auto, unfolding(crate::specs::Spelling::number))]
pub(crate) fn read_number(text: &str) -> Result<u32, RequestFault>
    ensures { Yields result (spec.number text.now) }
{
    if !is_numeral(text.as_bytes()) {
        return Err(RequestFault::BadBody);
    }
    match text.parse::<u32>() {
        Ok(n) => Ok(n),
        Err(_) => Err(RequestFault::BadBody),
    }
}

/// Reads a moment, as policy does.
#[tactic(auto, unfolding(crate::specs::Spelling::moment))]
pub(crate) fn read_moment(text: &str) -> Result<i64, RequestFault>
    ensures { Yields result (spec.moment text.now) }
{
    match policy::read_moment(text) {
        Ok(moment) => Ok(moment),
        Err(MomentFault::BadMoment) => Err(RequestFault::BadBody),
        Err(MomentFault::NoMemory) => Err(RequestFault::NoMemory),
    }
}

#[tactic(auto, unfolding(crate::specs::Spelling::flag))]
pub(crate) fn read_flag(text: &str) -> Result<bool, RequestFault>
    ensures { Yields result (spec.flag text.now) }
{
    if text == "0" {
        Ok(false)
    } else if text == "1" {
        Ok(true)
    } else {
        Err(RequestFault::BadBody)
    }
}

#[tactic(auto, unfolding(crate::specs::Spelling::role_named))]
pub(crate) fn read_role(text: &str) -> Result<Role, RequestFault>
    ensures { Yields result (spec.role_named text.now) }
{
    if text == "administrator" {
        Ok(Role::Administrator)
    } else if text == "coordinator" {
        Ok(Role::Coordinator)
    } else if text == "poster" {
        Ok(Role::Poster)
    } else if text == "reader" {
        Ok(Role::Reader)
    } else {
        Err(RequestFault::BadBody)
    }
}

#[tactic(auto, unfolding(crate::specs::Spelling::handling_named))]
pub(crate) fn read_handling(text: &str) -> Result<Handling, RequestFault>
    ensures { Yields result (spec.handling_named text.now) }
{
    if text == "CLEAR" {
        Ok(Handling::Clear)
    } else if text == "GREEN" {
        Ok(Handling::Green)
    } else if text == "AMBER" {
        Ok(Handling::Amber)
    } else if text == "STRICT" {
        Ok(Handling::Strict)
    } else if text == "RED" {
        Ok(Handling::Red)
    } else {
        Err(RequestFault::BadBody)
    }
}

/// Reads the 32 bytes of a digest from 64 hexadecimal digits.
#[tactic(auto, unfolding(crate::specs::Spelling::digest))]
pub(crate) fn read_digest(text: &str) -> Result<[u8; 32], RequestFault>
    ensures { Yields result (spec.digest text.now) }
{
    let mut bytes = [0; 32];
    match hex::decode_to_slice(text, &mut bytes) {
        Ok(()) => Ok(bytes),
        Err(_) => Err(RequestFault::BadBody),
    }
}

/// The text before its first colon and after it.
#[tactic(auto, unfolding(crate::specs::Spelling::parts))]
fn parts_of(text: &str) -> Result<(&str, &str), RequestFault>
    ensures { YieldsAs (λ p. (p.0.now, p.1.now)) result (spec.parts text.now) }
{
    match text.split_once(':') {
        Some(found) => Ok(found),
        None => Err(RequestFault::BadBody),
    }
}

pub(crate) fn text_of(alloc: Global, text: &str) -> Result<Text, RequestFault>
    ensures { Yields result (Ok text.now) }
{
    Ok(Text::of(alloc, text)?)
}

/// Reads a gate from `LEVEL:GROUP:POINTER`.
#[tactic(auto, unfolding(crate::specs::Spelling::gate))]
fn read_gate(alloc: Global, text: &str) -> Result<WantedGate, RequestFault>
    ensures { Yields result (spec.gate text.now) }
{
    let (level, rest) = parts_of(text)?;
    let level = read_number(level)?;
    let (group, pointer) = parts_of(rest)?;
    let group = read_number(group)?;
    // only inside a gate; the parameter `group=0` names a group, which is missing
    let group = if group == 0 { None } else { Some(group) };
    let path = text_of(alloc, pointer)?;
    Ok(WantedGate { level, group, path })
}

/// Reads a gate from each of these texts.
pub(crate) fn read_gates(alloc: Global, found: &[&str]) -> Result<WantedGates, RequestFault>
    ensures { Yields result (spec.gates (texts found.now)) }
{
    let mut gates = Vec::new(alloc);
    for text in found {
        match read_gate(alloc, text) {
            Ok(gate) => gates.push(gate)?,
            Err(e) => return Err(e),
        }
    }
    Ok(WantedGates::new(gates))
}
