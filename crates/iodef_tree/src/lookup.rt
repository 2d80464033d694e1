//! The class at a path, found token by token from the root. Allocates nothing.

ghost use Rattle.std.specs.Prelude.{
  ◌≡◌,
  ◌≤◌,
  ◌<◌,
  ◌^◌,
  ◌∷◌,
  length,
  map,
  ℕ,
  decimal,
  IfSome,
  IfNone,
  option_map,
};
ghost use Rattle.std.specs.Option.{option_map_or};
ghost use Rattle.std.specs.List.{AllByRecursion};
ghost use Rattle.iodef_tree.specs.Filled.{IsFilled, IsMemberFilled, IsItemFilled};
ghost use Rattle.iodef_tree.specs.inner.Lookup.{class_at as class_in_tree, object_at as object_in_tree, object_in, element_at as element_of, part_at};
ghost use Rattle.iodef_tree.specs.View.{forest, bodies, body};

use crate::object::{Item, Member, Object};
use json_pointer::Text;

/// Returns the place whose decimal digits the token is.
fn place_of_token(token: &str) -> Option<usize>
    ensures some { IfSome result (λ k. token.now ≡ decimal k) }
    ensures none { IfNone result ((k : ℕ) → k < 2 ^ 64 → token.now ≡ decimal k → ⊥) }
{
    let place = token.parse::<usize>().ok()?;
    let mut buffer = itoa::Buffer::new();
    if buffer.format(place) == token {
        Some(place)
    } else {
        None
    }
}

/// Returns the element whose place the token spells.
fn element_at<'a>(items: &'a [Item], token: &str) -> Option<&'a Item>
    requires { AllByRecursion IsItemFilled items.now }
    ensures found { option_map (λ i. body i.now) result ≡
        element_of token.now 0 (map body items.now) }
    ensures filled { IfSome result (λ i. IsItemFilled i.now) }
{
    items.get(place_of_token(token)?)
}

/// Returns what the next tokens name in a member, and the tokens that are left.
fn part_of<'a, 'p>(member: &'a Member, path: &'p [Text]) -> Option<(&'a Item, &'p [Text])>
    requires { IsMemberFilled member.now }
    ensures parts { option_map (λ r. (body r.0.now, r.1.now)) result ≡
        part_at (bodies member.now) path.now }
    ensures filled { IfSome result (λ r. IsItemFilled r.0.now) }
    ensures shorter { IfSome result (λ r. length r.1.now ≤ length path.now) }
{
    match member {
        Member::One(item) => Some((item, path)),
        Member::Many(items) => {
            let (token, rest) = path.split_first()?;
            let item = element_at(items, token.as_str())?;
            Some((item, rest))
        }
    }
}

/// Returns what this name and the next tokens name in an object, and the tokens that are left.
fn item_at<'a, 'p>(
    object: &'a Object,
    name: &str,
    path: &'p [Text],
) -> Option<(&'a Item, &'p [Text])>
    requires { IsFilled object.now }
    ensures filled { IfSome result (λ r. IsItemFilled r.0.now) }
    ensures parts { option_map_or (λ r. object_in (body r.0.now) r.1.now) result None
        ≡ class_in_tree (forest object.now) (name.now ∷ path.now) }
    ensures shorter { IfSome result (λ r. length r.1.now ≤ length path.now) }
{
    for (own, member) in &object.members {
        if own.as_str() == name {
            let part = part_of(member, path);
            if part.is_some() {
                return part;
            }
        }
    }
    None
}

/// Returns the object at a path, seen from an object whose path is empty.
pub(crate) fn object_at<'a>(root: &'a Object, path: &[Text]) -> Option<&'a Object>
    requires { IsFilled root.now }
    ensures found { option_map (λ o. forest o.now) result ≡
        object_in_tree (forest root.now) path.now }
    ensures filled { IfSome result (λ o. IsFilled o.now) }
{
    let mut object = root;
    let mut left = path;
    while let Some((name, behind)) = left.split_first() {
        let (item, rest) = item_at(object, name.as_str(), behind)?;
        match item {
            Item::Class(inner) => {
                object = inner;
                left = rest;
            }
            Item::Text(_) | Item::Value(_) => return None,
        }
    }
    Some(object)
}
