//! A search of the texts that a reader may see: a pass of its own, which carries the same as that of an excerpt, makes
//! no excerpt and stops at the first class that answers.

ghost use Rattle.std.specs.Prelude.{◌≡◌, ◌||◌, IfOk, option_map, map};
ghost use Rattle.std.specs.List.{AllByRecursion};
ghost use Rattle.iodef_tree.specs.Filled.{IsFilled, IsMemberFilled, IsItemFilled};
ghost use Rattle.iodef_tree.specs.View.{forest, bodies, body};
ghost use Rattle.policy.specs.Ahead.{ahead_of, met_by};
ghost use Rattle.policy.specs.Inherited.{carried};
ghost use Rattle.redact.specs.Told.{is_named};
ghost use Rattle.redact.specs.Told as spec;
ghost use Rattle.redact.specs.inner.Tokens.{token_of, path_of};
ghost use Rattle.redact.specs.inner.Search.{asked_of, body_hits, bodies_hit, members_hit, class_hits, found, found_at, found_items, found_member};

use crate::reader::Reader;
use crate::trail::Token;
use iodef_tree::{Document, Item, Member, Object};
use marking::class::written;
use memchr::memmem::Finder;
use policy::{Ahead, Carried, Case, Standing};
use std::alloc::{AllocError, Global};

/// What is asked of a class that the reader may see.
#[derive(Drop)]
enum Asked<'a> {
    /// Nothing more.
    Anything,
    /// It directly holds a text with the needle, and has this name if one is given.
    Holding {
        finder: Finder<'a>,
        class: Option<&'a str>,
    },
}

/// The reader and the question of a search.
#[derive(Drop)]
struct Search<'a> {
    alloc: Global,
    reader: Reader<'a>,
    asked: Asked<'a>,
}

/// Returns whether the reader may see some class of the document, which is whether `excerpt` would return one. Copies
/// no text and makes no excerpt. Fails if memory runs out.
pub fn is_listed(
    alloc: Global,
    document: &Document,
    case: &Case,
    standing: &Standing,
) -> Result<bool, AllocError>
    ensures { IfOk result (λ b. b ≡ spec.is_listed document.now case.now standing.entry.now) }
{
    shows_some(alloc, document, case, standing)
}

/// The same, with one lifetime for what is searched.
fn shows_some<'a>(
    alloc: Global,
    document: &'a Document,
    case: &'a Case,
    standing: &'a Standing,
) -> Result<bool, AllocError>
    ensures { IfOk result (λ b. b ≡ spec.is_listed document.now case.now standing.entry.now) }
{
    let search = Search {
        alloc,
        reader: Reader { case, standing },
        asked: Asked::Anything,
    };
    let mut trail = Vec::new(alloc);
    let ahead = search.reader.ahead(alloc)?;
    let above = search.reader.at_root(&ahead);
    search.among(&mut trail, &ahead, above, document.root())
}

/// Returns whether a class that the reader may see directly holds a text that contains `needle`, byte for byte. If
/// `class` is given, only classes of that name are searched.
///
/// A label that an excerpt adds is no stored text, so it isn't found. Nor is the header, which belongs to no class.
/// Fails if memory runs out.
pub fn finds(
    alloc: Global,
    document: &Document,
    case: &Case,
    standing: &Standing,
    needle: &str,
    class: Option<&str>,
) -> Result<bool, AllocError>
    ensures { IfOk result (λ b. b ≡
        spec.finds document.now case.now standing.entry.now needle.now
        (option_map (λ name. name.now) class.entry)) }
{
    found(alloc, document, case, standing, needle, class)
}

/// The same, with one lifetime for what is searched.
fn found<'a>(
    alloc: Global,
    document: &'a Document,
    case: &'a Case,
    standing: &'a Standing,
    needle: &'a str,
    class: Option<&'a str>,
) -> Result<bool, AllocError>
    ensures { IfOk result (λ b. b ≡
        spec.finds document.now case.now standing.entry.now needle.now
        (option_map (λ name. name.now) class.entry)) }
{
    let search = Search {
        alloc,
        reader: Reader { case, standing },
        asked: Asked::Holding {
            finder: Finder::new(needle.as_bytes()),
            class,
        },
    };
    let mut trail = Vec::new(alloc);
    let ahead = search.reader.ahead(alloc)?;
    let above = search.reader.at_root(&ahead);
    search.among(&mut trail, &ahead, above, document.root())
}

/// Returns whether an item is a text that contains the needle.
#[tactic(auto, using(crate::proofs::Needles::finds_has))]
fn hits(item: &Item, finder: &Finder<'_>) -> bool
    ensures { result ≡ body_hits finder.now (body item.now) }
{
    match item {
        Item::Class(_) => false,
        Item::Text(text) => finder.find(text.as_str().as_bytes()).is_some(),
        Item::Value(_) => false,
    }
}

/// Returns whether a member is, or an element of it is, such a text.
#[tactic(auto, using(crate::proofs::Searching::any_map))]
fn member_hits(member: &Member, finder: &Finder<'_>) -> bool
    ensures { result ≡ bodies_hit finder.now (bodies member.now) }
{
    match member {
        Member::One(item) => hits(item, finder),
        Member::Many(items) => items.as_slice().iter().any(|item| hits(item, finder)),
    }
}

/// Returns whether a class with these members directly holds a text that contains the needle.
fn holds(object: &Object, finder: &Finder<'_>) -> bool
    ensures { result ≡ members_hit finder.now (forest object.now) }
{
    for (_, member) in &object.members {
        if member_hits(member, finder) {
            return true;
        }
    }
    false
}

/// Returns whether the name is the one that is asked for, if one is.
fn is_name(class: Option<&str>, name: &str) -> bool
    ensures { result ≡ is_named (option_map (λ n. n.now) class.entry) name.now }
{
    match class {
        None => true,
        Some(class) => class == name,
    }
}

impl<'a> Asked<'a> {
    /// Returns whether a class of this name and with these members answers.
    fn is_met(&self, name: &str, object: &Object) -> bool
        ensures { result ≡ asked_of self.now name.now (forest object.now) }
    {
        match self {
            Asked::Anything => true,
            Asked::Holding { finder, class } => is_name(*class, name) && holds(object, finder),
        }
    }
}

impl<'a> Search<'a> {
    /// Returns whether a class among the members of the class at `above`, or below them, answers.
    #[cycle(search)]
    fn among(
        &self,
        trail: &mut Vec<Token<'a>>,
        ahead: &Ahead<'a>,
        above: Carried<'a>,
        object: &'a Object,
    ) -> Result<bool, AllocError>
        requires filled { IsFilled object.now }
        requires ahead { met_by ahead.now ≡
            ahead_of self.now.reader.case.now self.now.reader.standing.now
            (path_of trail.old.items) }
        ensures found { IfOk result (λ b. b ≡
            found self.now.reader.case.now self.now.reader.standing.now (asked_of self.now.asked)
            (carried (path_of trail.old.items) above.entry) (forest object.now)) }
        ensures trail { IfOk result (λ b. trail.new.items ≡ trail.old.items) }
    {
        for (name, member) in &object.members {
            if self.in_member(trail, ahead, above, name.as_str(), member)? {
                return Ok(true);
            }
        }
        Ok(false)
    }

    /// Returns whether a class in a member answers.
    #[cycle(search)]
    fn in_member(
        &self,
        trail: &mut Vec<Token<'a>>,
        ahead: &Ahead<'a>,
        above: Carried<'a>,
        name: &'a str,
        member: &'a Member,
    ) -> Result<bool, AllocError>
        requires filled { IsMemberFilled member.now }
        requires ahead { met_by ahead.now ≡
            ahead_of self.now.reader.case.now self.now.reader.standing.now
            (path_of trail.old.items) }
        ensures found { IfOk result (λ b. b ≡
            found_member self.now.reader.case.now self.now.reader.standing.now
            (asked_of self.now.asked)
            (carried (path_of trail.old.items) above.entry) name.now (bodies member.now)) }
        ensures trail { IfOk result (λ b. trail.new.items ≡ trail.old.items) }
    {
        match member {
            Member::One(item) => self.at(trail, ahead, above, Token::Name(name), name, item),
            Member::Many(items) => {
                let inside = self
                    .reader
                    .step(self.alloc, trail, ahead, Token::Name(name))?;
                let array = self.reader.at_array(trail.as_slice(), &inside, above);
                let found = self.in_array(trail, &inside, array, name, items)?;
                trail.pop();
                Ok(found)
            }
        }
    }

    /// Returns whether a class in the elements of an array answers.
    #[cycle(search)]
    fn in_array(
        &self,
        trail: &mut Vec<Token<'a>>,
        ahead: &Ahead<'a>,
        array: Carried<'a>,
        name: &'a str,
        items: &'a Vec<Item>,
    ) -> Result<bool, AllocError>
        requires filled { AllByRecursion IsItemFilled items.now.items }
        requires ahead { met_by ahead.now ≡
            ahead_of self.now.reader.case.now self.now.reader.standing.now
            (path_of trail.old.items) }
        ensures found { IfOk result (λ b. b ≡
            found_items self.now.reader.case.now self.now.reader.standing.now
            (asked_of self.now.asked)
            (carried (path_of trail.old.items) array.entry) name.now 0 (map body items.now.items)) }
        ensures trail { IfOk result (λ b. trail.new.items ≡ trail.old.items) }
    {
        for (i, item) in items.iter().enumerate() {
            if self.at(trail, ahead, array, Token::Index(i), name, item)? {
                return Ok(true);
            }
        }
        Ok(false)
    }

    /// Returns whether a class in the item under a token answers; the item is in a member of this name.
    #[cycle(search)]
    fn at(
        &self,
        trail: &mut Vec<Token<'a>>,
        ahead: &Ahead<'a>,
        door: Carried<'a>,
        token: Token<'a>,
        name: &'a str,
        item: &'a Item,
    ) -> Result<bool, AllocError>
        requires filled { IsItemFilled item.now }
        requires ahead { met_by ahead.now ≡
            ahead_of self.now.reader.case.now self.now.reader.standing.now
            (path_of trail.old.items) }
        ensures found { IfOk result (λ b. b ≡
            found_at self.now.reader.case.now self.now.reader.standing.now (asked_of self.now.asked)
            (carried (path_of trail.old.items) door.entry) (token_of token.entry) name.now
            (body item.now)) }
        ensures trail { IfOk result (λ b. trail.new.items ≡ trail.old.items) }
    {
        match item {
            Item::Class(object) => {
                let inside = self.reader.step(self.alloc, trail, ahead, token)?;
                let at = self
                    .reader
                    .at_class(trail.as_slice(), &inside, door, written(object));
                let found = self.in_class(trail, &inside, at, name, object)?;
                trail.pop();
                Ok(found)
            }
            Item::Text(_) => Ok(false),
            Item::Value(_) => Ok(false),
        }
    }

    /// Returns whether the class at the path of the search answers, or a class below it.
    #[cycle(search)]
    fn in_class(
        &self,
        trail: &mut Vec<Token<'a>>,
        ahead: &Ahead<'a>,
        at: Carried<'a>,
        name: &'a str,
        object: &'a Object,
    ) -> Result<bool, AllocError>
        requires filled { IsFilled object.now }
        requires ahead { met_by ahead.now ≡
            ahead_of self.now.reader.case.now self.now.reader.standing.now
            (path_of trail.old.items) }
        ensures found { IfOk result (λ b.
            let k = carried (path_of trail.old.items) at.entry in
            b ≡ (class_hits self.now.reader.case.now self.now.reader.standing.now
            (asked_of self.now.asked) k name.now (forest object.now)
            || found self.now.reader.case.now self.now.reader.standing.now
            (asked_of self.now.asked) k (forest object.now))) }
        ensures trail { IfOk result (λ b. trail.new.items ≡ trail.old.items) }
    {
        if self.reader.sees(at) && self.asked.is_met(name, object) {
            return Ok(true);
        }
        self.among(trail, ahead, at, object)
    }
}
