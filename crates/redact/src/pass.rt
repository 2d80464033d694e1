//! One pass down a document, which carries what is inherited from above. A class that isn't visible is decided when it
//! is known what is kept below it.

ghost use Rattle.std.specs.Prelude.{◌≡◌, ◌≤◌, ◌∷◌, ◌++◌, [], IfOk, OnOk, IfSome, length, take, map, option_map, is_none, ◌&&◌, ◌+◌, not, true, false};
ghost use Rattle.std.specs.Prelude.{if◌then◌else◌, Some, None};
ghost use Rattle.iodef_tree.specs.View.{forest, bodies, body};
ghost use Rattle.marking.specs.Members.{spelled_in};
ghost use Rattle.marking.specs.Label.{marking_of};
ghost use Rattle.redact.specs.Told.{attributes_of};
ghost use Rattle.redact.specs.inner.Judged.{inside, is_end, put_attributes, with_label, shows_label, withheld_below, visible_classes};
ghost use Rattle.redact.specs.inner.Judged as spec;
ghost use Rattle.redact.specs.inner.Pass.{judgment_by};
ghost use Rattle.redact.specs.inner.Here.{carries, judged_for, LiesAhead};
ghost use Rattle.iodef_tree.specs.Text.{Tokens};
ghost use Rattle.iodef_tree.specs.Tree.{Content, many, says};
ghost use Rattle.policy.specs.Inherited.{hides};
ghost use Rattle.std.specs.List.{AllByRecursion};
ghost use Rattle.iodef_tree.specs.Filled.{IsFilled, IsMemberFilled, IsItemFilled};
ghost use Rattle.redact.specs.inner.Tokens.{token_of, path_of};
ghost use Rattle.redact.specs.Withheld.{at_place};
ghost use Rattle.redact.specs.inner.Left.{home_of, class_left, class_told, class_count, left_at, told_at, count_at, left_items, told_items, count_items};
ghost use Rattle.redact.specs.inner.Left.{left_member, told_member, count_member, Goes, Tells, Leaves};

use crate::attributes::put_label;
use crate::note::{Note, add};
use crate::reader::Reader;
use crate::trail::Token;
use iodef_tree::{Item, Member, Object, Text};
use marking::Label;
use marking::class::written;
use policy::{Ahead, Carried, Rule};
use std::alloc::{AllocError, Global};
use std::mem::replace;

/// Where members are: in the root, or in a class that is visible or not.
#[derive(Clone, Copy)]
pub enum Surrounding {
    /// In the root.
    Root,
    /// In a class; true if it is visible.
    Class(bool),
}

/// Where an item is, one token below its class or array: in the document, and in the excerpt if it is kept.
#[derive(Clone, Copy)]
struct Slot<'a> {
    token: Token<'a>,
    place: Token<'a>,
    /// How many tokens lead to its class in the excerpt.
    base: usize,
}

/// Where the pass is, in the document and in the excerpt, and what it found so far. The two places are stacks of
/// borrowed names and numbers; the pass makes no path.
#[derive(Drop)]
pub struct State<'a> {
    pub alloc: Global,
    /// The tokens of the place in the document.
    pub path: Vec<Token<'a>>,
    /// The tokens of the place in the excerpt.
    pub place: Vec<Token<'a>>,
    /// How many visible classes there were.
    pub classes: u32,
    /// What is withheld, as far as it is noted.
    pub withheld: Vec<Note<'a>>,
    /// The rules of the wholly hidden children of the class whose members are read, each once. They are noted when it
    /// is known that the class is kept, so no note is taken back.
    pub rules_met: Vec<Rule>,
}

/// Returns whether plain members are served there.
fn keeps_plain(home: Surrounding) -> bool
    ensures { result ≡ spec.keeps_plain (home_of home) }
{
    match home {
        Surrounding::Root => true,
        Surrounding::Class(visible) => visible,
    }
}

/// Returns whether the class around shows its label in the excerpt.
fn shows(home: Surrounding) -> bool
    ensures { result ≡ shows_label (home_of home) }
{
    match home {
        Surrounding::Root => false,
        Surrounding::Class(visible) => visible,
    }
}

/// Returns whether a visible class has to say its label itself.
fn needs_label(home: Surrounding, object: &Object) -> bool
    requires { IsFilled object.now }
    ensures { result ≡ (is_none (spelled_in (forest object.now)) &&
        not (shows_label (home_of home))) }
{
    written(object).is_none() && !shows(home)
}

/// Returns what is kept of a visible class, with its label if it has to say it.
fn with_own_label(
    alloc: Global,
    home: Surrounding,
    object: &Object,
    kept: Object,
    label: Label<'_>,
) -> Result<Object, AllocError>
    requires { IsFilled object.now × IsFilled kept }
    ensures left { IfOk result (λ o. forest o ≡
        (if is_none (spelled_in (forest object.now)) && not (shows_label (home_of home))
        then put_attributes (attributes_of (marking_of label.entry)) (forest kept)
        else forest kept)) }
    ensures filled { IfOk result (λ o. IsFilled o) }
{
    if needs_label(home, object) {
        put_label(alloc, kept, label)
    } else {
        Ok(kept)
    }
}

/// Notes each of the rules at the place of the pass.
pub fn tell(state: &mut State<'_>, rules: &[Rule]) -> Result<(), AllocError>
    ensures { OnOk result (Tells state.old state.new rules.now) }
{
    for rule in rules {
        let here = Note::new(state.alloc, state.place.as_slice(), *rule)?;
        state.withheld.push(here)?;
    }
    Ok(())
}

/// Appends what is kept of a member.
fn push_member(
    members: &mut Vec<(Text, Member)>,
    name: &Text,
    kept: Member,
) -> Result<(), AllocError>
    ensures { OnOk result (members.new.items ≡ members.old.items ++ (name.now, kept) ∷ []) }
{
    members.push((name.clone()?, kept))?;
    Ok(())
}

/// Returns what is kept of a text or another plain value.
fn plain_left(home: Surrounding, item: &Item) -> Result<Option<Item>, AllocError>
    ensures left { IfOk result (λ r.
        (c : Content) → body item.now ≡ says c →
        option_map body r ≡ (if spec.keeps_plain (home_of home) then Some (says c) else None)) }
    ensures filled { IfOk result (λ r. IfSome r (λ i. IsItemFilled i)) }
{
    if !keeps_plain(home) {
        return Ok(None);
    }
    match item {
        Item::Class(_) => Ok(None),
        Item::Text(text) => Ok(Some(Item::Text(text.clone()?))),
        Item::Value(text) => Ok(Some(Item::Value(text.clone()?))),
    }
}

/// Notes the rules met in this class, and goes back to those met in the class around.
fn tell_and_leave(state: &mut State<'_>, outside: Vec<Rule>) -> Result<(), AllocError>
    ensures withheld { OnOk result (state.new.withheld.items ≡
        state.old.withheld.items ++ at_place
        (path_of state.old.place.items) state.old.rules_met.items) }
    ensures gone { OnOk result (state.new.rules_met.items ≡ outside.items) }
    ensures path { OnOk result (state.new.path.items ≡ state.old.path.items) }
    ensures place { OnOk result (state.new.place.items ≡ state.old.place.items) }
    ensures classes { OnOk result (state.new.classes ≡ state.old.classes) }
{
    let gone = replace(&mut state.rules_met, outside);
    tell(state, gone.as_slice())
}

/// Leaves a class that isn't visible, and goes back to the rules met in the class around. If something of it is kept,
/// its rule is noted at its place with those met in it. If not, its rule is one of those met in the class around.
fn leave_hidden(
    state: &mut State<'_>,
    outside: Vec<Rule>,
    rule: Rule,
    kept: Object,
) -> Result<Option<Object>, AllocError>
    requires { IsFilled kept }
    ensures left { IfOk result (λ r. r ≡ (if is_end (forest kept) then None else Some kept)) }
    ensures leaves { OnOk result (Leaves state.old state.new outside.items rule
        (is_end (forest kept))) }
{
    let mut gone = replace(&mut state.rules_met, outside);
    if kept.members.is_empty() {
        add(&mut state.rules_met, rule)?;
        Ok(None)
    } else {
        add(&mut gone, rule)?;
        tell(state, gone.as_slice())?;
        Ok(Some(kept))
    }
}

impl<'a> Reader<'a> {
    /// Returns what is kept of the members of the class at `above`.
    #[cycle(cut)]
    pub fn cut(
        &self,
        state: &mut State<'a>,
        home: Surrounding,
        ahead: &Ahead<'a>,
        above: Carried<'a>,
        object: &'a Object,
    ) -> Result<Object, AllocError>
        requires filled { IsFilled object.now }
        requires ahead { LiesAhead self.now state.old.path.items ahead.now }
        ensures left { IfOk result (λ o. forest o ≡ spec.cut (home_of home) 0
            (judged_for self.now state.old.path.items above.entry (forest object.now))) }
        ensures filled { IfOk result (λ o. IsFilled o) }
        ensures goes { IfOk result (λ o.
            let judged = judged_for self.now state.old.path.items above.entry (forest object.now) in
            Goes (path_of state.old.place.items) state.old state.new
            (withheld_below (home_of home) (path_of state.old.place.items) 0 judged) []
            (visible_classes judged) 0) }
        ensures quiet { IfOk result (λ o.
            length o.members.items ≡ 0 → state.new.withheld.items ≡ state.old.withheld.items) }
    {
        let mut members = Vec::new(state.alloc);
        for (name, member) in &object.members {
            if let Some(kept) = self.cut_member(state, home, ahead, above, name.as_str(), member)? {
                push_member(&mut members, name, kept)?;
            }
        }
        Ok(Object { members })
    }

    /// Returns what is kept of a member, if something is.
    #[cycle(cut)]
    fn cut_member(
        &self,
        state: &mut State<'a>,
        home: Surrounding,
        ahead: &Ahead<'a>,
        above: Carried<'a>,
        name: &'a str,
        member: &'a Member,
    ) -> Result<Option<Member>, AllocError>
        requires filled { IsMemberFilled member.now }
        requires ahead { LiesAhead self.now state.old.path.items ahead.now }
        ensures left { IfOk result (λ r. option_map bodies r ≡
            left_member self.now.case.now self.now.standing.now (home_of home)
            (carries state.old.path.items above.entry) name.now (bodies member.now)) }
        ensures filled { IfOk result (λ r. IfSome r (λ m. IsMemberFilled m)) }
        ensures goes { IfOk result (λ r. Goes (path_of state.old.place.items) state.old state.new
            (told_member self.now.case.now self.now.standing.now (home_of home)
            (carries state.old.path.items above.entry) (path_of state.old.place.items) name.now
            (bodies member.now)) []
            (count_member self.now.case.now self.now.standing.now
            (carries state.old.path.items above.entry) name.now (bodies member.now)) 0) }
        ensures quiet { IfOk result (λ r. r ≡ None →
            state.new.withheld.items ≡ state.old.withheld.items) }
    {
        match member {
            Member::One(item) => {
                let slot = Slot {
                    token: Token::Name(name),
                    place: Token::Name(name),
                    base: state.place.len(),
                };
                match self.cut_item(state, home, ahead, above, slot, item)? {
                    Some(kept) => Ok(Some(Member::One(kept))),
                    None => Ok(None),
                }
            }
            Member::Many(items) => self.cut_array(state, home, ahead, above, name, items),
        }
    }

    /// Returns what is kept of an array, if one of its elements is.
    #[cycle(cut)]
    fn cut_array(
        &self,
        state: &mut State<'a>,
        home: Surrounding,
        ahead: &Ahead<'a>,
        above: Carried<'a>,
        name: &'a str,
        items: &'a Vec<Item>,
    ) -> Result<Option<Member>, AllocError>
        requires filled { AllByRecursion IsItemFilled items.now.items }
        requires ahead { LiesAhead self.now state.old.path.items ahead.now }
        ensures left { IfOk result (λ r. option_map bodies r ≡
            left_member self.now.case.now self.now.standing.now (home_of home)
            (carries state.old.path.items above.entry) name.now (many (map body items.now.items))) }
        ensures filled { IfOk result (λ r. IfSome r (λ m. IsMemberFilled m)) }
        ensures goes { IfOk result (λ r. Goes (path_of state.old.place.items) state.old state.new
            (told_member self.now.case.now self.now.standing.now (home_of home)
            (carries state.old.path.items above.entry) (path_of state.old.place.items) name.now
            (many (map body items.now.items))) []
            (count_member self.now.case.now self.now.standing.now
            (carries state.old.path.items above.entry) name.now
            (many (map body items.now.items))) 0) }
        ensures quiet { IfOk result (λ r. r ≡ None →
            state.new.withheld.items ≡ state.old.withheld.items) }
    {
        let base = state.place.len();
        let inside = self.step(state.alloc, &mut state.path, ahead, Token::Name(name))?;
        state.place.push(Token::Name(name))?;
        let array = self.at_array(state.path.as_slice(), &inside, above);
        let kept = self.cut_items(state, home, &inside, array, base, items)?;
        state.path.pop();
        state.place.pop();
        if kept.is_empty() {
            Ok(None)
        } else {
            Ok(Some(Member::Many(kept)))
        }
    }

    /// Returns the elements of an array that are kept.
    #[cycle(cut)]
    fn cut_items(
        &self,
        state: &mut State<'a>,
        home: Surrounding,
        ahead: &Ahead<'a>,
        array: Carried<'a>,
        base: usize,
        items: &'a Vec<Item>,
    ) -> Result<Vec<Item>, AllocError>
        requires base { base ≤ length state.old.place.items }
        requires filled { AllByRecursion IsItemFilled items.now.items }
        requires ahead { LiesAhead self.now state.old.path.items ahead.now }
        ensures left { IfOk result (λ v. map body v.items ≡
            left_items self.now.case.now self.now.standing.now (home_of home)
            (carries state.old.path.items array.entry) 0 (map body items.now.items)) }
        ensures filled { IfOk result (λ v. AllByRecursion IsItemFilled v.items) }
        ensures goes { IfOk result (λ v.
            Goes (path_of (take base state.old.place.items)) state.old state.new
            (told_items self.now.case.now self.now.standing.now (home_of home)
            (carries state.old.path.items array.entry)
            (path_of (take base state.old.place.items)) (path_of state.old.place.items) 0 0
            (map body items.now.items)) []
            (count_items self.now.case.now self.now.standing.now
            (carries state.old.path.items array.entry) 0 (map body items.now.items)) 0) }
        ensures quiet { IfOk result (λ v.
            length v.items ≡ 0 → state.new.withheld.items ≡ state.old.withheld.items) }
    {
        let mut kept = Vec::new(state.alloc);
        for (i, item) in items.iter().enumerate() {
            let slot = Slot {
                token: Token::Index(i),
                // The place is how many elements are kept so far, so the pass needs no order of names.
                place: Token::Index(kept.len()),
                base,
            };
            if let Some(x) = self.cut_item(state, home, ahead, array, slot, item)? {
                kept.push(x)?;
            }
        }
        Ok(kept)
    }

    /// Returns what is kept of the item in a slot.
    #[cycle(cut)]
    fn cut_item(
        &self,
        state: &mut State<'a>,
        home: Surrounding,
        ahead: &Ahead<'a>,
        door: Carried<'a>,
        slot: Slot<'a>,
        item: &'a Item,
    ) -> Result<Option<Item>, AllocError>
        requires base { slot.base ≤ length state.old.place.items }
        requires filled { IsItemFilled item.now }
        requires ahead { LiesAhead self.now state.old.path.items ahead.now }
        ensures left { IfOk result (λ r. option_map body r ≡
            left_at self.now.case.now self.now.standing.now (home_of home)
            (carries state.old.path.items door.entry) (token_of slot.entry.token) (body item.now)) }
        ensures filled { IfOk result (λ r. IfSome r (λ i. IsItemFilled i)) }
        ensures goes { IfOk result (λ r.
            Goes (path_of (take slot.entry.base state.old.place.items)) state.old state.new
            (told_at self.now.case.now self.now.standing.now
            (carries state.old.path.items door.entry)
            (path_of (take slot.entry.base state.old.place.items))
            (path_of (state.old.place.items ++ slot.entry.place ∷ [])) (token_of slot.entry.token)
            (body item.now)) []
            (count_at self.now.case.now self.now.standing.now
            (carries state.old.path.items door.entry) (token_of slot.entry.token) (body item.now)) 0) }
        ensures quiet { IfOk result (λ r. r ≡ None →
            state.new.withheld.items ≡ state.old.withheld.items) }
    {
        match item {
            Item::Class(object) => {
                let inside = self.step(state.alloc, &mut state.path, ahead, slot.token)?;
                state.place.push(slot.place)?;
                let at = self.at_class(state.path.as_slice(), &inside, door, written(object));
                let left = self.cut_class(state, home, &inside, at, slot.base, object)?;
                state.path.pop();
                state.place.pop();
                Ok(left.map(Item::Class))
            }
            _ => plain_left(home, item),
        }
    }

    /// Returns what is kept of the class at the path and place of the pass.
    #[cycle(cut)]
    fn cut_class(
        &self,
        state: &mut State<'a>,
        home: Surrounding,
        ahead: &Ahead<'a>,
        at: Carried<'a>,
        base: usize,
        object: &'a Object,
    ) -> Result<Option<Object>, AllocError>
        requires base { base ≤ length state.old.place.items }
        requires filled { IsFilled object.now }
        requires ahead { LiesAhead self.now state.old.path.items ahead.now }
        ensures left { IfOk result (λ r. option_map forest r ≡ (
            let k = carries state.old.path.items at.entry in
            class_left self.now.case.now self.now.standing.now (home_of home)
            (judgment_by self.now.case.now self.now.standing.now k
            (spelled_in (forest object.now)))
            (judged_for self.now state.old.path.items at.entry (forest object.now)))) }
        ensures filled { IfOk result (λ r. IfSome r (λ o. IsFilled o)) }
        ensures goes { IfOk result (λ r.
            let k = carries state.old.path.items at.entry in
            let judged = judged_for self.now state.old.path.items at.entry (forest object.now) in
            let label = spelled_in (forest object.now) in
            let j = judgment_by self.now.case.now self.now.standing.now k label in
            Goes (path_of (take base state.old.place.items)) state.old state.new
            (class_told self.now.case.now self.now.standing.now
            (path_of (take base state.old.place.items))
            (path_of state.old.place.items) j judged) []
            (class_count self.now.case.now self.now.standing.now j judged) 0) }
        ensures quiet { IfOk result (λ r. r ≡ None →
            state.new.withheld.items ≡ state.old.withheld.items) }
    {
        if self.sees(at) {
            let kept = self.cut_seen(state, home, ahead, at, object)?;
            Ok(Some(kept))
        } else {
            self.cut_hidden(state, ahead, at, base, object)
        }
    }

    /// Returns what is kept of a visible class. It says its label itself if none is written in it and the class around
    /// it isn't visible.
    #[cycle(cut)]
    fn cut_seen(
        &self,
        state: &mut State<'a>,
        home: Surrounding,
        ahead: &Ahead<'a>,
        at: Carried<'a>,
        object: &'a Object,
    ) -> Result<Object, AllocError>
        requires filled { IsFilled object.now }
        requires ahead { LiesAhead self.now state.old.path.items ahead.now }
        ensures left { IfOk result (λ o. forest o ≡ (
            let k = carries state.old.path.items at.entry in
            with_label (home_of home)
            (judgment_by self.now.case.now self.now.standing.now k
            (spelled_in (forest object.now)))
            (spec.cut (inside true) 0
            (judged_for self.now state.old.path.items at.entry (forest object.now))))) }
        ensures filled { IfOk result (λ o. IsFilled o) }
        ensures goes { IfOk result (λ o.
            let k = carries state.old.path.items at.entry in
            let judged = judged_for self.now state.old.path.items at.entry (forest object.now) in
            (q : Tokens) → Goes q state.old state.new
            (withheld_below (inside true) (path_of state.old.place.items) 0 judged) []
            (1 + visible_classes judged) 0) }
    {
        state.classes = state.classes.saturating_add(1);
        let outside = replace(&mut state.rules_met, Vec::new(state.alloc));
        let kept = self.cut(state, Surrounding::Class(true), ahead, at, object)?;
        tell_and_leave(state, outside)?;
        with_own_label(state.alloc, home, object, kept, at.label)
    }

    /// Returns what is kept of a class that isn't visible. Its rule is noted at its place if something is kept, else
    /// at that of its parent.
    #[cycle(cut)]
    fn cut_hidden(
        &self,
        state: &mut State<'a>,
        ahead: &Ahead<'a>,
        at: Carried<'a>,
        base: usize,
        object: &'a Object,
    ) -> Result<Option<Object>, AllocError>
        requires base { base ≤ length state.old.place.items }
        requires filled { IsFilled object.now }
        requires ahead { LiesAhead self.now state.old.path.items ahead.now }
        ensures left { IfOk result (λ r. option_map forest r ≡ (
            let judged = judged_for self.now state.old.path.items at.entry (forest object.now) in
            let inner = spec.cut (inside false) 0 judged in
            if is_end inner then None else Some inner)) }
        ensures filled { IfOk result (λ r. IfSome r (λ o. IsFilled o)) }
        ensures goes { IfOk result (λ r.
            let k = carries state.old.path.items at.entry in
            let judged = judged_for self.now state.old.path.items at.entry (forest object.now) in
            Goes (path_of (take base state.old.place.items)) state.old state.new
            (if is_end (spec.cut (inside false) 0 judged) then
            (path_of (take base state.old.place.items), hides self.now.standing.now k) ∷ []
            else (path_of state.old.place.items, hides self.now.standing.now k) ∷
            withheld_below (inside false) (path_of state.old.place.items) 0 judged) []
            (visible_classes judged) 0) }
        ensures quiet { IfOk result (λ r. r ≡ None →
            state.new.withheld.items ≡ state.old.withheld.items) }
    {
        let rule = self.hides(at);
        let outside = replace(&mut state.rules_met, Vec::new(state.alloc));
        let kept = self.cut(state, Surrounding::Class(false), ahead, at, object)?;
        leave_hidden(state, outside, rule, kept)
    }
}
