//! The parameters of a request: names and values, and how many values each name has. Every fault here but want of
//! memory is `BadBody`, so it doesn't matter which of several is found first.
ghost use Rattle.std.specs.Prelude.{◌≡◌, ◌++◌, ◌<◌, ℕ, List, length, Ok, codes, option_copied};
ghost use Rattle.hub_http.specs.Outcome.{Yields, YieldsAs};
ghost use Rattle.hub_http.specs.Spelling.{gates};
ghost use Rattle.hub_http.specs.Parameters as spec;
ghost use Rattle.hub_http.specs.inner.Texts.{texts};

use crate::request_fault::RequestFault;
use crate::spelling::{read_gates, read_moment, read_number, text_of};
use circle::text::Text;
use hub_core::{Target, WantedGates};
use policy::Grantee;
use std::alloc::Global;
use std::borrow::CowStr;
use std::marker::Model;

/// The parameters of a request, in order.
#[derive(Drop)]
pub(crate) struct Parameters<'a> {
    pairs: Vec<(CowStr<'a>, CowStr<'a>)>,
}

impl<'a> Model for Parameters<'a> {
    ghost use Rattle.hub_http.specs.inner.Texts.{pair_views};
    ghost use Rattle.hub_http.specs.Parameters.{Pair};
    ghost use Rattle.std.specs.Prelude.{List};

    ghost Value = { List Pair };

    ghost view = { λ p. pair_views p.pairs.items };
}

/// Reads the parameters of a form.
pub(crate) fn read_parameters(alloc: Global, form: &[u8]) -> Result<Parameters<'_>, RequestFault>
    ensures { YieldsAs (λ p. p) result (Ok (spec.pairs_of form.now)) }
{
    let mut pairs = Vec::new(alloc);
    for pair in form_urlencoded::parse(alloc, form) {
        pairs.push(pair?)?;
    }
    Ok(Parameters { pairs })
}

fn is_one_of(names: &[&str], name: &str) -> bool
    ensures { result ≡ spec.is_one_of (texts names.now) name.now }
{
    for known in names {
        if *known == name {
            return true;
        }
    }
    false
}

impl<'a> Parameters<'a> {
    /// The one value of a name, if there is one.
    #[tactic(auto, unfolding(crate::specs::Parameters::optional))]
    pub(crate) fn optional(&self, name: &str) -> Result<Option<&str>, RequestFault>
        ensures { YieldsAs option_copied result (spec.optional name.now self.now) }
    {
        let mut found: Option<&str> = None;
        for pair in &self.pairs {
            if pair.0.as_str() == name {
                if found.is_some() {
                    return Err(RequestFault::BadBody);
                }
                found = Some(pair.1.as_str());
            }
        }
        Ok(found)
    }

    /// The one value of a name. Fails with `BadBody` if it is missing.
    #[tactic(auto, unfolding(crate::specs::Parameters::mandatory, crate::specs::Parameters::optional))]
    pub(crate) fn mandatory(&self, name: &str) -> Result<&str, RequestFault>
        ensures { YieldsAs (λ v. v.now) result (spec.mandatory name.now self.now) }
    {
        match self.optional(name)? {
            Some(value) => Ok(value),
            None => Err(RequestFault::BadBody),
        }
    }

    /// The one value of a name, copied.
    pub(crate) fn mandatory_text(&self, alloc: Global, name: &str) -> Result<Text, RequestFault>
        ensures { Yields result (spec.mandatory name.now self.now) }
    {
        let value = self.mandatory(name)?;
        text_of(alloc, value)
    }

    /// The one value of a name, copied, if there is one.
    pub(crate) fn optional_text(
        &self,
        alloc: Global,
        name: &str,
    ) -> Result<Option<Text>, RequestFault>
        ensures { Yields result (spec.optional name.now self.now) }
    {
        match self.optional(name)? {
            Some(text) => Ok(Some(text_of(alloc, text)?)),
            None => Ok(None),
        }
    }

    /// The one number of a name.
    #[tactic(auto, unfolding(crate::specs::Parameters::mandatory_number))]
    pub(crate) fn mandatory_number(&self, name: &str) -> Result<u32, RequestFault>
        ensures { Yields result (spec.mandatory_number name.now self.now) }
    {
        read_number(self.mandatory(name)?)
    }

    /// The number of a name, or 0 if it is missing.
    #[tactic(auto, unfolding(crate::specs::Parameters::number_or_zero))]
    pub(crate) fn number_or_zero(&self, name: &str) -> Result<u32, RequestFault>
        ensures { Yields result (spec.number_or_zero name.now self.now) }
    {
        match self.optional(name)? {
            Some(text) => read_number(text),
            None => Ok(0),
        }
    }

    /// The one number of a name, if there is one.
    #[tactic(auto, unfolding(crate::specs::Parameters::optional_number))]
    pub(crate) fn optional_number(&self, name: &str) -> Result<Option<u32>, RequestFault>
        ensures { Yields result (spec.optional_number name.now self.now) }
    {
        match self.optional(name)? {
            Some(text) => Ok(Some(read_number(text)?)),
            None => Ok(None),
        }
    }

    /// The one moment of a name, if there is one.
    #[tactic(auto, unfolding(crate::specs::Parameters::optional_moment))]
    pub(crate) fn optional_moment(&self, name: &str) -> Result<Option<i64>, RequestFault>
        ensures { Yields result (spec.optional_moment name.now self.now) }
    {
        match self.optional(name)? {
            Some(text) => Ok(Some(read_moment(text)?)),
            None => Ok(None),
        }
    }

    /// Fails with `BadBody` if there is another name than these.
    pub(crate) fn only(&self, names: &[&str]) -> Result<(), RequestFault>
        ensures { Yields result (spec.only (texts names.now) self.now) }
    {
        for pair in &self.pairs {
            if !is_one_of(names, pair.0.as_str()) {
                return Err(RequestFault::BadBody);
            }
        }
        Ok(())
    }

    /// The one number of a name, with no parameter beside it.
    #[tactic(auto, unfolding(crate::specs::Parameters::number_alone))]
    pub(crate) fn number_alone(&self, name: &str) -> Result<u32, RequestFault>
        ensures { Yields result (spec.number_alone name.now self.now) }
    {
        self.only(&[name])?;
        self.mandatory_number(name)
    }

    /// The values of a name, in order.
    fn all(&self, alloc: Global, name: &str) -> Result<Vec<&str>, RequestFault>
        ensures { YieldsAs (λ v. texts v.items) result (Ok (spec.values name.now self.now)) }
    {
        let mut found: Vec<&str> = Vec::new(alloc);
        for pair in &self.pairs {
            if pair.0.as_str() == name {
                found.push(pair.1.as_str())?;
            }
        }
        Ok(found)
    }

    /// The gates of the name `gate`, in order.
    pub(crate) fn gates(&self, alloc: Global) -> Result<WantedGates, RequestFault>
        ensures { Yields result (gates (spec.values (codes "gate") self.now)) }
    {
        let found = self.all(alloc, "gate")?;
        read_gates(alloc, &found)
    }

    /// The grantee, of the one name among `person`, `org`, `community` and `group`.
    #[tactic(auto, unfolding(crate::specs::Parameters::grantee_in))]
    pub(crate) fn grantee(&self) -> Result<Grantee, RequestFault>
        ensures { Yields result (spec.grantee_in self.now) }
    {
        let person = self.optional_number("person")?;
        let org = self.optional_number("org")?;
        let community = self.optional_number("community")?;
        let group = self.optional_number("group")?;
        sole_grantee(person, org, community, group)
    }

    /// The target, of the one name among `person` and `org`, with no parameter beside it.
    #[tactic(auto, unfolding(crate::specs::Parameters::target_alone))]
    pub(crate) fn target_alone(&self) -> Result<Target, RequestFault>
        ensures { Yields result (spec.target_alone self.now) }
    {
        self.only(&["person", "org"])?;
        let person = self.optional_number("person")?;
        let org = self.optional_number("org")?;
        sole_target(person, org)
    }
}

/// The grantee if there is exactly one of the four numbers. Fails with `BadBody` otherwise.
#[tactic(auto, unfolding(crate::specs::Parameters::one_grantee))]
fn sole_grantee(
    person: Option<u32>,
    org: Option<u32>,
    community: Option<u32>,
    group: Option<u32>,
) -> Result<Grantee, RequestFault>
    ensures { Yields result (spec.one_grantee person org community group) }
{
    match (person, org, community, group) {
        (Some(n), None, None, None) => Ok(Grantee::Person(n)),
        (None, Some(n), None, None) => Ok(Grantee::Org(n)),
        (None, None, Some(n), None) => Ok(Grantee::Community(n)),
        (None, None, None, Some(n)) => Ok(Grantee::Group(n)),
        _ => Err(RequestFault::BadBody),
    }
}

/// The target if there is exactly one of the two numbers. Fails with `BadBody` otherwise.
#[tactic(auto, unfolding(crate::specs::Parameters::one_target))]
fn sole_target(person: Option<u32>, org: Option<u32>) -> Result<Target, RequestFault>
    ensures { Yields result (spec.one_target person org) }
{
    match (person, org) {
        (Some(n), None) => Ok(Target::Person(n)),
        (None, Some(n)) => Ok(Target::Org(n)),
        _ => Err(RequestFault::BadBody),
    }
}
