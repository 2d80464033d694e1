//! The reply that a line names.

use crate::sharings::sharing_of;
use crate::views::view_of;
use circle::directory::Person;
use circle::name::Name;
use circle::releasability::Releasability;
use circle::text::Text;
use hub_core::{
    Code, Entries, Entry, JoinedCommunities, JoinedCommunity, JoinedGroup, JoinedGroups, Refusal,
    Reply,
};
use policy::Numbers;
use std::alloc::{AllocError, Global};
use trying::number_of;
use trying_hub::role_of;

fn numbers_of(alloc: Global, words: &str) -> Result<Reply, AllocError> {
    Ok(Reply::Numbers(numbers_between(alloc, words, ',')?))
}

/// Returns the numbers of a text, none of an empty one.
fn numbers_between(alloc: Global, words: &str, separator: char) -> Result<Numbers, AllocError> {
    let mut list = Vec::new(alloc);
    if !words.is_empty() {
        for word in words.split(separator) {
            list.push(number_of(word))?;
        }
    }
    Ok(Numbers::new(list))
}

fn entry_of(words: &str) -> Option<Entry> {
    let mut parts = words.split(' ');
    Some(Entry {
        number: number_of(parts.next()?),
        revision: number_of(parts.next()?),
        source: number_of(parts.next()?),
    })
}

fn entries_of(alloc: Global, words: &str) -> Result<Reply, AllocError> {
    let mut list = Vec::new(alloc);
    for word in words.split(',') {
        if let Some(entry) = entry_of(word) {
            list.push(entry)?;
        }
    }
    Ok(Reply::Incidents(Entries::new(list)))
}

fn group_of(alloc: Global, words: &str) -> Result<Option<JoinedGroup>, AllocError> {
    let mut parts = words.split(':');
    let number = number_of(parts.next().unwrap_or(""));
    let owner = number_of(parts.next().unwrap_or(""));
    let Some(name) = Name::of(alloc, parts.next().unwrap_or(""))? else {
        return Ok(None);
    };
    let Some(releasability) = Releasability::of(alloc, parts.next().unwrap_or(""))? else {
        return Ok(None);
    };
    let flags = parts.next().unwrap_or("");
    Ok(Some(JoinedGroup {
        number,
        owner,
        name,
        releasability,
        active: flags.contains("active"),
        extend: flags.contains("extend"),
    }))
}

fn groups_of(alloc: Global, words: &str) -> Result<Reply, AllocError> {
    let mut list = Vec::new(alloc);
    for word in words.split(',') {
        if let Some(group) = group_of(alloc, word)? {
            list.push(group)?;
        }
    }
    Ok(Reply::Groups(JoinedGroups::new(list)))
}

fn community_of(alloc: Global, words: &str) -> Result<Option<JoinedCommunity>, AllocError> {
    let mut parts = words.split(':');
    let number = number_of(parts.next().unwrap_or(""));
    let Some(name) = Name::of(alloc, parts.next().unwrap_or(""))? else {
        return Ok(None);
    };
    let members = numbers_between(alloc, parts.next().unwrap_or(""), ' ')?;
    let connected = numbers_between(alloc, parts.next().unwrap_or(""), ' ')?;
    Ok(Some(JoinedCommunity {
        number,
        name,
        members,
        connected,
    }))
}

fn communities_of(alloc: Global, words: &str) -> Result<Reply, AllocError> {
    let mut list = Vec::new(alloc);
    for word in words.split(',') {
        if let Some(community) = community_of(alloc, word)? {
            list.push(community)?;
        }
    }
    Ok(Reply::Communities(JoinedCommunities::new(list)))
}

fn caller_of(alloc: Global, fields: &str) -> Result<Option<Reply>, AllocError> {
    let mut parts = fields.split('|');
    let number = number_of(parts.next().unwrap_or(""));
    let org = number_of(parts.next().unwrap_or(""));
    let Some(name) = Name::of(alloc, parts.next().unwrap_or(""))? else {
        return Ok(None);
    };
    let role = role_of(parts.next().unwrap_or(""));
    let nominated = parts.next() == Some("nominated");
    Ok(Some(Reply::Caller(Person {
        number,
        org,
        name,
        role,
        active: true,
        nominated,
    })))
}

fn code_of(word: &str) -> Code {
    match word {
        "K1" => Code::K1,
        "W1" => Code::W1,
        "B1" => Code::B1,
        "N1" => Code::N1,
        "N2" => Code::N2,
        "W2" => Code::W2,
        "W3" => Code::W3,
        "N3" => Code::N3,
        "S1" => Code::S1,
        "S2" => Code::S2,
        "S3" => Code::S3,
        "L1" => Code::L1,
        "F1" => Code::F1,
        _ => Code::F2,
    }
}

fn refused_of(alloc: Global, fields: &str) -> Reply {
    let (code, detail) = fields.split_once('|').unwrap_or((fields, ""));
    Reply::Refused(Refusal::new(alloc, code_of(code), detail))
}

/// Returns the reply of a line, or none if it names none.
pub fn reply_of(alloc: Global, line: &str) -> Result<Option<Reply>, AllocError> {
    let (kind, fields) = line.split_once('|').unwrap_or((line, ""));
    match kind {
        "done" => Ok(Some(Reply::Done)),
        "numbers" => Ok(Some(numbers_of(alloc, fields)?)),
        "revision" => Ok(Some(Reply::Revision(number_of(fields)))),
        "view" => view_of(alloc, fields),
        "incidents" => Ok(Some(entries_of(alloc, fields)?)),
        "groups" => Ok(Some(groups_of(alloc, fields)?)),
        "communities" => Ok(Some(communities_of(alloc, fields)?)),
        "sharing" => sharing_of(alloc, fields),
        "caller" => caller_of(alloc, fields),
        "trace" => Ok(Some(Reply::Trace(Text::of(alloc, fields)?))),
        "refused" => Ok(Some(refused_of(alloc, fields))),
        _ => Ok(None),
    }
}
