//! The body of each reply, as the tokens of a JSON text (RFC 8259). The contracts say that it is the compact text of a
//! JSON value, but no such value is made.
ghost use Rattle.std.specs.Prelude.{◌≡◌, ◌++◌, ◌∷◌, [], OnOk, map, true, codes, unwrap_or, Some};
ghost use Rattle.serde_json.specs.Data.{boolean, string};
ghost use Rattle.serde_json.specs.Written.{comma_if, compact_text};
ghost use Rattle.hub_http.specs.Bodies as spec;

use circle::directory::{Person, Role};
use hub_core::{
    Entry, JoinedCommunity, JoinedGroup, Reply, SharedPermission, Sharing, Target, View,
};
use iodef_tree::Path;
use json::Token;
use json_text::{Refused, Sink, Tokens};
use policy::{Gate, Grantee, Rule};

fn put_numbers<S: Sink>(out: &mut Tokens<S>, numbers: &[u32]) -> Result<(), Refused>
    ensures puts { OnOk result (S.puts out.old.sink (comma_if out.old.after_value ++
        compact_text (spec.listed (map spec.whole numbers.now))) out.new.sink) }
    ensures after { OnOk result (out.new.after_value ≡ true) }
{
    out.token(Token::BeginArray)?;
    for n in numbers {
        out.number(*n)?;
    }
    out.token(Token::EndArray)
}

fn put_withheld_pair<S: Sink>(out: &mut Tokens<S>, pair: &(Path, Rule)) -> Result<(), Refused>
    ensures puts { OnOk result (S.puts out.old.sink (comma_if out.old.after_value ++
        compact_text (spec.withheld_pair pair.now)) out.new.sink) }
    ensures after { OnOk result (out.new.after_value ≡ true) }
{
    out.token(Token::BeginArray)?;
    out.pointer(&pair.0)?;
    out.token(Token::String(pair.1.name()))?;
    out.token(Token::EndArray)
}

fn put_withheld<S: Sink>(out: &mut Tokens<S>, pairs: &[(Path, Rule)]) -> Result<(), Refused>
    ensures puts { OnOk result (S.puts out.old.sink (comma_if out.old.after_value ++
        compact_text (spec.listed (map spec.withheld_pair pairs.now))) out.new.sink) }
    ensures after { OnOk result (out.new.after_value ≡ true) }
{
    out.token(Token::BeginArray)?;
    for pair in pairs {
        put_withheld_pair(out, pair)?;
    }
    out.token(Token::EndArray)
}

fn put_entry<S: Sink>(out: &mut Tokens<S>, entry: &Entry) -> Result<(), Refused>
    ensures puts { OnOk result (S.puts out.old.sink (comma_if out.old.after_value ++
        compact_text (spec.entry_object entry.now)) out.new.sink) }
    ensures after { OnOk result (out.new.after_value ≡ true) }
{
    out.token(Token::BeginObject)?;
    out.number_member("number", entry.number)?;
    out.number_member("revision", entry.revision)?;
    out.number_member("source", entry.source)?;
    out.token(Token::EndObject)
}

fn put_entries<S: Sink>(out: &mut Tokens<S>, entries: &[Entry]) -> Result<(), Refused>
    ensures puts { OnOk result (S.puts out.old.sink (comma_if out.old.after_value ++
        compact_text (spec.listed (map spec.entry_object entries.now))) out.new.sink) }
    ensures after { OnOk result (out.new.after_value ≡ true) }
{
    out.token(Token::BeginArray)?;
    for entry in entries {
        put_entry(out, entry)?;
    }
    out.token(Token::EndArray)
}

fn put_group<S: Sink>(out: &mut Tokens<S>, group: &JoinedGroup) -> Result<(), Refused>
    ensures puts { OnOk result (S.puts out.old.sink (comma_if out.old.after_value ++
        compact_text (spec.group_object group.now)) out.new.sink) }
    ensures after { OnOk result (out.new.after_value ≡ true) }
{
    out.token(Token::BeginObject)?;
    out.flag_member("active", group.active)?;
    out.flag_member("extend", group.extend)?;
    out.text_member("name", group.name.as_str())?;
    out.number_member("number", group.number)?;
    out.number_member("owner", group.owner)?;
    out.text_member("releasability", group.releasability.as_str())?;
    out.token(Token::EndObject)
}

fn put_groups<S: Sink>(out: &mut Tokens<S>, groups: &[JoinedGroup]) -> Result<(), Refused>
    ensures puts { OnOk result (S.puts out.old.sink (comma_if out.old.after_value ++
        compact_text (spec.listed (map spec.group_object groups.now))) out.new.sink) }
    ensures after { OnOk result (out.new.after_value ≡ true) }
{
    out.token(Token::BeginArray)?;
    for group in groups {
        put_group(out, group)?;
    }
    out.token(Token::EndArray)
}

fn put_community<S: Sink>(out: &mut Tokens<S>, community: &JoinedCommunity) -> Result<(), Refused>
    ensures puts { OnOk result (S.puts out.old.sink (comma_if out.old.after_value ++
        compact_text (spec.community_object community.now)) out.new.sink) }
    ensures after { OnOk result (out.new.after_value ≡ true) }
{
    out.token(Token::BeginObject)?;
    out.name("connected")?;
    put_numbers(out, community.connected.as_slice())?;
    out.name("members")?;
    put_numbers(out, community.members.as_slice())?;
    out.text_member("name", community.name.as_str())?;
    out.number_member("number", community.number)?;
    out.token(Token::EndObject)
}

fn put_communities<S: Sink>(
    out: &mut Tokens<S>,
    communities: &[JoinedCommunity],
) -> Result<(), Refused>
    ensures puts { OnOk result (S.puts out.old.sink (comma_if out.old.after_value ++
        compact_text (spec.listed (map spec.community_object communities.now))) out.new.sink) }
    ensures after { OnOk result (out.new.after_value ≡ true) }
{
    out.token(Token::BeginArray)?;
    for community in communities {
        put_community(out, community)?;
    }
    out.token(Token::EndArray)
}

fn number_or_zero(number: Option<u32>) -> u32
    ensures { result ≡ unwrap_or number 0 }
{
    match number {
        None => 0,
        Some(number) => number,
    }
}

fn put_gate<S: Sink>(out: &mut Tokens<S>, gate: &Gate) -> Result<(), Refused>
    ensures puts { OnOk result (S.puts out.old.sink (comma_if out.old.after_value ++
        compact_text (spec.gate_triple gate.now)) out.new.sink) }
    ensures after { OnOk result (out.new.after_value ≡ true) }
{
    out.token(Token::BeginArray)?;
    out.pointer(&gate.path)?;
    out.number(u32::from(gate.level))?;
    out.number(number_or_zero(gate.group))?;
    out.token(Token::EndArray)
}

fn put_gates<S: Sink>(out: &mut Tokens<S>, gates: &[Gate]) -> Result<(), Refused>
    ensures puts { OnOk result (S.puts out.old.sink (comma_if out.old.after_value ++
        compact_text (spec.listed (map spec.gate_triple gates.now))) out.new.sink) }
    ensures after { OnOk result (out.new.after_value ≡ true) }
{
    out.token(Token::BeginArray)?;
    for gate in gates {
        put_gate(out, gate)?;
    }
    out.token(Token::EndArray)
}

/// Puts an array of a kind and a number.
fn put_pair<S: Sink>(out: &mut Tokens<S>, kind: &str, number: u32) -> Result<(), Refused>
    ensures puts { OnOk result (S.puts out.old.sink (comma_if out.old.after_value ++
        compact_text (spec.listed (string kind.now ∷ spec.whole number ∷ []))) out.new.sink) }
    ensures after { OnOk result (out.new.after_value ≡ true) }
{
    out.token(Token::BeginArray)?;
    out.token(Token::String(kind))?;
    out.number(number)?;
    out.token(Token::EndArray)
}

fn put_target<S: Sink>(out: &mut Tokens<S>, target: Target) -> Result<(), Refused>
    ensures puts { OnOk result (S.puts out.old.sink (comma_if out.old.after_value ++
        compact_text (spec.target_pair target)) out.new.sink) }
    ensures after { OnOk result (out.new.after_value ≡ true) }
{
    match target {
        Target::Person(number) => put_pair(out, "person", number),
        Target::Org(number) => put_pair(out, "org", number),
    }
}

fn put_recipients<S: Sink>(out: &mut Tokens<S>, targets: &[Target]) -> Result<(), Refused>
    ensures puts { OnOk result (S.puts out.old.sink (comma_if out.old.after_value ++
        compact_text (spec.listed (map spec.target_pair targets.now))) out.new.sink) }
    ensures after { OnOk result (out.new.after_value ≡ true) }
{
    out.token(Token::BeginArray)?;
    for target in targets {
        put_target(out, *target)?;
    }
    out.token(Token::EndArray)
}

fn grantee_kind(grantee: Grantee) -> &'static str
    ensures { result.now ≡ spec.grantee_kind grantee }
{
    match grantee {
        Grantee::Person(_) => "person",
        Grantee::Org(_) => "org",
        Grantee::Community(_) => "community",
        Grantee::Group(_) => "group",
    }
}

fn grantee_number(grantee: Grantee) -> u32
    ensures { result ≡ spec.grantee_number grantee }
{
    match grantee {
        Grantee::Person(number)
        | Grantee::Org(number)
        | Grantee::Community(number)
        | Grantee::Group(number) => number,
    }
}

/// Puts a moment, in seconds since the beginning of 1970 (UTC).
fn put_moment<S: Sink>(out: &mut Tokens<S>, moment: i64) -> Result<(), Refused>
    ensures puts { OnOk result (S.puts out.old.sink (comma_if out.old.after_value ++
        compact_text (spec.end_or_null (Some moment))) out.new.sink) }
    ensures after { OnOk result (out.new.after_value ≡ true) }
{
    let mut buffer = itoa::Buffer::new();
    out.token(Token::Number(buffer.format(moment)))
}

/// Puts the end of a permission, and null for none.
fn put_end<S: Sink>(out: &mut Tokens<S>, until: Option<i64>) -> Result<(), Refused>
    ensures puts { OnOk result (S.puts out.old.sink (comma_if out.old.after_value ++
        compact_text (spec.end_or_null until)) out.new.sink) }
    ensures after { OnOk result (out.new.after_value ≡ true) }
{
    match until {
        None => out.token(Token::Null),
        Some(end) => put_moment(out, end),
    }
}

fn put_permission<S: Sink>(out: &mut Tokens<S>, shared: &SharedPermission) -> Result<(), Refused>
    ensures puts { OnOk result (S.puts out.old.sink (comma_if out.old.after_value ++
        compact_text (spec.permission_row shared.now)) out.new.sink) }
    ensures after { OnOk result (out.new.after_value ≡ true) }
{
    let grantee = shared.permission.grantee;
    out.token(Token::BeginArray)?;
    out.pointer(&shared.permission.path)?;
    out.token(Token::String(grantee_kind(grantee)))?;
    out.number(grantee_number(grantee))?;
    put_end(out, shared.permission.until)?;
    out.token(Token::Bool(shared.ended))?;
    out.token(Token::EndArray)
}

fn put_permissions<S: Sink>(
    out: &mut Tokens<S>,
    permissions: &[SharedPermission],
) -> Result<(), Refused>
    ensures puts { OnOk result (S.puts out.old.sink (comma_if out.old.after_value ++
        compact_text (spec.listed (map spec.permission_row permissions.now))) out.new.sink) }
    ensures after { OnOk result (out.new.after_value ≡ true) }
{
    out.token(Token::BeginArray)?;
    for permission in permissions {
        put_permission(out, permission)?;
    }
    out.token(Token::EndArray)
}

fn put_sharing<S: Sink>(out: &mut Tokens<S>, told: &Sharing) -> Result<(), Refused>
    ensures puts { OnOk result (S.puts out.old.sink (comma_if out.old.after_value ++
        compact_text (spec.sharing_body told.now)) out.new.sink) }
    ensures after { OnOk result (out.new.after_value ≡ true) }
{
    out.token(Token::BeginObject)?;
    out.number_member("community", number_or_zero(told.naming.community))?;
    out.name("gates")?;
    put_gates(out, told.gates.as_slice())?;
    out.text_member("ident", told.naming.ident.as_str())?;
    out.number_member("number", told.naming.number)?;
    out.name("permissions")?;
    put_permissions(out, told.permissions.as_slice())?;
    out.name("recipients")?;
    put_recipients(out, told.recipients.as_slice())?;
    out.number_member("revision", told.naming.revision)?;
    out.token(Token::EndObject)
}

/// Puts the body of a refusal.
pub(crate) fn put_refusal<S: Sink>(
    out: &mut Tokens<S>,
    name: &str,
    detail: &str,
    why: &str,
) -> Result<(), Refused>
    ensures puts { OnOk result (S.puts out.old.sink (comma_if out.old.after_value ++
        compact_text (spec.refusal_body name.now detail.now why.now)) out.new.sink) }
    ensures after { OnOk result (out.new.after_value ≡ true) }
{
    out.token(Token::BeginObject)?;
    out.text_member("code", name)?;
    out.text_member("detail", detail)?;
    out.text_member("reason", why)?;
    out.token(Token::EndObject)
}

fn put_view<S: Sink>(out: &mut Tokens<S>, told: &View) -> Result<(), Refused>
    ensures puts { OnOk result (S.puts out.old.sink (comma_if out.old.after_value ++
        compact_text (spec.view_body told.now)) out.new.sink) }
    ensures after { OnOk result (out.new.after_value ≡ true) }
{
    out.token(Token::BeginObject)?;
    out.number_member("classes", told.classes)?;
    out.name("document")?;
    out.document(&told.document)?;
    out.number_member("number", told.number)?;
    out.number_member("revision", told.revision)?;
    out.number_member("source", told.source)?;
    out.name("withheld")?;
    put_withheld(out, told.withheld.as_slice())?;
    out.token(Token::EndObject)
}

fn role_name(role: Role) -> &'static str
    ensures { result.now ≡ spec.role_name role }
{
    match role {
        Role::Administrator => "administrator",
        Role::Coordinator => "coordinator",
        Role::Poster => "poster",
        Role::Reader => "reader",
    }
}

fn put_caller<S: Sink>(out: &mut Tokens<S>, person: &Person) -> Result<(), Refused>
    ensures puts { OnOk result (S.puts out.old.sink (comma_if out.old.after_value ++
        compact_text (spec.caller_body person.now)) out.new.sink) }
    ensures after { OnOk result (out.new.after_value ≡ true) }
{
    out.token(Token::BeginObject)?;
    out.text_member("name", person.name.as_str())?;
    out.flag_member("nominated", person.nominated)?;
    out.number_member("number", person.number)?;
    out.number_member("org", person.org)?;
    out.text_member("role", role_name(person.role))?;
    out.token(Token::EndObject)
}

fn put_done<S: Sink>(out: &mut Tokens<S>) -> Result<(), Refused>
    ensures puts { OnOk result (S.puts out.old.sink (comma_if out.old.after_value ++
        compact_text (spec.sole (codes "done") (boolean true))) out.new.sink) }
    ensures after { OnOk result (out.new.after_value ≡ true) }
{
    out.token(Token::BeginObject)?;
    out.flag_member("done", true)?;
    out.token(Token::EndObject)
}

/// Puts the numbers of the new rows.
fn put_made<S: Sink>(out: &mut Tokens<S>, numbers: &[u32]) -> Result<(), Refused>
    ensures puts { OnOk result (S.puts out.old.sink (comma_if out.old.after_value ++
        compact_text (spec.sole (codes "numbers") (spec.listed (map spec.whole numbers.now)))) out.new.sink) }
    ensures after { OnOk result (out.new.after_value ≡ true) }
{
    out.token(Token::BeginObject)?;
    out.name("numbers")?;
    put_numbers(out, numbers)?;
    out.token(Token::EndObject)
}

fn put_revision<S: Sink>(out: &mut Tokens<S>, revision: u32) -> Result<(), Refused>
    ensures puts { OnOk result (S.puts out.old.sink (comma_if out.old.after_value ++
        compact_text (spec.sole (codes "revision") (spec.whole revision))) out.new.sink) }
    ensures after { OnOk result (out.new.after_value ≡ true) }
{
    out.token(Token::BeginObject)?;
    out.number_member("revision", revision)?;
    out.token(Token::EndObject)
}

/// Puts a page of incidents.
fn put_page<S: Sink>(out: &mut Tokens<S>, entries: &[Entry]) -> Result<(), Refused>
    ensures puts { OnOk result (S.puts out.old.sink (comma_if out.old.after_value ++
        compact_text (spec.sole (codes "incidents") (spec.listed (map spec.entry_object entries.now)))) out.new.sink) }
    ensures after { OnOk result (out.new.after_value ≡ true) }
{
    out.token(Token::BeginObject)?;
    out.name("incidents")?;
    put_entries(out, entries)?;
    out.token(Token::EndObject)
}

/// Puts the groups that the caller's organisation has joined.
fn put_joined<S: Sink>(out: &mut Tokens<S>, groups: &[JoinedGroup]) -> Result<(), Refused>
    ensures puts { OnOk result (S.puts out.old.sink (comma_if out.old.after_value ++
        compact_text (spec.sole (codes "groups") (spec.listed (map spec.group_object groups.now)))) out.new.sink) }
    ensures after { OnOk result (out.new.after_value ≡ true) }
{
    out.token(Token::BeginObject)?;
    out.name("groups")?;
    put_groups(out, groups)?;
    out.token(Token::EndObject)
}

/// Puts the communities that the caller's organisation has joined.
fn put_joined_communities<S: Sink>(
    out: &mut Tokens<S>,
    communities: &[JoinedCommunity],
) -> Result<(), Refused>
    ensures puts { OnOk result (S.puts out.old.sink (comma_if out.old.after_value ++
        compact_text (spec.sole (codes "communities")
        (spec.listed (map spec.community_object communities.now)))) out.new.sink) }
    ensures after { OnOk result (out.new.after_value ≡ true) }
{
    out.token(Token::BeginObject)?;
    out.name("communities")?;
    put_communities(out, communities)?;
    out.token(Token::EndObject)
}

fn put_trace<S: Sink>(out: &mut Tokens<S>, trace: &str) -> Result<(), Refused>
    ensures puts { OnOk result (S.puts out.old.sink (comma_if out.old.after_value ++
        compact_text (spec.sole (codes "trace") (string trace.now))) out.new.sink) }
    ensures after { OnOk result (out.new.after_value ≡ true) }
{
    out.token(Token::BeginObject)?;
    out.text_member("trace", trace)?;
    out.token(Token::EndObject)
}

/// Puts the body of a reply.
pub(crate) fn put_body<S: Sink>(out: &mut Tokens<S>, reply: &Reply) -> Result<(), Refused>
    ensures puts { OnOk result (S.puts out.old.sink (comma_if out.old.after_value ++
        compact_text (spec.body_of reply.now)) out.new.sink) }
    ensures after { OnOk result (out.new.after_value ≡ true) }
{
    match reply {
        Reply::Done => put_done(out),
        Reply::Numbers(list) => put_made(out, list.as_slice()),
        Reply::Revision(revision) => put_revision(out, *revision),
        Reply::View(told) => put_view(out, told),
        Reply::Incidents(list) => put_page(out, list.as_slice()),
        Reply::Groups(list) => put_joined(out, list.as_slice()),
        Reply::Communities(list) => put_joined_communities(out, list.as_slice()),
        Reply::Sharing(told) => put_sharing(out, told),
        Reply::Caller(person) => put_caller(out, person),
        Reply::Trace(text) => put_trace(out, text.as_str()),
        Reply::Refused(why) => put_refusal(
            out,
            why.code.name(),
            why.detail.as_str(),
            why.code.reason(),
        ),
    }
}
