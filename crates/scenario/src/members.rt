ghost use Rattle.std.specs.Prelude.{◌≡◌, Bool, string_bytes};
ghost use Rattle.std.specs.List.{list_all, list_any};
ghost use Rattle.std.specs.Str.{bytes_eq};
ghost use Rattle.std.specs.BTreeMap.{keys};
ghost use Rattle.serde_json.specs.View.{view, members_view};
ghost use Rattle.scenario.specs.Members.{allows, data_found};
ghost use Rattle.scenario.specs.Members.{has_only, has_member, is_text, whole_number};

use serde_json::{Map, Value};

/// An object of a scenario, by the keys that it may have.
#[derive(Clone, Copy)]
pub enum Kind {
    /// The whole scenario.
    Top,
    /// A tab that is open at the start.
    Tab,
    /// A step that writes fields.
    Set,
    /// A step that takes a bundle.
    Take,
    /// A step that hears a bundle.
    Hear,
    /// A step that speaks of a context and nothing else.
    OneContext,
    /// A step that opens a tab.
    OpenTab,
    /// A step that subscribes a process to a group.
    Subscribe,
    /// A step that ends a process.
    Kill,
    /// A step that sends a bundle as it's written.
    Raw,
    /// A part of such a bundle, which writes fields.
    CommitPart,
    /// A part of such a bundle, which makes a frame.
    CreatePart,
    /// A part of such a bundle that speaks of a context and nothing else.
    ContextPart,
    /// A step that hears and takes all that waits.
    Settle,
    /// A step that shows a field.
    ShowOne,
    /// A step that shows a side.
    ShowSide,
    /// A step that shows all sides.
    ShowAll,
}

/// Whether the value is an object and has no key that its kind doesn't name.
pub fn has_only(v: &Value, kind: Kind) -> bool
    ensures { result ≡ has_only (allows kind) (view v.now) }
{
    match v.as_object() {
        None => false,
        Some(members) => all_allowed(kind, members),
    }
}

fn all_allowed(kind: Kind, members: &Map<String, Value>) -> bool
    ensures { result ≡ list_all (λ k. allows kind (string_bytes k)) (keys members.now) }
{
    members.keys().all(|key| allows(kind, key.as_str()))
}

#[tactic(auto, unfolding(crate::specs::Members::object_keys))]
fn allows(kind: Kind, key: &str) -> bool
    ensures { result ≡ allows kind key.now }
{
    match kind {
        Kind::Top => is_among(&["version", "processes", "tabs", "steps"], key),
        Kind::Tab => is_among(&["owner", "also"], key),
        Kind::Set => is_among(&["do", "at", "context", "fields"], key),
        Kind::Take => is_among(&["do", "at"], key),
        Kind::Hear => is_among(&["do", "at", "from"], key),
        Kind::OneContext => is_among(&["do", "at", "context"], key),
        Kind::OpenTab => is_among(&["do", "at", "owner", "group"], key),
        Kind::Subscribe => is_among(&["do", "at", "process", "group"], key),
        Kind::Kill => is_among(&["do", "at", "process"], key),
        Kind::Raw => is_among(&["do", "at", "epoch", "seen", "parts"], key),
        Kind::CommitPart => is_among(&["part", "context", "fields"], key),
        Kind::CreatePart => is_among(&["part", "context", "parent"], key),
        Kind::ContextPart => is_among(&["part", "context"], key),
        Kind::Settle | Kind::ShowAll => is_among(&["do"], key),
        Kind::ShowOne => is_among(&["do", "at", "context", "field"], key),
        Kind::ShowSide => is_among(&["do", "at"], key),
    }
}

fn is_among(keys: &[&str], key: &str) -> bool
    ensures { result ≡ list_any (λ each. bytes_eq key.now each.now) keys.now }
{
    keys.iter().any(|each| key == *each)
}

/// Whether an object has a member.
pub fn has_member(members: &Map<String, Value>) -> bool
    ensures { result ≡ has_member (members_view members.now.entries) }
{
    !members.is_empty()
}

/// Whether a member is there and is this text.
pub fn is_text(found: Option<&Value>, text: &str) -> bool
    ensures { result ≡ is_text text.now (data_found found.entry) }
{
    match found.and_then(Value::as_str) {
        None => false,
        Some(s) => s == text,
    }
}

/// The number of a member, if it's a whole one from 0 on, below 2^64.
pub fn whole_number(found: Option<&Value>) -> Option<u64>
    ensures { result ≡ whole_number (data_found found.entry) }
{
    found.and_then(Value::as_u64)
}
