// The members of JSON objects.
ghost use Rattle.std.specs.Prelude.{◌≡◌, ◌≢◌, [], ◌∷◌, map, length, MatchOption, bytes_eq};
ghost use Rattle.std.specs.List.{list_any};
ghost use Rattle.serde_json.specs.View.{view, members_view};
ghost use Rattle.query_json.specs.Objects.{are_among, has_only as spec_has_only};

use serde_json::{Map, Value as Json};

/// The one member of an object that has one.
pub(crate) fn only_member(members: &Map<String, Json>) -> Option<(&String, &Json)>
    ensures { MatchOption result (length members.now.entries ≢ 1)
        (λ member. members.now.entries ≡ (member.0.now, member.1.now) ∷ []) }
{
    if members.len() != 1 {
        return None;
    }
    members.first_key_value()
}

/// Whether the value is an object with no member but those of these names.
pub(crate) fn has_only(value: &Json, names: &[&str]) -> bool
    ensures { result ≡ spec_has_only (map (λ n. n.now) names.now) (view value.now) }
{
    match value {
        Json::Object(members) => are_all_among(members, names),
        _ => false,
    }
}

fn are_all_among(members: &Map<String, Json>, names: &[&str]) -> bool
    ensures { result ≡ are_among (map (λ n. n.now) names.now) (members_view members.now.entries) }
{
    for (name, _) in members.iter() {
        if !is_among(name.as_str(), names) {
            return false;
        }
    }
    true
}

fn is_among(name: &str, names: &[&str]) -> bool
    ensures { result ≡ list_any (bytes_eq name.now) (map (λ n. n.now) names.now) }
{
    for known in names {
        if name == *known {
            return true;
        }
    }
    false
}
