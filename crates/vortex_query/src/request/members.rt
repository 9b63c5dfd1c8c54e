// Parts of a JSON value.
ghost use Rattle.std.specs.Prelude.{◌≡◌, option_map, option_and_then};
ghost use Rattle.serde_json.specs.View.{view};
ghost use Rattle.serde_json.specs.Find.{as_str};
ghost use Rattle.vortex_query.specs.Members.{item_of, only_member as member_in, width as width_of};

use serde_json::Value;

/// How many members an object has, and how many items a list.
pub fn width(value: &Value) -> usize
    ensures { result ≡ width_of (view value.now) }
{
    match value {
        Value::Array(items) => items.as_slice().len(),
        Value::Object(members) => members.len(),
        _ => 0,
    }
}

/// The value of an object's one member, where that has this name.
pub fn only_member<'a>(value: &'a Value, name: &str) -> Option<&'a Value>
    ensures { option_map (λ v. view v.now) result ≡ member_in name.now (view value.now) }
{
    if width(value) == 1 {
        value.get(name)
    } else {
        None
    }
}

/// The item at a place of a list of so many.
pub fn item(value: &Value, count: usize, place: usize) -> Option<&Value>
    ensures { option_map (λ v. view v.now) result ≡ item_of count place (view value.now) }
{
    if width(value) == count {
        value.get(place)
    } else {
        None
    }
}

/// The text at a place of a list of so many.
pub fn item_text(value: &Value, count: usize, place: usize) -> Option<&str>
    ensures { option_map (λ s. s.now) result ≡ option_and_then as_str (item_of count place (view value.now)) }
{
    item(value, count, place)?.as_str()
}
