//! The reading of one field of an object.

ghost use Rattle.std.specs.Prelude.{◌≡◌, map, option_map};
ghost use Rattle.serde_json.specs.Find.{get};
ghost use Rattle.serde_json.specs.View.{view};
ghost use Rattle.repl_json.specs.Field.{unless_null, value_in, text_field, number_field, flag_field, whole_number, things_under};

use serde_json::Value;

/// The value under a name, unless it is missing. Null counts as missing.
pub fn found<'v>(object: &'v Value, name: &str) -> Option<&'v Value>
    ensures { option_map (λ v. view v.now) result ≡ unless_null (get name.now (view object.now)) }
{
    let value = object.get(name)?;
    if value.is_null() {
        return None;
    }
    Some(value)
}

/// A text, without a default.
#[tactic(auto, unfolding(crate::specs::Field::value_in))]
pub fn text<'v>(object: &'v Value, name: &str) -> Option<&'v str>
    ensures { option_map (λ s. s.now) result ≡ value_in (text_field name.now) (view object.now) }
{
    found(object, name)?.as_str()
}

/// A number that is written as decimal digits alone and is no greater.
pub fn whole_number(value: &Value, greatest: u64) -> Option<u64>
    ensures { result ≡ whole_number greatest (view value.now) }
{
    let number = value.as_u64()?;
    (number <= greatest).then_some(number)
}

/// A number up to a limit.
#[tactic(auto, unfolding(crate::specs::Field::value_in))]
pub fn number(object: &Value, name: &str, default: Option<u64>, greatest: u64) -> Option<u64>
    ensures { result ≡ value_in (number_field name.now default greatest) (view object.now) }
{
    match found(object, name) {
        None => default,
        Some(value) => whole_number(value, greatest),
    }
}

/// A truth value.
#[tactic(auto, unfolding(crate::specs::Field::value_in))]
pub fn flag(object: &Value, name: &str, default: bool) -> Option<bool>
    ensures { result ≡ value_in (flag_field name.now default) (view object.now) }
{
    match found(object, name) {
        None => Some(default),
        Some(value) => value.as_bool(),
    }
}

/// The things of a list, without a default.
#[tactic(auto, unfolding(crate::specs::Field::things_under), using(crate::proofs::ListLemmas::listed_items))]
pub fn things<'v>(object: &'v Value, name: &str) -> Option<&'v [Value]>
    ensures { option_map (λ things. map view things.now) result ≡ things_under name.now (view object.now) }
{
    let Some(value) = found(object, name) else {
        return None;
    };
    let Some(list) = value.as_array() else {
        return None;
    };
    Some(list.as_slice())
}
