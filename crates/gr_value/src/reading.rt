ghost use Rattle.std.specs.Prelude.{◌≡◌, ◌<◌, ◌≤◌, ◌^◌, ◌⊎◌, List, length, IfOk, MatchResult, Ok, Err, Some};
ghost use Rattle.std.specs.BTreeMap.{btree_map_len};
ghost use Rattle.std.specs.List.{AllByRecursion};
ghost use Rattle.gr_value.specs.ValueReading.{scalar_at, fields_from, value_of, read_value, RefusedAs};
ghost use Rattle.gr_value.specs.ValueText.{value_text};
ghost use Rattle.gr_value.specs.Values.{HasAscendingNames, IsField, IsScalar, IsValue};
ghost use Rattle.gr_value.specs.declared.fault.ValueFault.TheVariants.{Memory as NoMemory};
ghost use Rattle.gr_value.specs.declared.value.Field.{Field as AField};
ghost use Rattle.serde_json.specs.Data.{Members, object};
ghost use Rattle.serde_json.specs.Events.{members_len};
ghost use Rattle.serde_json.specs.View.{view, members_view};

use crate::fields::Fields;
use crate::plain::fields_by_text;
use crate::value::MOST_BYTES;
use crate::{Field, ItemList, Scalar, Text, Value, ValueFault};
use serde_json::Map;
use std::alloc::Global;

fn scalar_at(alloc: Global, place: u32, json: serde_json::Value) -> Result<Scalar, ValueFault>
    ensures value { MatchResult result (λ scalar. scalar_at place (view json) ≡ Ok scalar)
        (λ fault. (fault ≡ NoMemory) ⊎ (scalar_at place (view json) ≡ Err fault)) }
    ensures scalar { IfOk result IsScalar }
{
    match json {
        serde_json::Value::Null => Ok(Scalar::Null),
        serde_json::Value::Bool(truth) => Ok(Scalar::Bool(truth)),
        serde_json::Value::Number(number) => match number.as_i64() {
            Some(whole) => Ok(Scalar::Int(whole)),
            None => Err(ValueFault::NotWhole(place)),
        },
        serde_json::Value::String(text) => { Ok(Scalar::Text(Text::of_string(alloc, text)?)) }
        serde_json::Value::Array(_) | serde_json::Value::Object(_) => Err(ValueFault::Nested(
            place,
        )),
    }
}

fn fields_of(alloc: Global, members: Map<String, serde_json::Value>) -> Result<Fields, ValueFault>
    requires few { btree_map_len members < 2 ^ 32 }
    ensures value { MatchResult result
        (λ fields. fields_from 0 (members_view members.entries) ≡ Ok fields)
        (λ fault. RefusedAs fault (fields_from 0 (members_view members.entries))) }
    ensures readable { IfOk result (λ fields. AllByRecursion IsField fields) }
    ensures ascending { IfOk result (λ fields. HasAscendingNames fields) }
{
    let mut fields = ItemList::with_room(alloc, members.len())?;
    let mut place = 0;
    for (name, json) in members {
        let scalar = scalar_at(alloc, place, json)?;
        let name = Text::of_string(alloc, name)?;
        fields.push(Field { name, scalar })?;
        place += 1;
    }
    Ok(Fields::of_vec(fields.into_vec()))
}

fn fields_of_json(alloc: Global, json: serde_json::Value) -> Result<Fields, ValueFault>
    requires few { (found : Members) → view json ≡ object found → members_len found < 2 ^ 32 }
    ensures value { MatchResult result (λ fields. value_of (Some (view json)) ≡ Ok fields)
        (λ fault. RefusedAs fault (value_of (Some (view json)))) }
    ensures readable { IfOk result (λ fields. AllByRecursion IsField fields) }
    ensures ascending { IfOk result (λ fields. HasAscendingNames fields) }
{
    match json {
        serde_json::Value::Object(members) => fields_of(alloc, members),
        _ => Err(ValueFault::NotObject),
    }
}

// Most texts are what their value prints, and need no JSON reader.
fn fields_of_bytes(alloc: Global, bytes: &[u8]) -> Result<Fields, ValueFault>
    requires { length bytes.now ≤ 1024 }
    ensures value { MatchResult result (λ fields. read_value bytes.now ≡ Ok fields)
        (λ fault. RefusedAs fault (read_value bytes.now)) }
    ensures kept { IfOk result (λ fields. IsValue fields) }
    ensures shorter { IfOk result (λ fields. length (value_text fields) ≤ length bytes.now) }
{
    if let Some(fields) = fields_by_text(alloc, bytes)? {
        return Ok(fields);
    }
    match serde_json::Value::from_slice(alloc, bytes) {
        Ok(json) => Ok(fields_of_json(alloc, json)?),
        Err(error) => if error.is_memory() {
            Err(ValueFault::Memory)
        } else {
            Err(ValueFault::NotJson)
        },
    }
}

impl Value {
    /// Reads a value. Its faults are looked for in the order of `ValueFault`.
    #[tactic(auto, using(crate::proofs::ValueRead::too_long))]
    pub fn read(alloc: Global, bytes: &[u8]) -> Result<Value, ValueFault>
        ensures value { MatchResult result (λ value. read_value bytes.now ≡ Ok value)
            (λ fault. RefusedAs fault (read_value bytes.now)) }
        ensures kept { IfOk result IsValue }

        // What the value prints is never longer than what was read.
        ensures shorter { IfOk result (λ value. length (value_text value) ≤ length bytes.now) }
    {
        if bytes.len() > MOST_BYTES {
            return Err(ValueFault::TooLong);
        }
        let fields = fields_of_bytes(alloc, bytes)?;
        Ok(Value::of_fields(alloc, fields)?)
    }
}

/// What a value prints reads as that value.
pub fn values_read_back()
    ensures { (fields : List AField) → IsValue fields → read_value (value_text fields) ≡ Ok fields }
{}
