//! A TOML value, written as JSON.
ghost use Rattle.std.specs.Prelude.{◌≡◌, OnOk, codes, is_nan, if◌then◌else◌};
ghost use Rattle.std.specs.Float.{is_sign_negative};
ghost use Rattle.json.specs.Token.{key};
ghost use Rattle.json.specs.Written.{Writes};
ghost use Rattle.toml.specs.Data.{integer, float, datetime, table};
ghost use Rattle.toml.specs.View.{view, array_view, table_view};
ghost use Rattle.garde_toml.specs.Writes.{WritesValue, WritesItems, WritesMembers};

use garde_form::write_bare;
use json::Writer;
use std::alloc::{AllocError, Global};
use toml::value::{Array, Datetime};
use toml::{Table, Value};

#[cycle(write)]
fn write_value(alloc: Global, value: &Value, out: &mut Writer) -> Result<(), AllocError>
    ensures { OnOk result (WritesValue (view value.now) out.old out.new) }
{
    match value {
        Value::String(text) => out.string(text.as_str()),
        Value::Integer(number) => write_integer(*number, out),
        Value::Float(number) => write_float(*number, out),
        Value::Boolean(flag) => out.boolean(*flag),
        Value::Datetime(moment) => write_datetime(alloc, *moment, out),
        Value::Array(items) => {
            out.begin_array()?;
            write_items(alloc, items, out)
        }
        Value::Table(members) => {
            out.begin_object()?;
            write_members(alloc, members, out)
        }
    }
}

// The items, and the bracket that closes the array.
#[cycle(write)]
fn write_items(alloc: Global, items: &Array, out: &mut Writer) -> Result<(), AllocError>
    ensures { OnOk result (WritesItems (array_view items.now) out.old out.new) }
{
    for item in items {
        write_value(alloc, item, out)?;
    }
    out.end_array()
}

// The members, and the brace that closes the object.
#[cycle(write)]
fn write_members(alloc: Global, members: &Table, out: &mut Writer) -> Result<(), AllocError>
    ensures { OnOk result (WritesMembers (table_view members.now) out.old out.new) }
{
    for (key, value) in members.iter() {
        write_key(key.as_str(), out)?;
        write_value(alloc, value, out)?;
    }
    out.end_object()
}

fn write_key(name: &str, out: &mut Writer) -> Result<(), AllocError>
    ensures { Writes result out.old out.new (key name.now) }
{
    out.key(name)
}

fn write_integer(number: i64, out: &mut Writer) -> Result<(), AllocError>
    ensures { OnOk result (WritesValue (integer number) out.old out.new) }
{
    out.i64(number)
}

fn write_float(number: f64, out: &mut Writer) -> Result<(), AllocError>
    ensures { OnOk result (WritesValue (float number) out.old out.new) }
{
    if number.is_finite() {
        out.float(number)
    } else {
        write_bare(name_of(number), out)
    }
}

// The word of TOML for a float that is not finite.
fn name_of(number: f64) -> &'static str
    ensures { result.now ≡ (if is_nan number then codes "nan" else if is_sign_negative number then codes "-inf" else codes "inf") }
{
    if number.is_nan() {
        "nan"
    } else if number.is_sign_negative() {
        "-inf"
    } else {
        "inf"
    }
}

fn write_datetime(alloc: Global, moment: Datetime, out: &mut Writer) -> Result<(), AllocError>
    ensures { OnOk result (WritesValue (datetime moment) out.old out.new) }
{
    let text = format!(in alloc; "{moment}")?;
    write_bare(text.as_str(), out)
}

/// Writes a table.
pub fn write_table(alloc: Global, members: &Table, out: &mut Writer) -> Result<(), AllocError>
    ensures { OnOk result (WritesValue (table (table_view members.now)) out.old out.new) }
{
    out.begin_object()?;
    write_members(alloc, members, out)
}
