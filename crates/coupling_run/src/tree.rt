//! Whether two trees of TOML are the same.
ghost use Rattle.std.specs.Prelude.{◌≡◌};
ghost use Rattle.toml.specs.View.{view, array_view, table_view};
ghost use Rattle.coupling_run.specs.SameTree.{same_tree, same_items, same_members};

use toml::value::{Array, Table, Value};

#[cycle(tree)]
fn is_same_value(one: &Value, other: &Value) -> bool
    ensures { result ≡ same_tree (view one.now) (view other.now) }
{
    match (one, other) {
        (Value::String(text), Value::String(second)) => text.as_str() == second.as_str(),
        (Value::Integer(number), Value::Integer(second)) => number == second,
        (Value::Boolean(truth), Value::Boolean(second)) => truth == second,
        (Value::Array(items), Value::Array(second)) => is_same_array(items, second),
        (Value::Table(table), Value::Table(second)) => is_same_table(table, second),
        _ => false,
    }
}

#[cycle(tree)]
fn is_same_array(one: &Array, other: &Array) -> bool
    ensures { result ≡ same_items (array_view one.now) (array_view other.now) }
{
    let mut rest = other.iter();
    'items: for item in one {
        match rest.next() {
            Some(second) => {
                if !is_same_value(item, second) {
                    return false;
                }
            }
            None => return false,
        }
    }
    rest.next().is_none()
}

/// Whether two tables have the same members. A number with a fraction, or a date-time, is the same
/// as nothing.
#[cycle(tree)]
pub fn is_same_table(one: &Table, other: &Table) -> bool
    ensures { result ≡ same_members (table_view one.now) (table_view other.now) }
{
    let mut entries = other.iter();
    'members: for (key, member) in one.iter() {
        match entries.next() {
            Some((second_key, second)) => {
                if key.as_str() != second_key.as_str() || !is_same_value(member, second) {
                    return false;
                }
            }
            None => return false,
        }
    }
    entries.next().is_none()
}
