//! The fields of the limits, each over one JSON value.

ghost use Rattle.std.specs.Prelude.{◌≡◌};
ghost use Rattle.serde_json.specs.View.{view};
ghost use Rattle.stamp_core.specs.Limits.{AreInRange};
ghost use Rattle.stamp_history.specs.LimitFields as field;

use crate::field::Field;
use crate::json_values::{has_key, whole_under};
use crate::read_error::ReadError;
use crate::text_kind::TextKind;
use serde_json::Value;
use stamp_core::{Layout, Limits};

fn numbered_layout(text: TextKind, number: Option<u64>) -> Result<Layout, ReadError>
    ensures { result ≡ field.numbered_layout text number }
{
    match number {
        Some(1) => Ok(Layout::One),
        Some(2) => Ok(Layout::Two),
        _ => Err(text.mistake(Field::Layout)),
    }
}

fn read_layout(text: TextKind, value: &Value) -> Result<Layout, ReadError>
    ensures { result ≡ field.layout text (view value.now) }
{
    if has_key(value, "layout") {
        numbered_layout(text, whole_under(value, "layout"))
    } else {
        Ok(Layout::One)
    }
}

fn read_readers(text: TextKind, layout: Layout, value: &Value) -> Result<u64, ReadError>
    ensures { result ≡ field.readers text layout (view value.now) }
{
    match whole_under(value, "readers") {
        None => Err(text.mistake(Field::Readers)),
        Some(readers) => {
            if 1 <= readers && readers <= layout.most_readers() {
                Ok(readers)
            } else {
                Err(ReadError::Limit(Field::Readers))
            }
        }
    }
}

fn read_versions(text: TextKind, layout: Layout, value: &Value) -> Result<u64, ReadError>
    ensures { result ≡ field.versions text layout (view value.now) }
{
    match whole_under(value, "versions") {
        None => Err(text.mistake(Field::Versions)),
        Some(versions) => {
            if versions <= layout.most_versions() {
                Ok(versions)
            } else {
                Err(ReadError::Limit(Field::Versions))
            }
        }
    }
}

/// Limits that were found in range.
fn limits_from(layout: Layout, readers: u64, versions: u64) -> Limits
    requires { AreInRange (record { layout = layout; readers = readers; versions = versions }) }
    ensures { result ≡ record { layout = layout; readers = readers; versions = versions } }
{
    match Limits::in_layout(layout, readers, versions) {
        Ok(limits) => limits,
        Err(_) => unreachable!(),
    }
}

/// Reads the limits of a text of this kind, or tells their first fault. The fields are `layout`,
/// `readers` and `versions`, in this order. Errors: of a field of another kind 2 `NotHistory`, and
/// 5 `NotScript` in a replay or a script; 3 `Limit`, with the field out of range.
#[tactic(auto, unfolding(crate::specs::LimitFields::limits))]
pub fn read_limits(text: TextKind, value: &Value) -> Result<Limits, ReadError>
    ensures { result ≡ field.limits text (view value.now) }
{
    let layout = read_layout(text, value)?;
    let readers = read_readers(text, layout, value)?;
    let versions = read_versions(text, layout, value)?;
    Ok(limits_from(layout, readers, versions))
}
