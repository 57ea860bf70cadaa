//! Callers that use each clause of con_values with values that they do not know.

ghost use Rattle.std.specs.Prelude.{◌≡◌, ◌≤◌, pos, Some, None, IfSome, option_map};
ghost use Rattle.serde_json.specs.View.{view};
ghost use Rattle.con_values.specs.Values.{rect_in, clip_in, signed_in};

use con_units::Rect;
use con_values::{clip, number, rect, signed};
use serde_json::Value;

/// The rectangle that a value is, or all, where it is null.
pub fn area(value: &Value, all: Rect) -> Option<Rect>
    ensures none { clip_in (view value.now) ≡ None → result ≡ None }
    ensures all { clip_in (view value.now) ≡ Some None → result ≡ Some all }
{
    match clip(value) {
        None => None,
        Some(None) => Some(all),
        Some(Some(area)) => Some(area),
    }
}

/// A value's left side.
pub fn left(value: &Value) -> Option<i16>
    ensures { result ≡ option_map (λ r. r.left) (rect_in (view value.now)) }
{
    match rect(value) {
        Some(area) => Some(area.left),
        None => None,
    }
}

/// A place, or 0 where the value is none.
pub fn place(value: &Value) -> i16
    ensures { signed_in (view value.now) ≡ None → result ≡ pos 0 }
{
    signed(value).unwrap_or(0)
}

/// A number that is no more than another one.
pub fn at_most(value: &Value, most: u32) -> Option<u32>
    ensures { IfSome result (λ n. n ≤ most) }
{
    match number(value) {
        Some(n) if n <= most => Some(n),
        _ => None,
    }
}
