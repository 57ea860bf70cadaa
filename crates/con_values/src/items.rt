//! The items of an array, taken one after another.

ghost use Rattle.std.specs.Prelude.{◌≡◌, option_map};
ghost use Rattle.con_values.specs.Cursors.{front, back};

use serde_json::Value;

/// The items that are left.
#[derive(Drop)]
pub struct ItemsLeft<'v> {
    pub left: &'v [Value],
}

/// Takes the next item.
pub fn take<'v>(items: &mut ItemsLeft<'v>) -> Option<&'v Value>
    ensures here { option_map (λ v. v.now) result ≡ front items.old.left.now }
    ensures rest { items.new.left.now ≡ back items.old.left.now }
{
    match items.left {
        [first, rest @ ..] => {
            items.left = rest;
            Some(first)
        }
        [] => None,
    }
}
