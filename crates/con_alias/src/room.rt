//! Room that is made before an alias is added.
ghost use Rattle.std.specs.Prelude.{◌≡◌};

use crate::alias::Alias;
use crate::program::ProgramAliases;
use std::marker::Model;

/// Room for [`Aliases::add`](crate::Aliases::add): the alias, and a list for a program that has none. None where the
/// texts are refused.
#[derive(Drop)]
pub struct AliasRoom {
    pub(crate) new: Option<Alias>,
    pub(crate) list: Option<(Vec<u16>, ProgramAliases)>,
}

impl Model for AliasRoom {
    ghost use Rattle.std.specs.Prelude.{◌<◌};
    ghost use Rattle.std.specs.Option.{ForSome, option_map};
    ghost use Rattle.con_alias.specs.Room.{Prepared, listed};

    ghost Value = { Prepared };

    ghost view = { λ room. record { new = room.new; list = option_map (λ p. listed p.0.items p.1) room.list } };

    ghost invariant = { λ room. ForSome room.list (λ p. 0 < p.1.spare) };
}
