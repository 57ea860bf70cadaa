//! Items, each with the window after it.
ghost use Rattle.std.specs.Prelude.{◌≡◌, ◌==◌, ◌&&◌, if◌then◌else◌, fold, option_to_list};
ghost use Rattle.con_vtgram.specs.State.{item_of};
ghost use Rattle.con_page.specs.Page.{shown};
ghost use Rattle.con_page.specs.Words.Page.{IsPage};
ghost use Rattle.con_page.specs.Effect.{act as acted};
ghost use Rattle.con_page.specs.Applied.{effect_if};

use super::Page;
use con_vtgram::{Csi, Found};

impl Page {
    // The window shows the cursor, unless it stands where it stood.
    fn follow(&mut self, x: u16, y: u16)
        requires page { IsPage self.old }
        ensures effect { self.new ≡ (if (self.old.x == x) && (self.old.y == y) then self.old else shown self.old) }
        ensures page { IsPage self.new }
    {
        if self.x == x && self.y == y {
            return;
        }
        self.show_cursor();
    }

    // What the item that a unit completes does, before the window follows.
    #[tactic(auto, unfolding(crate::specs::Effect::act))]
    fn act(&mut self, found: Found, unit: u16, csi: &Csi)
        requires page { IsPage self.old }
        ensures effect { self.new ≡ fold acted self.old (option_to_list (item_of found unit csi.now)) }
        ensures page { IsPage self.new }
    {
        match found {
            Found::Print => self.print(unit),
            Found::Control => self.control(unit),
            Found::Escape => self.escape(unit),
            Found::Charset => self.set_charset(unit),
            Found::Sequence => self.sequence(csi),
            Found::Nothing => {}
            Found::Title => {}
        }
    }

    /// Applies the item that a unit completes, if it completes one.
    pub fn apply(&mut self, found: Found, unit: u16, csi: &Csi)
        requires page { IsPage self.old }
        ensures effect { self.new ≡ effect_if self.old (item_of found unit csi.now) }
        ensures page { IsPage self.new }
    {
        let x = self.x;
        let y = self.y;
        self.act(found, unit, csi);
        self.follow(x, y);
    }
}
