//! The alternate screen's page.
ghost use Rattle.std.specs.Prelude.{◌≡◌, ◌<◌, ◌%◌, ◌==◌, ◌&&◌, nat_lt, length};
ghost use Rattle.con_page.specs.Words.Page.{IsPage};
ghost use Rattle.con_page.specs.Setters.{default_tabs};
ghost use Rattle.con_page.specs.Alternate.{alternate_page};

use crate::page::Page;

// Whether a tab stops at a column by default.
fn is_stop(at: usize) -> bool
    ensures { result ≡ (nat_lt 0 at && (at % 8 == 0)) }
{
    0 < at && at % 8 == 0
}

// The tab stops become the default.
fn reset_stops(tabs: &mut Vec<bool>)
    ensures { tabs.new.items ≡ default_tabs (length tabs.old.items) }
{
    let count = tabs.len();
    for at in 0..count {
        tabs[at] = is_stop(at);
    }
}

impl Page {
    // Becomes the alternate page of a main one.
    pub fn begin_alternate(&mut self, main: &Page)
        requires page { IsPage self.old }
        requires main { IsPage main.now }
        ensures effect { self.new ≡ alternate_page self.old main.now }
        ensures page { IsPage self.new }
    {
        let cell = main.blank();
        let count = self.grid.count();
        self.grid.fill(0, count, cell);
        reset_stops(&mut self.tabs);
        self.x = 0;
        self.y = 0;
        self.visible = main.visible;
        self.cursor_size = main.cursor_size;
        self.left = 0;
        self.top = 0;
        self.mode = main.mode;
        self.pen = main.pen;
        self.saved_x = 0;
        self.saved_y = 0;
        self.margins = None;
        self.drawing = false;
        self.late = false;
    }
}
