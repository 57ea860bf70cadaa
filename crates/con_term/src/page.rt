//! The page of a terminal.
ghost use Rattle.std.specs.Prelude.{IfOk, ◌≡◌, ℕ, ◌≤◌, ◌<◌, ◌*◌, ◌^◌, length, [], vec_capacity, true, take, fold, option_to_list, min, ◌+◌, ◌-◌, ◌==◌};
ghost use Rattle.con_term.specs.Words.Terminal.{view_of};
ghost use Rattle.con_term.specs.Run.{all_printed};
ghost use Rattle.con_term.specs.Play.{units_of};
ghost use Rattle.con_term.specs.Ends.{is_end, all_done, fed, ended};
ghost use Rattle.con_units.specs.Plain.{is_plain};
ghost use Rattle.con_vtgram.specs.State.{item_of};
ghost use Rattle.con_vtgram.specs.declared.item.Item.TheVariants as Item;
ghost use Rattle.std.specs.List.{list_all};
ghost use Rattle.con_term.specs.Effect.{row_end, unpended, gone_to, moved_to};
ghost use Rattle.con_term.specs.Steps.{lifted, display_erased, line_erased, some_erased};
ghost use Rattle.con_term.specs.Effect.{control_effect, plain_effect, effect};
ghost use Rattle.con_vtgram.specs.Sgr.{pen_of};
ghost use Rattle.con_term.specs.Page.{IsPage, blank_page, place, blank, erased, lowered, wrapped, printed};
ghost use Rattle.con_term.specs.Steps.{scrolled, put, advanced};

use crate::block::Block;
use crate::cells::copy_into;
use crate::ends::ends_at_front;
use crate::front::surrogates;
use con_units::{Cell, Coord, OutOfMemory, Rows, Size, View};
use con_vtgram::pen::{Pen, after_all};
use con_vtgram::{Csi, Found};
use std::alloc::Global;
use std::marker::Model;

/// A page, with its cells row by row.
#[derive(Drop)]
pub struct Page {
    size: Size,
    cells: Block,
    x: u16,
    y: u16,
    pen: Pen,
    pending: bool,
    visible: bool,
}

impl Model for Page {
    ghost use Rattle.con_term.specs.Page.{Page};

    ghost Value = { Page };

    ghost use Rattle.con_term.specs.PageView.{page_of, IsHeldPage};

    ghost view = { page_of };

    ghost invariant = { IsHeldPage };
}

impl Page {
    /// A page of spaces.
    pub fn new(alloc: Global, size: Size) -> Result<Page, OutOfMemory>
        requires some { (0 < size.w) × (0 < size.h) }
        requires few { (size.w ≤ 512) × (size.h ≤ 256) }
        ensures { IfOk result (λ page. page ≡ blank_page size.w size.h) }
    {
        let pen = Pen::starting();
        let cell = Cell::new(0x20, pen.attr());
        let Ok(cells) = Block::new(alloc, size.h as usize * size.w as usize, cell) else {
            return Err(OutOfMemory);
        };
        Ok(Page {
            size,
            cells,
            x: 0,
            y: 0,
            pen,
            pending: false,
            visible: true,
        })
    }

    /// Every page is one: a law.
    pub fn is_page(&self)
        ensures { IsPage self.now }
    {
        // A field is read, so that the clause has the invariant.
        let _ = &self.size;
    }

    /// The allocator of its cells.
    pub fn allocator(&self) -> Global {
        self.cells.allocator()
    }

    /// What it shows, in a list that is empty and has room for all cells.
    pub fn view(&self, rows: Vec<Cell>) -> View
        requires none { rows.items ≡ [] }
        requires room { self.now.h * self.now.w ≤ vec_capacity rows }
        ensures { result ≡ view_of self.now }
    {
        let mut rows = rows;
        copy_into(&mut rows, self.cells.as_slice());
        let cursor = if self.visible {
            Coord {
                x: self.x as i16,
                y: self.y as i16,
            }
        } else {
            Coord { x: 0, y: 0 }
        };
        View {
            size: self.size,
            rows: Rows(rows),
            cursor,
            visible: self.visible,
        }
    }

    /// Its cells, row by row.
    pub fn cells(&self) -> &[Cell]
        ensures cells { result.now ≡ self.now.cells }
        ensures whole { length result.now ≡ self.now.h * self.now.w }
    {
        self.cells.as_slice()
    }

    /// Its sides.
    pub fn size(&self) -> Size
        ensures sides { (result.w ≡ self.now.w) × (result.h ≡ self.now.h) }
        ensures few { (result.w ≤ 512) × (result.h ≤ 256) }
    {
        self.size
    }

    /// Its cursor's column.
    pub fn column(&self) -> u16
        ensures column { result ≡ self.now.x }
        ensures few { result < 512 }
    {
        self.x
    }

    /// Its cursor's row.
    pub fn row(&self) -> u16
        ensures row { result ≡ self.now.y }
        ensures few { result < 256 }
    {
        self.y
    }

    /// Whether its cursor shows.
    pub fn is_visible(&self) -> bool
        ensures { result ≡ self.now.visible }
    {
        self.visible
    }

    fn index(&self) -> usize
        ensures place { result ≡ place self.now }
        ensures inside { result < length self.now.cells }
    {
        self.y as usize * self.size.w as usize + self.x as usize
    }

    fn blank(&self) -> Cell
        ensures { result ≡ blank self.now }
    {
        Cell::new(0x20, self.pen.attr())
    }

    fn scroll(&mut self)
        ensures { self.new ≡ scrolled self.old }
    {
        let cell = self.blank();
        self.cells.lift(self.size.w as usize, cell);
    }

    #[tactic(auto, unfolding(crate::specs::Page::lowered))]
    fn lower(&mut self)
        ensures { self.new ≡ lowered self.old }
    {
        if self.y + 1 < self.size.h {
            self.y += 1;
        } else {
            self.scroll();
        }
    }

    fn wrap(&mut self)
        ensures { self.new ≡ wrapped self.old }
    {
        if self.pending {
            self.lower();
            self.x = 0;
            self.pending = false;
        }
    }

    fn put(&mut self, unit: u16)
        ensures { self.new ≡ put unit self.old }
    {
        let at = self.index();
        let cell = Cell::new(unit, self.pen.attr());
        self.cells.set(at, cell);
    }

    fn advance(&mut self)
        ensures { self.new ≡ advanced self.old }
    {
        if self.x + 1 < self.size.w {
            self.x += 1;
        } else {
            self.pending = true;
        }
    }

    /// Prints a unit.
    #[tactic(auto, unfolding(crate::specs::Page::printed))]
    pub fn print(&mut self, unit: u16)
        ensures { self.new ≡ printed unit self.old }
    {
        self.wrap();
        self.put(unit);
        self.advance();
    }

    /// Prints a character of any width: its unit, or its two units.
    #[tactic(auto, unfolding(crate::specs::Play::units_of, crate::specs::Run::all_printed))]
    pub fn print_character(&mut self, code: u32)
        requires { code < 0x140000 }
        ensures { self.new ≡ all_printed self.old (units_of code) }
    {
        if code < 0x10000 {
            self.print(code as u16);
        } else {
            let (high, low) = surrogates(code);
            self.print(high);
            self.print(low);
        }
    }

    // Erases the cells from one place up to another; no wrap is pending then.
    fn erase(&mut self, from: usize, upto: usize)
        requires order { from ≤ upto }
        requires inside { upto ≤ length self.old.cells }
        ensures { self.new ≡ unpended (erased self.old from upto) }
    {
        let cell = self.blank();
        self.cells.fill(from, upto, cell);
        self.pending = false;
    }

    // The place behind the row's last one.
    fn row_end(&self) -> usize
        ensures end { result ≡ row_end self.now }
        ensures inside { result ≤ length self.now.cells }
        ensures here { place self.now < result }
        ensures small { result < 2 ^ 20 }
    {
        self.y as usize * self.size.w as usize + self.size.w as usize
    }

    fn count(&self) -> usize
        ensures count { result ≡ self.now.h * self.now.w }
        ensures whole { result ≡ length self.now.cells }
    {
        // A field is read, so that the first clause has the invariant.
        let _ = &self.size;
        self.cells.len()
    }

    fn go_to(&mut self, row: u16, column: u16)
        ensures { self.new ≡ gone_to self.old row column }
    {
        self.x = column.max(1).min(self.size.w) - 1;
        self.y = row.max(1).min(self.size.h) - 1;
        self.pending = false;
    }

    fn move_to(&mut self, x: u16, y: u16)
        requires inside { (x < self.old.w) × (y < self.old.h) }
        ensures { self.new ≡ moved_to self.old x y }
    {
        self.x = x;
        self.y = y;
        self.pending = false;
    }

    // All rows go up by n.
    fn lift(&mut self, n: u16)
        ensures { self.new ≡ lifted self.old n }
    {
        let cell = self.blank();
        let count = n.min(self.size.h) as usize * self.size.w as usize;
        self.cells.lift(count, cell);
    }

    #[tactic(auto, unfolding(crate::specs::Effect::part_erased))]
    fn erase_display(&mut self, how: u16)
        ensures { self.new ≡ display_erased self.old how }
    {
        let at = self.index();
        let count = self.count();
        match how {
            0 => self.erase(at, count),
            1 => self.erase(0, at + 1),
            2 => self.erase(0, count),
            _ => {}
        }
    }

    #[tactic(auto, unfolding(crate::specs::Effect::part_erased))]
    fn erase_line(&mut self, how: u16)
        ensures { self.new ≡ line_erased self.old how }
    {
        let at = self.index();
        let start = at - self.x as usize;
        let end = self.row_end();
        match how {
            0 => self.erase(at, end),
            1 => self.erase(start, at + 1),
            2 => self.erase(start, end),
            _ => {}
        }
    }

    fn erase_some(&mut self, count: u16)
        ensures { self.new ≡ some_erased self.old count }
    {
        let at = self.index();
        let end = self.row_end();
        self.erase(at, (at + count.max(1) as usize).min(end));
    }

    fn control(&mut self, unit: u16)
        ensures { self.new ≡ control_effect self.old unit }
    {
        match unit {
            // BS
            8 => {
                self.x = self.x.saturating_sub(1);
                self.pending = false;
            }
            // LF
            10 => {
                self.lower();
                self.pending = false;
            }
            // CR
            13 => {
                self.x = 0;
                self.pending = false;
            }
            _ => {}
        }
    }

    fn set_pen(&mut self, csi: &Csi)
        ensures { self.new ≡ record self.old { pen = pen_of csi.now self.old.pen } }
    {
        if csi.count == 0 {
            self.pen = Pen::starting();
        } else {
            self.pen = after_all(self.pen, &csi.params[..csi.count.min(16) as usize]);
        }
    }

    #[tactic(auto, unfolding(crate::specs::Effect::plain_effect))]
    fn sequence(&mut self, csi: &Csi)
        ensures { self.new ≡ plain_effect self.old csi.now }
    {
        let first = csi.params[0];
        let n = first.max(1);
        let x = self.x;
        let y = self.y;
        match csi.last {
            // CUU, CSI A
            0x41 => self.move_to(x, y.saturating_sub(n)),
            // CUD, CSI B
            0x42 => self.move_to(x, y.saturating_add(n).min(self.size.h - 1)),
            // CUF, CSI C
            0x43 => self.move_to(x.saturating_add(n).min(self.size.w - 1), y),
            // CUB, CSI D
            0x44 => self.move_to(x.saturating_sub(n), y),
            // CUP, CSI H; HVP, CSI f
            0x48 | 0x66 => self.go_to(first, csi.params[1]),
            // SU, CSI S
            0x53 => self.lift(n),
            // ED, CSI J
            0x4A => self.erase_display(first),
            // EL, CSI K
            0x4B => self.erase_line(first),
            // ECH, CSI X
            0x58 => self.erase_some(first),
            // SGR, CSI m
            0x6D => self.set_pen(csi),
            _ => {}
        }
    }

    /// Applies the item of a kind, with its unit or its control sequence.
    // Not inlined, so that a unit that completes nothing saves no registers.
    #[inline(never)]
    #[tactic(auto, unfolding(crate::specs::Effect::effect))]
    pub fn apply(&mut self, found: Found, unit: u16, csi: &Csi)
        ensures { self.new ≡ fold effect self.old (option_to_list (item_of found unit csi.now)) }
    {
        match found {
            Found::Print => self.print(unit),
            Found::Control => self.control(unit),
            Found::Sequence => self.any_sequence(csi),
            Found::Nothing => {}
            Found::Escape => {}
            Found::Charset => {}
            Found::Title => {}
        }
    }

    #[tactic(auto, unfolding(crate::specs::Effect::effect, crate::specs::Effect::private_effect))]
    fn any_sequence(&mut self, csi: &Csi)
        ensures { self.new ≡ effect self.old (Item.Csi csi.now) }
    {
        if csi.inter == 0 {
            if !csi.private {
                self.sequence(csi);
            } else if csi.params[0] == 25 && (csi.last == 0x68 || csi.last == 0x6C) {
                // DECTCEM, CSI ? 25 h and CSI ? 25 l
                self.visible = csi.last == 0x68;
            }
        }
    }

    /// Prints bytes of printable ASCII from the front on that end in the cursor's row, and tells how many.
    pub fn print_run(&mut self, bytes: &[u8]) -> usize
        ensures few { result ≤ length bytes.now }
        ensures plain { list_all is_plain (take result bytes.now) ≡ true }
        ensures printed { self.new ≡ all_printed self.old (take result bytes.now) }
    {
        if self.pending {
            return 0;
        }
        let at = self.index();
        let room = (self.size.w - self.x) as usize;
        let most = room.min(bytes.len());
        let attr = self.pen.attr();
        let count = self.cells.write_run(at, bytes, most, attr);
        self.go_on(count as u16);
        count
    }

    /// Takes line feeds and carriage returns from the front on, all at once, and tells how many.
    pub fn end_rows(&mut self, bytes: &[u8]) -> usize
        ensures few { result ≤ length bytes.now }
        ensures ends { list_all is_end (take result bytes.now) ≡ true }
        ensures done { self.new ≡ all_done self.old (take result bytes.now) }
    {
        self.is_page();
        let ends = ends_at_front(bytes);
        if ends.count == 0 {
            return 0;
        }
        self.end(ends.count, ends.feeds);
        ends.count
    }

    fn end(&mut self, count: usize, feeds: usize)
        ensures { self.new ≡ ended self.old count feeds }
    {
        self.feed(feeds);
        if feeds < count {
            self.x = 0;
        }
    }

    /// The cursor goes down by n rows; all rows go up by those that are not there.
    pub fn feed(&mut self, n: usize)
        ensures { self.new ≡ fed self.old n }
    {
        let last = self.size.h - 1;
        let room = (last - self.y) as usize;
        if n <= room {
            self.y += n as u16;
        } else {
            self.y = last;
            self.lift((n - room).min(256) as u16);
        }
        self.pending = false;
    }

    // The cursor goes on in its row.
    fn go_on(&mut self, count: u16)
        requires { self.old.x + count ≤ self.old.w }
        ensures { self.new ≡ record self.old { x = min (self.old.x + count) (self.old.w - 1); pending = self.old.x + count == self.old.w } }
    {
        let x = self.x + count;
        if x < self.size.w {
            self.x = x;
            self.pending = false;
        } else {
            self.x = self.size.w - 1;
            self.pending = true;
        }
    }
}
