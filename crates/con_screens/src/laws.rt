//! Laws of buffers that lend a screen, count handles, are written and are seen.
ghost use Rattle.std.specs.Prelude.{◌≡◌, ◌≢◌, ℕ, ◌+◌, ◌<◌, ◌==◌, true, List, [], ◌++◌, Option, Some, if◌then◌else◌};
ghost use Rattle.con_units.specs.Glyph.{Glyph};
ghost use Rattle.con_units.specs.declared.place.Size.{Size};
ghost use Rattle.con_units.specs.View.{row_of, row_part};
ghost use Rattle.con_units.specs.Words.View.{IsWhole};
ghost use Rattle.con_grid.specs.Picture.{raised};
ghost use Rattle.con_page.specs.Page.{Page};
ghost use Rattle.con_page.specs.Words.Page.{IsPage};
ghost use Rattle.con_screen.specs.Screen.{Screen};
ghost use Rattle.con_page.specs.Sides.{sides};
ghost use Rattle.con_screen.specs.Told.{Told};
ghost use Rattle.con_screens.specs.Buffer.{buffer_written};
ghost use Rattle.con_screens.specs.Words.Buffer.{HasWindow};
ghost use Rattle.con_screens.specs.Buffers.{Buffers, buffer_at, screen_at, is_alternate, handles_of, with_buffer, free_id, created, handle_retained, handle_released};
ghost use Rattle.con_screens.specs.Words.Buffers.{AreBuffers, IsLive};
ghost use Rattle.con_screens.specs.Lending.{screen_left};
ghost use Rattle.con_screens.specs.View.{view_of};
ghost use Rattle.con_screens.specs.Words.Stamps.{all_remembered, WasShown};

/// A screen that was lent and keeps its sides leaves sound buffers, and so does one that was resized behind the window;
/// on an alternate screen, to the window's size. Nothing else changes.
pub fn is_kept_when_lent()
    ensures kept { (s : Buffers) (id : ℕ) (lent now : Screen) → AreBuffers s → IsLive s id → lent ≡ screen_at s id → IsPage now.page
        → sides now.page ≡ sides lent.page → AreBuffers (screen_left s id now) }
    ensures resized { (s : Buffers) (id : ℕ) (now : Screen) (buffer window : Size) (n : ℕ) (m : Option (List Glyph)) → AreBuffers s → IsLive s id
        → IsPage now.page → sides now.page ≡ record { width = buffer.w; height = buffer.h; w = window.w; h = window.h; now = n; moment = m }
        → window.w ≡ s.w → window.h ≡ s.h → (is_alternate s id ≡ true → buffer ≡ window) → AreBuffers (screen_left s id now) }
    ensures remembers { (s : Buffers) (id : ℕ) (lent now : Screen) → lent ≡ screen_at s id → sides now.page ≡ sides lent.page
        → all_remembered (screen_left s id now) ≡ all_remembered s }
    ensures handles { (s : Buffers) (id : ℕ) (now : Screen) (k : ℕ) → handles_of (screen_left s id now) k ≡ handles_of s k }
    ensures same { (s : Buffers) (id : ℕ) → screen_left s id (screen_at s id) ≡ s }
    ensures shows { (s : Buffers) (id : ℕ) (now : Screen) → IsLive s id → screen_at (screen_left s id now) id ≡ now }
    ensures others { (s : Buffers) (id k : ℕ) (now : Screen) → k ≢ id → buffer_at (screen_left s id now) k ≡ buffer_at s k }
{}

/// A buffer counts one handle more after `retain_handle`, one less after `release_handle`, and one after `create`, where
/// none had its id; other buffers count as many as before.
pub fn is_counted()
    ensures retained { (s : Buffers) (id k : ℕ) → IsLive s id → k ≢ 0 → handles_of (handle_retained s id) k ≡ (if id == k then 1 else 0) + handles_of s k }
    ensures released { (s : Buffers) (id k : ℕ) → IsLive s id → k ≢ 0 → (id ≡ k → 0 < handles_of s k)
        → (if id == k then 1 else 0) + handles_of (handle_released s id) k ≡ handles_of s k }
    ensures created { (s : Buffers) (id k : ℕ) → free_id s ≡ Some id → handles_of (created s id) k ≡ (if id == k then 1 else 0) + handles_of s k }
{}

/// A text of no units changes nothing, and two texts in turn are the whole text, whatever was told before each.
pub fn is_written_in_turn()
    ensures nothing { (s : Buffers) (id : ℕ) (t : Told) → with_buffer s id (buffer_written t []) ≡ s }
    ensures both { (s : Buffers) (id : ℕ) (t u v : Told) (xs ys : List ℕ)
        → with_buffer (with_buffer s id (buffer_written t xs)) id (buffer_written u ys) ≡ with_buffer s id (buffer_written v (xs ++ ys)) }
{}

/// Row y of a view is the window's part of the grid's row top + y. So a row that is as it was, seen by a window at the
/// same columns, gives the same row of the view.
pub fn is_seen_by_rows()
    ensures whole { (p : Page) → IsPage p → IsWhole (view_of p) }
    ensures row { (p : Page) (y : ℕ) → IsPage p → y < p.h → row_of p.w (view_of p).rows y ≡ row_part p.grid.width p.grid.cells p.left p.w (p.top + y) }
    ensures same { (p q : Page) (y : ℕ) → IsPage p → IsPage q → p.grid.width ≡ q.grid.width → p.left ≡ q.left → p.w ≡ q.w → y < p.h → y < q.h
        → row_of p.grid.width p.grid.cells (p.top + y) ≡ row_of q.grid.width q.grid.cells (q.top + y)
        → row_of p.w (view_of p).rows y ≡ row_of q.w (view_of q).rows y }
{}

/// When the number of a screen is raised, its view is the one that was shown at that moment, and it stays the view.
pub fn is_known_when_numbered()
    ensures shown { (p : Page) (n : ℕ) → IsPage p → p.grid.now < n → WasShown (sides (record p { grid = raised p.grid n })) p.left p.top (view_of p) }
    ensures view { (p : Page) (n : ℕ) → view_of (record p { grid = raised p.grid n }) ≡ view_of p }
{}
