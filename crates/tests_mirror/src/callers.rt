//! Callers that know a mirror by its clauses alone.
ghost use Rattle.std.specs.Prelude.{◌≡◌, false, length, drop, IfOk, None, Some};
ghost use Rattle.con_units.specs.Words.Limits.{IsWindow};
ghost use Rattle.con_units.specs.Words.View.{IsWhole};
ghost use Rattle.con_term.specs.Play.{play};
ghost use Rattle.con_term.specs.Terminal.{Terminal, IsTerminal, Shows};
ghost use Rattle.con_mirror.specs.Mirror.{WasMirrored};
ghost use Rattle.con_mirror.specs.Part.{part};

use con_mirror::Mirror;
use con_paint::room_for;
use con_units::{Marks, OutOfMemory, Size, View};

/// Attaches a terminal and shows it a view, whatever rows have marks: whatever terminal of that size it is, it shows the part then.
pub fn attach_and_show(
    mirror: &mut Mirror,
    size: Size,
    view: &View,
    marks: &Marks,
    out: &mut Vec<u8>,
) -> Result<(), OutOfMemory>
    requires window { IsWindow size.w size.h }
    requires view { IsWhole view.now }
    requires marks { length marks.now ≡ view.now.size.h }
    ensures shows { IfOk result (λ _. (t : Terminal) → IsTerminal size.w size.h t
        → Shows (play t (drop (length out.old.items) out.new.items)) (part view.now size)) }
    ensures shown { IfOk result (λ _. WasMirrored mirror.new.kept view.now) }
    ensures given { IfOk result (λ _. mirror.new.given ≡ Some view.now) }
{
    if out.reserve(room_for(size)).is_err() {
        return Err(OutOfMemory);
    }
    mirror.attach(size)?;
    mirror.paint(view, marks, out);
    Ok(())
}

/// Shows a view that is shown already, which takes no byte, whatever rows have marks.
pub fn show_again(
    mirror: &mut Mirror,
    view: &View,
    marks: &Marks,
    out: &mut Vec<u8>,
) -> Result<(), OutOfMemory>
    requires view { IsWhole view.now }
    requires given { mirror.old.given ≡ Some view.now }
    requires marks { length marks.now ≡ view.now.size.h }
    requires shown { WasMirrored mirror.old.kept view.now }
    ensures quiet { out.new.items ≡ out.old.items }
    ensures shown { WasMirrored mirror.new.kept view.now }
    ensures given { mirror.new.given ≡ Some view.now }
{
    let Some(size) = mirror.size() else {
        return Ok(());
    };
    if out.reserve(room_for(size)).is_err() {
        return Err(OutOfMemory);
    }
    mirror.paint(view, marks, out);
    Ok(())
}

/// Attaches a terminal in the place of another one. Without memory the other one stays.
pub fn change(mirror: &mut Mirror, size: Size) -> bool
    requires window { IsWindow size.w size.h }
    ensures { result ≡ false → mirror.new ≡ mirror.old }
{
    mirror.attach(size).is_ok()
}

/// A mirror that was detached has no size.
pub fn detached_size(mirror: &mut Mirror) -> Option<Size>
    ensures { result ≡ None }
{
    mirror.detach();
    mirror.size()
}
