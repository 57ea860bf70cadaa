//! Numbers that are drawn, and the calls that they choose.

ghost use Rattle.std.specs.Prelude.{◌≡◌, ◌+◌, ◌<◌, IfOk, OnOk};
ghost use Rattle.con_script.specs.Generated.{moved};
ghost use Rattle.con_script.specs.Draws.{drawn, units_drawn, text_drawn, line_drawn};
ghost use Rattle.con_script.specs.Draws.{colour_drawn, cursor_drawn, attrs_drawn, rect_drawn, key_drawn, kind_drawn, step_drawn};

use con_events::{Call, Step};
use con_records::{Key, Record, Taken};
use con_units::{OutOfMemory, Rect, Units};
use std::alloc::Global;

/// A generator of numbers.
#[derive(Drop)]
pub(crate) struct Draws {
    pub(crate) state: u64,
}

/// A number below `below`.
#[tactic(auto, unfolding(crate::specs::Generated::moved, crate::specs::Draws::drawn))]
fn draw(draws: &mut Draws, below: u64) -> u64
    requires { 0 < below }
    ensures value { result ≡ drawn below (moved draws.old.state) }
    ensures less { result < below }
    ensures state { draws.new.state ≡ moved draws.old.state }
{
    draws.state = draws
        .state
        .wrapping_mul(6364136223846793005)
        .wrapping_add(1442695040888963407);
    (draws.state >> 33) % below
}

pub(crate) fn units(alloc: Global, list: &[u16]) -> Result<Units, OutOfMemory>
    ensures { IfOk result (λ us. us ≡ list.now) }
{
    match Vec::from_slice(alloc, list) {
        Ok(units) => Ok(Units(units)),
        Err(_) => Err(OutOfMemory),
    }
}

fn units_of_draws(alloc: Global, draws: &mut Draws, count: u64) -> Result<Units, OutOfMemory>
    ensures made { IfOk result (λ us. us ≡ (units_drawn count draws.old.state).made) }
    ensures left { OnOk result (draws.new.state ≡ (units_drawn count draws.old.state).left) }
{
    let mut units = Vec::new(alloc);
    let mut more = count;
    while more > 0 {
        let unit = 32 + draw(draws, 95) as u16;
        let Ok(()) = units.push(unit) else {
            return Err(OutOfMemory);
        };
        more -= 1;
    }
    Ok(Units(units))
}

fn text_step(alloc: Global, draws: &mut Draws) -> Result<Step, OutOfMemory>
    ensures made { IfOk result (λ s. s ≡ (text_drawn draws.old.state).made) }
    ensures left { OnOk result (draws.new.state ≡ (text_drawn draws.old.state).left) }
{
    let count = 1 + draw(draws, 40);
    Ok(Step::Call(Call::Write(2, units_of_draws(alloc, draws, count)?)))
}

fn line_step(alloc: Global, draws: &mut Draws) -> Result<Step, OutOfMemory>
    ensures made { IfOk result (λ s. s ≡ (line_drawn draws.old.state).made) }
    ensures left { OnOk result (draws.new.state ≡ (line_drawn draws.old.state).left) }
{
    Ok(Step::Call(Call::Write(2, units(alloc, &[13, 10])?)))
}

fn colour_step(alloc: Global, draws: &mut Draws) -> Result<Step, OutOfMemory>
    ensures made { IfOk result (λ s. s ≡ (colour_drawn draws.old.state).made) }
    ensures left { OnOk result (draws.new.state ≡ (colour_drawn draws.old.state).left) }
{
    let colour = 48 + draw(draws, 8) as u16;
    let list = [27, 91, 51, colour, 109];
    Ok(Step::Call(Call::Write(2, units(alloc, &list)?)))
}

fn cursor_step(draws: &mut Draws) -> Step
    ensures made { result ≡ (cursor_drawn draws.old.state).made }
    ensures left { draws.new.state ≡ (cursor_drawn draws.old.state).left }
{
    let x = draw(draws, 80) as i16;
    let y = draw(draws, 25) as i16;
    Step::Call(Call::SetCursor(2, x, y))
}

fn attrs_step(draws: &mut Draws) -> Step
    ensures made { result ≡ (attrs_drawn draws.old.state).made }
    ensures left { draws.new.state ≡ (attrs_drawn draws.old.state).left }
{
    let x = draw(draws, 80) as i16;
    let y = draw(draws, 25) as i16;
    let count = draw(draws, 200) as u32;
    let word = draw(draws, 256) as u16;
    Step::Call(Call::FillAttrs(2, x, y, count, word))
}

fn rect_step(draws: &mut Draws) -> Step
    ensures made { result ≡ (rect_drawn draws.old.state).made }
    ensures left { draws.new.state ≡ (rect_drawn draws.old.state).left }
{
    let left = draw(draws, 80) as i16;
    let top = draw(draws, 25) as i16;
    let right = draw(draws, 80) as i16;
    let bottom = draw(draws, 25) as i16;
    Step::Call(Call::RectRead(
        2,
        Rect {
            left,
            top,
            right,
            bottom,
        },
    ))
}

fn key_step(alloc: Global, draws: &mut Draws) -> Result<Step, OutOfMemory>
    ensures made { IfOk result (λ s. s ≡ (key_drawn draws.old.state).made) }
    ensures left { OnOk result (draws.new.state ≡ (key_drawn draws.old.state).left) }
{
    let key = Key {
        down: true,
        repeat: 1,
        vk: 0,
        scan: 0,
        unit: 97 + draw(draws, 26) as u16,
        state: 0,
    };
    let mut records = Vec::new(alloc);
    let Ok(()) = records.push(Record::Key(key)) else {
        return Err(OutOfMemory);
    };
    Ok(Step::Call(Call::WriteInput(1, Taken(records))))
}

fn kind_step(alloc: Global, draws: &mut Draws, kind: u64) -> Result<Step, OutOfMemory>
    requires { kind < 8 }
    ensures made { IfOk result (λ s. s ≡ (kind_drawn kind draws.old.state).made) }
    ensures left { OnOk result (draws.new.state ≡ (kind_drawn kind draws.old.state).left) }
{
    match kind {
        0 => text_step(alloc, draws),
        1 => line_step(alloc, draws),
        2 => colour_step(alloc, draws),
        3 => Ok(cursor_step(draws)),
        4 => Ok(attrs_step(draws)),
        5 => Ok(rect_step(draws)),
        6 => key_step(alloc, draws),
        _ => Ok(Step::Call(Call::Peek(1, 4))),
    }
}

/// A call that is drawn.
#[tactic(auto, unfolding(crate::specs::Draws::step_drawn))]
pub(crate) fn step(alloc: Global, draws: &mut Draws) -> Result<Step, OutOfMemory>
    ensures made { IfOk result (λ s. s ≡ (step_drawn draws.old.state).made) }
    ensures left { OnOk result (draws.new.state ≡ (step_drawn draws.old.state).left) }
{
    let kind = draw(draws, 8);
    kind_step(alloc, draws, kind)
}
