//! Line feeds and carriage returns in a row.
ghost use Rattle.std.specs.Prelude.{◌≡◌, ◌≤◌, length, take, true, [], ◌∷◌};
ghost use Rattle.std.specs.List.{list_all};
ghost use Rattle.con_page.specs.Ends as ends;

/// How many units at the front are line feeds and carriage returns, and how many of them are line feeds.
#[derive(Clone, Copy)]
pub(crate) struct Ends {
    pub(crate) count: usize,
    pub(crate) feeds: usize,
}

pub fn is_end(unit: u16) -> bool
    ensures { result ≡ ends.is_end unit }
{
    unit == 10 || unit == 13
}

#[tactic(auto, unfolding(crate::specs::Ends::feeds_in))]
fn one_if_feed(unit: u16) -> usize
    ensures feeds { result ≡ ends.feeds_in (unit ∷ []) }
    ensures few { result ≤ 1 }
{
    if unit == 10 { 1 } else { 0 }
}

/// Counts those at the front.
pub(crate) fn ends_at_front(units: &[u16]) -> Ends
    ensures count { result.count ≤ length units.now }
    ensures all { list_all ends.is_end (take result.count units.now) ≡ true }
    ensures feeds { result.feeds ≡ ends.feeds_in (take result.count units.now) }
{
    let mut count = 0;
    let mut feeds = 0;
    while count < units.len() {
        let unit = units[count];
        if !is_end(unit) {
            return Ends { count, feeds };
        }
        feeds += one_if_feed(unit);
        count += 1;
    }
    Ends { count, feeds }
}
