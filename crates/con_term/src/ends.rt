//! Line feeds and carriage returns in a row.
ghost use Rattle.std.specs.Prelude.{◌≡◌, ◌≤◌, length, take, true, [], ◌∷◌};
ghost use Rattle.std.specs.List.{list_all};
ghost use Rattle.con_term.specs.Ends.{is_end as is_end_unit, feeds_in};

/// How many bytes at the front are line feeds and carriage returns, and how many of them are line feeds.
#[derive(Clone, Copy)]
pub struct Ends {
    pub count: usize,
    pub feeds: usize,
}

/// Whether the byte is a line feed or a carriage return.
pub fn is_end(byte: u8) -> bool
    ensures { result ≡ is_end_unit byte }
{
    byte == 10 || byte == 13
}

#[tactic(auto, unfolding(crate::specs::Ends::feeds_in))]
fn one_if_feed(byte: u8) -> usize
    ensures feeds { result ≡ feeds_in (byte ∷ []) }
    ensures few { result ≤ 1 }
{
    if byte == 10 { 1 } else { 0 }
}

/// Counts those at the front.
pub fn ends_at_front(bytes: &[u8]) -> Ends
    ensures few { result.count ≤ length bytes.now }
    ensures ends { list_all is_end_unit (take result.count bytes.now) ≡ true }
    ensures feeds { result.feeds ≡ feeds_in (take result.count bytes.now) }
{
    let mut count = 0;
    let mut feeds = 0;
    while count < bytes.len() {
        let byte = bytes[count];
        if !is_end(byte) {
            return Ends { count, feeds };
        }
        feeds += one_if_feed(byte);
        count += 1;
    }
    Ends { count, feeds }
}
