// What a seat asks of the search: which decks are open to it, and which of two heights it prefers. The definitions of the search itself
// and the surveyor's statement are in specs/.
#![tactic(auto)]

ghost use Rattle.std.specs.Prelude.{◌≡◌, ◌<◌, length};
ghost use Rattle.survey.specs.Wishes.{choice_of, bit_of, is_open, gap_of, nearer};

use geometry::{Height, Vec2};

// A seat names one deck or leaves the deck open. An enum of its own and no Option: the document names its two cases.
#[derive(Clone, Copy, Debug, PartialEq, Eq)]
pub enum DeckChoice {
    AnyDeck,
    Named(usize),
}

// A seat has a wished height or none. An enum of its own and no Option: the document names its two cases.
#[derive(Clone, Copy, Debug, PartialEq)]
pub enum Wish {
    NoWish,
    Wished(f32),
}

// What a seat asks: its place, and where it has them a deck and a height.
#[derive(Clone, Copy, Debug, PartialEq)]
pub struct Seat {
    pub place: Vec2,
    pub choice: DeckChoice,
    pub wish: Wish,
}

// The deck that a number names, or any.
impl From<u32> for DeckChoice {
    #[tactic(auto, unfolding(crate::specs::Wishes::choice_of))]
    fn from(deck: u32) -> DeckChoice
        ensures { result ≡ choice_of deck }
    {
        if deck == words::ALL_ONES {
            DeckChoice::AnyDeck
        } else {
            DeckChoice::Named(deck as usize)
        }
    }
}

// The bit of a number at a place from 0 to 7.
fn bit(byte: u8, place: usize) -> bool
    requires { place < 8 }
    ensures { result ≡ bit_of byte place }
{
    (byte >> place) % 2 == 1
}

// Whether deck d is open: it is not in the blocked set and, where a deck is named, it is that one.
#[tactic(auto, unfolding(crate::specs::Wishes::is_open, crate::specs::Wishes::is_blocked))]
pub fn is_open(blocked: &[u8], choice: DeckChoice, d: usize) -> bool
    requires { (length blocked.now ≡ 32) × (d < 256) }
    ensures { result ≡ is_open blocked.now choice d }
{
    let free = !bit(blocked[d / 8], d % 8);
    match choice {
        DeckChoice::AnyDeck => free,
        DeckChoice::Named(n) => free && n == d,
    }
}

// |h - w|, the measure of section 7.
fn gap(h: f32, w: f32) -> f32
    ensures { result ≡ gap_of h w }
{
    geometry::abs(h - w)
}

// Whether a seat with this wish prefers the height a to the height b, wherever they come in the list.
#[tactic(auto, unfolding(crate::specs::Wishes::nearer))]
pub fn prefers_height(wish: Wish, a: Height, b: Height) -> bool
    ensures { result ≡ nearer wish a b }
{
    match (wish, a, b) {
        (Wish::Wished(w), Height::Known(h), Height::Known(g)) => gap(h, w) < gap(g, w),
        (Wish::Wished(_), Height::Known(_), Height::None) => true,
        _ => false,
    }
}
