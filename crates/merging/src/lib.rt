// Candidates that an earlier one reaches are dropped from their list (document 01, section 8; the Rust's `merge_touching_readings`).
// The list is merged in the caller's memory, as C lends it, so its parts, and where it ends there, are told apart by numbers: nothing is allocated.
#![tactic(auto)]

ghost use Rattle.merging.specs.Merging.{ListReady, ListMerged};
ghost use Rattle.merging.specs.Flood.{SwapReady, Swapped, PartReady, Parted, FloodReady, Flooded};

use decks::Ship;

// The numbers at i and w change places. They are 4 bytes each, and may be one: a slice's own swaps take single bytes, or parts that lie apart.
fn swap(list: &mut [u8], i: usize, w: usize)
    requires { SwapReady list.old i w }
    ensures { Swapped list.old list.new i w }
{
    let x = words::u32_at(list, 4 * i);
    let y = words::u32_at(list, 4 * w);
    words::put_u32(list, 4 * w, x);
    words::put_u32(list, 4 * i, y);
}

// Those of the numbers from t on that a touches come first, in any order; the others keep theirs. Returns where the others begin.
fn part(ship: &Ship<'_>, list: &mut [u8], a: u32, t: usize, n: usize) -> usize
    requires { PartReady ship.now list.old a t n }
    ensures { Parted ship.now list.old list.new a n t result }
{
    let mut w = n;
    'numbers: for i in (t..n).rev() {
        let x = words::u32_at(list, 4 * i);
        if !touching::touches(ship, a, x) {
            w -= 1;
            swap(list, i, w);
        }
    }
    w
}

// What the number at `head` reaches over those after it comes before the others. Returns where the others begin.
fn flood(ship: &Ship<'_>, list: &mut [u8], head: usize, n: usize) -> usize
    requires { FloodReady ship.now list.old head n }
    ensures { Flooded ship.now list.old list.new head n result result }
{
    let mut h = head;
    let mut t = head + 1;
    // A while: the end moves.
    'waiting: while h < t {
        let a = words::u32_at(list, 4 * h);
        t = part(ship, list, a, t, n);
        h += 1;
    }
    t
}

// Of the n polygons in `list` those that stay come first. How many they are is returned. Each polygon is held against each other one at most
// once, so the time is linear in the pairs of the list.
pub fn merge_touching_readings(ship: &Ship<'_>, list: &mut [u8], n: usize) -> usize
    requires { ListReady ship.now list.old n }
    ensures { ListMerged ship.now list.old list.new n result }
{
    let mut kept: usize = 0;
    let mut t: usize = 0;
    // A while: the start of the rest moves by more than one.
    'left: while t < n {
        let first = words::u32_at(list, 4 * t);
        t = flood(ship, list, t, n);
        words::put_u32(list, 4 * kept, first);
        kept += 1;
    }
    kept
}
