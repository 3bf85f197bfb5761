// The packed numbers of a step's candidates: written to a list, and how many of them stay once the list is merged, counted with no list at
// all (document 01, section 8, `candidate_polygons`).
#![tactic(auto)]

ghost use Rattle.std.specs.Prelude.{◌≡◌, ◌*◌, ◌^◌, ◌≤◌, ◌<◌, T, length, get_or};
ghost use Rattle.words.specs.Bytes.{splice, words_of};
ghost use Rattle.words.specs.Rows.{has};
ghost use Rattle.ship.specs.Layout.{number_size, steps_in};
ghost use Rattle.numbering.specs.Numbers.{searched, numbers_of, reach_of, drops_of, merged_of};

use keeping::NEAR_SIZE;
use ship::NUMBER_SIZE;
use walking::{Next, Search, Step};

// The numbers of step s, written from the first byte on.
pub fn put_numbers(search: &Search<'_>, s: usize, list: &mut [u8])
    requires { (s < steps_in search.now.ship.now) × (number_size * length (searched search.now s) ≤ length list.old) }
    ensures { list.new ≡ splice list.old 0 (words_of (searched search.now s)) }
{
    let mut near = [0u32; NEAR_SIZE];
    let mut n: usize = 0;
    let mut next = search.first(s, &mut near);
    // A walk is lent its array at each step, so it is no iterator.
    'candidates: while let Next::Reached(c, _) = next {
        words::put_u32(list, NUMBER_SIZE * n, decks::packed(c.deck, c.polygon));
        n += 1;
        next = search.after(c, &mut near);
    }
}

// Number j of a step, or 0 where there are no more than j.
fn number_at(step: &Step<'_>, j: usize) -> u32
    ensures { result ≡ get_or (numbers_of step.now) j 0 }
{
    let search = step.search;
    let mut near = [0u32; NEAR_SIZE];
    let mut n: usize = 0;
    let mut next = search.first(step.number, &mut near);
    // A walk is lent its array at each step, so it is no iterator.
    'candidates: while let Next::Reached(c, _) = next {
        if n == j {
            return decks::packed(c.deck, c.polygon);
        }
        n += 1;
        next = search.after(c, &mut near);
    }
    0
}

// How often one hop is doubled, for n of them at least.
#[tactic(auto, using(crate::proofs::Midpoints::doubled))]
fn doublings(n: usize) -> usize
    ensures { n ≤ 2 ^ result }
{
    (usize::BITS - n.leading_zeros()) as usize
}

// Whether at most 2^k hops lead from a to b: through any number of the step as midpoint, two chains of half as many.
fn reach_within(step: &Step<'_>, k: usize, a: u32, b: u32) -> bool
    requires { T (has (numbers_of step.now) a) × T (has (numbers_of step.now) b) }
    ensures { result ≡ reach_of step.now (2 ^ k) a b }
{
    if a == b {
        return true;
    }
    if k == 0 {
        return touching::touches(step.search.ship, a, b);
    }
    // A for, and no closure: it calls its own function.
    'midpoints: for m in 0..step.count {
        let c = number_at(step, m);
        if !reach_within(step, k - 1, a, c) {
            continue;
        }
        if reach_within(step, k - 1, c, b) {
            return true;
        }
    }
    false
}

// Whether number j of the step drops out: an earlier one reaches it.
fn drops_out(step: &Step<'_>, k: usize, j: usize) -> bool
    requires { (step.now.count ≤ 2 ^ k) × (j < step.now.count) }
    ensures { result ≡ drops_of step.now j }
{
    let b = number_at(step, j);
    // A for: a closure's promise would not say that i is below j.
    'earlier: for i in 0..j {
        let a = number_at(step, i);
        if reach_within(step, k, a, b) {
            return true;
        }
    }
    false
}

// How many numbers of the step stay, with no list of them: about n to the power of log n tests for n of them. It is for lists that no
// memory of a size known here would hold.
pub fn count_by_midpoints(step: &Step<'_>) -> usize
    ensures { result ≡ length (merged_of step.now) }
{
    let k = doublings(step.count);
    (0..step.count).filter(|j| !drops_out(step, k, *j)).count()
}
