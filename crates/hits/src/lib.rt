// What a search finds: the hit that ends a deck's turn, and a candidate (document 01, section 5). The definitions of the first hit are in specs/.
#![tactic(auto)]

ghost use Rattle.std.specs.Prelude.{◌≡◌, ◌<◌, ◌^◌};
ghost use Rattle.hits.specs.Hits.{tried_of};

// The first sample of a deck's turn that hits, and the first polygon that passes there.
#[derive(Clone, Copy, Debug, PartialEq, Eq)]
pub struct Hit {
    pub sample: usize,
    pub polygon: usize,
}

// A polygon at a sample: of a step, on a deck.
#[derive(Clone, Copy, Debug, PartialEq, Eq)]
pub struct Candidate {
    pub step: usize,
    pub deck: usize,
    pub sample: usize,
    pub polygon: usize,
}

// How many samples a turn of step s took: up to its hit, all of them where it has none.
pub fn tried(s: usize, hit: Option<Hit>) -> usize
    requires { tried_of s hit < 2 ^ 32 }
    ensures { result ≡ tried_of s hit }
{
    match hit {
        Some(h) => h.sample + 1,
        None => 10 * s + 1,
    }
}
