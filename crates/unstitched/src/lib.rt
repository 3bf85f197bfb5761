// Which entries of the neighbour lists a removal of stitches keeps, and as what (document 01, section 8). The new file and what is proved of
// it are in specs/.
#![tactic(auto)]

ghost use Rattle.std.specs.Prelude.{◌≡◌, ◌+◌, ◌*◌, ◌≤◌, length};
ghost use Rattle.ship.specs.Layout.{number_size};
ghost use Rattle.unstitched.specs.Removal.{plain_in, keeps, written_as};
ghost use Rattle.unstitched.specs.NewFile.{kept_from};

use ship::{Blocks, NUMBER_SIZE};
use words::ALL_ONES;

// Which stitches are removed: those between all decks, or those to one. No Option: None would read as none of them.
#[derive(Clone, Copy, Debug, PartialEq, Eq)]
pub enum Stitches {
    All,
    ToLayer(u8),
}

// The rule by which a deck's lists are written anew: which stitches go, and whose lists these are.
#[derive(Clone, Copy)]
pub struct Rule {
    pub which: Stitches,
    pub deck: usize,
}

impl Rule {
    // Whether the deck's entries become plain numbers.
    fn plain_in(self) -> bool
        ensures { result ≡ plain_in self.which self.deck }
    {
        match self.which {
            Stitches::All => true,
            Stitches::ToLayer(t) => self.deck == t as usize,
        }
    }

    // Whether an entry stays in a list of the deck.
    #[tactic(auto, unfolding(crate::specs::Removal::keeps))]
    pub fn keeps(self, entry: u32) -> bool
        ensures { result ≡ keeps self.which self.deck entry }
    {
        if entry == ALL_ONES {
            return true;
        }
        let deck = decks::packed_deck(entry);
        match self.which {
            Stitches::All => deck == self.deck,
            Stitches::ToLayer(t) if self.deck == t as usize => deck == self.deck,
            Stitches::ToLayer(t) => deck != t as usize,
        }
    }

    // What is written for an entry that stays.
    #[tactic(auto, unfolding(crate::specs::Removal::written_as))]
    pub fn written_as(self, kept: u32) -> u32
        ensures { result ≡ written_as self.which self.deck kept }
    {
        if kept == ALL_ONES || !self.plain_in() {
            return kept;
        }
        decks::packed_polygon(kept) as u32
    }
}

// A deck of the old file, and the rule for its lists.
#[derive(Clone, Copy)]
pub struct OldDeck<'a> {
    pub file: &'a [u8],
    pub rule: Rule,
    pub blocks: Blocks,
}

impl<'a> OldDeck<'a> {
    // How many of the n entries of N from number `first` on stay.
    #[tactic(auto, using(crate::proofs::Entries::counting))]
    pub fn kept_in(&self, first: usize, n: usize) -> usize
        requires { self.now.blocks.n + number_size * (first + n) ≤ length self.now.file.now }
        ensures { (result ≡ length (kept_from self.now.rule.which self.now.file.now self.now.rule.deck self.now.blocks first n))
            × (result ≤ n) }
    {
        let (file, rule, begin) = (self.file, self.rule, self.blocks.n);
        let mut kept: usize = 0;
        // A for with an if, of which the compiler counts several entries at once: with `filter` and `count` a removal takes up to 2.4 times the time.
        'entries: for i in first..first + n {
            if rule.keeps(words::u32_at(file, begin + NUMBER_SIZE * i)) {
                kept += 1;
            }
        }
        kept
    }
}
