// A ship file without its stitches, written anew (document 01, section 8, `remove_stitches` and `remove_stitches_to_layer`).
// It is written part by part into memory that C lends, so a part is told where it begins: nothing is allocated.
#![tactic(auto)]

ghost use Rattle.std.specs.Prelude.{◌≡◌, ◌+◌, ◌*◌, ◌≤◌, ◌<◌, Ok, length};
ghost use Rattle.words.specs.Bytes.{words_of, slice, splice, Put};
ghost use Rattle.ship.specs.Layout.{header_size, blocks_per_deck, list_in_vertex, decks_in, blocks_position, blocks_at};
ghost use Rattle.ship.specs.Questions.{first_no};
ghost use Rattle.unstitched.specs.declared.Stitches.TheVariants.{All, ToLayer};
ghost use Rattle.unstitched.specs.NewFile.{new_blocks, new_table, new_file, RemovalReplied, RemovalSound, rest_of, all_blocks};
ghost use Rattle.removal.specs.Parts.{DeckReady, LostInBlock, LostInDeck};
ghost use Rattle.removal.specs.Parts.{v_of, n_of, vertex_of, extent_of, OldListReady, OldListPut};

use answers::{Answer, Refusal};
use decks::Ship;
use ship::{
    BLOCKS_PER_DECK, DECK_OFFSET_SIZE, DECK_ROW_SIZE, FIRST_LIST, HEADER_SIZE, LIST_IN_VERTEX,
    NUMBER_SIZE, PAIR_SIZE, VERTEX_SIZE,
};
use unstitched::{OldDeck, Rule, Stitches};

// The `size` bytes of the file from `from` on, put at `at`. Returns the position after them. `words::copy` does it; this says where the next part
// begins.
fn copy_part(file: &[u8], from: usize, size: usize, at: usize, out: &mut [u8]) -> usize
    requires { (from + size ≤ length file.now) × (at + size ≤ length out.old) }
    ensures { Put out.old at (slice file.now from size) out.new result }
{
    words::copy(out, at, &file[from..from + size]);
    at + size
}

// A deck of the old file that lies where the passed file says, and the rule for its lists. Its methods put the parts of its new blocks.
#[derive(Clone, Copy)]
struct LaidDeck<'a> {
    old: OldDeck<'a>,
    ghost there: { old.rule.deck < decks_in old.file.now },
    ghost lies: { old.blocks ≡ blocks_at old.file.now old.rule.deck },
    ghost passed: { first_no old.file.now ≡ Ok tt },
}

impl<'a> LaidDeck<'a> {
    // What stays of N, from `at` on. Returns the position after it.
    fn put_neighbours(&self, at: usize, out: &mut [u8]) -> usize
        requires { at + length (n_of self.now.old) ≤ length out.old }
        ensures { Put out.old at (n_of self.now.old) out.new result }
    {
        // A copy of the loop's own, since what is borrowed is read anew after each write.
        let OldDeck { file, rule, blocks } = self.old;
        let mut next = at;
        // A for: what is written moves on for those alone that stay.
        'entries: for i in 0..blocks.neighbours {
            let entry = words::u32_at(file, blocks.n + NUMBER_SIZE * i);
            if !rule.keeps(entry) {
                continue;
            }
            words::put_u32(out, next, rule.written_as(entry));
            next += NUMBER_SIZE;
        }
        next
    }

    // Start and count of vertex i's list, which begins at `start` now. Returns where the next one's begins.
    fn put_list(&self, i: usize, start: usize, at: usize, out: &mut [u8]) -> usize
        requires { OldListReady self.now.old i start out.old at }
        ensures { OldListPut self.now.old i (words_of (extent_of self.now.old i)) out.old at out.new result }
    {
        let old = &self.old;
        let list = ship::extent_at(old.file, old.blocks.v + FIRST_LIST, VERTEX_SIZE, i);
        let count = old.kept_in(list.start, list.count);
        let words = [start as u32, count as u32];
        words::put_words(out, at, &words);
        start + count
    }

    // Vertex i: x and y as they are, then its list. Returns where the next one's begins.
    fn put_vertex(&self, i: usize, start: usize, at: usize, out: &mut [u8]) -> usize
        requires { OldListReady self.now.old i start out.old (at + list_in_vertex) }
        ensures { OldListPut self.now.old i (vertex_of self.now.old i) out.old at out.new result }
    {
        let from = self.old.blocks.v + DECK_OFFSET_SIZE + VERTEX_SIZE * i;
        let list = copy_part(self.old.file, from, LIST_IN_VERTEX, at, out);
        self.put_list(i, start, list, out)
    }

    // V: the deck's offset, then its vertices. Returns the position after it.
    fn put_vertices(&self, at: usize, out: &mut [u8]) -> usize
        requires { at + length (v_of self.now.old) ≤ length out.old }
        ensures { Put out.old at (v_of self.now.old) out.new result }
    {
        let mut next = copy_part(self.old.file, self.old.blocks.v, DECK_OFFSET_SIZE, at, out);
        let mut start: usize = 0;
        // A for: a list begins where the one before it ends.
        'vertices: for i in 0..self.old.blocks.vertices {
            start = self.put_vertex(i, start, next, out);
            next += VERTEX_SIZE;
        }
        next
    }

    // P, C and H, which lie end to end, as they are. Returns the position after them.
    fn put_rest(&self, at: usize, out: &mut [u8]) -> usize
        requires { at + length (rest_of self.now.old.file.now self.now.old.blocks) ≤ length out.old }
        ensures { Put out.old at (rest_of self.now.old.file.now self.now.old.blocks) out.new result }
    {
        let b = self.old.blocks;
        let end = b.h + NUMBER_SIZE * b.heights;
        copy_part(self.old.file, b.p, end - b.p, at, out)
    }
}

// A removal: which stitches go, of which ship.
#[derive(Clone, Copy)]
struct Removal<'a> {
    ship: &'a Ship<'a>,
    which: Stitches,
}

impl<'a> Removal<'a> {
    // Deck d, to be read as a removal reads it. The functions below name a deck by its number.
    fn old_deck(&self, d: usize) -> LaidDeck<'a>
        requires { d < decks_in self.now.ship.now }
        ensures { (result.old.file.now ≡ self.now.ship.now) × ((result.old.rule.which ≡ self.now.which) × (result.old.rule.deck ≡ d)) }
    {
        LaidDeck {
            old: OldDeck {
                file: self.ship.bytes(),
                rule: Rule {
                    which: self.which,
                    deck: d,
                },
                blocks: self.ship.blocks(d),
            },
        }
    }

    // The blocks of deck d. Returns the position after them.
    fn put_deck(&self, d: usize, at: usize, out: &mut [u8]) -> usize
        requires { DeckReady self.now.which self.now.ship.now d out.old at }
        ensures { Put out.old at (new_blocks self.now.which self.now.ship.now d (blocks_at self.now.ship.now d))
            out.new result }
    {
        let deck = self.old_deck(d);
        let n = deck.put_vertices(at, out);
        let p = deck.put_neighbours(n, out);
        deck.put_rest(p, out)
    }

    // The blocks of all decks, past the header and the table.
    fn put_decks(&self, out: &mut [u8])
        requires { length (new_file self.now.which self.now.ship.now) ≤ length out.old }
        ensures { out.new ≡ splice out.old (blocks_position self.now.ship.now)
            (all_blocks self.now.which self.now.ship.now) }
    {
        let decks = self.ship.deck_count();
        let mut at = HEADER_SIZE + DECK_ROW_SIZE * decks;
        'decks: for d in 0..decks {
            at = self.put_deck(d, at, out);
        }
    }

    // How many bytes N of deck d loses.
    fn lost_in_deck(&self, d: usize) -> usize
        requires { d < decks_in self.now.ship.now }
        ensures { LostInDeck self.now.which self.now.ship.now d result }
    {
        let old = self.old_deck(d).old;
        NUMBER_SIZE * (old.blocks.neighbours - old.kept_in(0, old.blocks.neighbours))
    }

    // How many bytes block j of the file loses. N is the second of a deck's five blocks. That the file passed is a clause here: of the other four
    // nothing is read, and who reads nothing of a ship learns nothing of it.
    fn lost_in_block(&self, j: usize) -> usize
        requires { (first_no self.now.ship.now ≡ Ok tt) × (j < blocks_per_deck * decks_in self.now.ship.now) }
        ensures { LostInBlock self.now.which self.now.ship.now j result }
    {
        if j % BLOCKS_PER_DECK != 1 {
            return 0;
        }
        self.lost_in_deck(j / BLOCKS_PER_DECK)
    }

    // The table: a block begins where it began, less what those before it lost.
    fn put_table(&self, out: &mut [u8])
        requires { length (new_file self.now.which self.now.ship.now) ≤ length out.old }
        ensures { out.new ≡ splice out.old header_size (new_table self.now.which self.now.ship.now) }
    {
        let file = self.ship.bytes();
        let blocks = BLOCKS_PER_DECK * self.ship.deck_count();
        let mut lost: usize = 0;
        'pairs: for j in 0..blocks {
            let block = ship::extent_at(file, HEADER_SIZE, PAIR_SIZE, j);
            let here = self.lost_in_block(j);
            let words = [(block.start - lost) as u32, (block.count - here) as u32];
            words::put_words(out, HEADER_SIZE + PAIR_SIZE * j, &words);
            lost += here;
        }
    }

    // How long the new file is, which question 20 asks before a byte is written. A for: the goals of a sum over a map take minutes.
    fn new_size(&self) -> usize
        ensures { result ≡ length (new_file self.now.which self.now.ship.now) }
    {
        let file = self.ship.bytes();
        let decks = self.ship.deck_count();
        let mut lost: usize = 0;
        'decks: for d in 0..decks {
            lost += self.lost_in_deck(d);
        }
        file.len() - lost
    }

    // The whole file, from the first byte on.
    fn put_file(&self, out: &mut [u8])
        requires { length (new_file self.now.which self.now.ship.now) ≤ length out.old }
        ensures { out.new ≡ splice out.old 0 (new_file self.now.which self.now.ship.now) }
    {
        copy_part(self.ship.bytes(), 0, HEADER_SIZE, 0, out);
        self.put_table(out);
        self.put_decks(out)
    }
}

// The new file, where the old one passes and the output has room for it.
fn remove(file: &[u8], which: Stitches, out: &mut [u8]) -> Answer
    ensures { RemovalReplied which file.now out.old out.new result }
{
    let ship = Ship::open(file)?;
    let removal = Removal { ship: &ship, which };
    let size = removal.new_size();
    if out.len() < size {
        return Err(Refusal::NoRoom);
    }
    removal.put_file(out);
    Ok(size)
}

// Entries of other decks are dropped in every deck, and a deck's own become plain numbers.
pub fn remove_stitches(file: &[u8], out: &mut [u8]) -> Answer
    ensures replied { RemovalReplied All file.now out.old out.new result }
    ensures sound { RemovalSound All file.now }
{
    remove(file, Stitches::All, out)
}

// The same in deck `layer`. In the others only the entries of that deck are dropped, and the rest stays packed.
pub fn remove_stitches_to_layer(file: &[u8], layer: u8, out: &mut [u8]) -> Answer
    ensures replied { RemovalReplied (ToLayer layer) file.now out.old out.new result }
    ensures sound { RemovalSound (ToLayer layer) file.now }
{
    remove(file, Stitches::ToLayer(layer), out)
}
