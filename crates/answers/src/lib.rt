// How a call asks, refuses and replies (document 01, 'The questions, in order'). Nothing here knows of files or seats.
#![tactic(auto)]

ghost use Rattle.std.specs.Prelude.{◌≡◌, ◌*◌, ◌<◌};
ghost use Rattle.answers.specs.Questions.{number_of, question14, question17, looks_at, question20};
ghost use Rattle.answers.specs.Replies.{code_of, AnswerFits};

use std::error::Error;
use std::fmt;
use words::ALL_ONES;

// Why a call was refused: the first question that it did not pass, with the number that the documents give it.
// 1 to 13 are of the ship file, 14 to 20 and 22 of the call, and 21 is of the input of `seatlist`.
#[derive(Clone, Copy, Debug, PartialEq, Eq)]
pub enum Refusal {
    HeaderCut = 1,
    TooManyDecks,
    ReachOutOfRange,
    StepsOutOfRange,
    TableCut,
    BlocksNotEndToEnd,
    PartialEntry,
    EmptyMesh,
    TooManyPolygons,
    MismatchedHeights,
    DeckFloatOutOfRange,
    ListsNotEndToEnd,
    NoSuchVertex,
    WrongLength,
    KindNotAllowed,
    CallFloatOutOfRange,
    NoSuchDeck,
    NoSuchPolygon,
    NoSuchNeighbour,
    NoRoom,
    WrongInput,
    NoDirection,
}

// Whether all questions passed.
pub type Check = Result<(), Refusal>;

// How many entries were written.
pub type Answer = Result<usize, Refusal>;

impl Refusal {
    // The number of the question.
    pub fn number(self) -> u32
        ensures { result ≡ number_of self }
    {
        self as u32
    }
}

// A refusal is printed as its number.
impl fmt::Display for Refusal {
    fn fmt<W: fmt::Write>(&self, f: &mut fmt::Formatter<W>) -> fmt::Result {
        let number = self.number();
        write!(f, "{number}")
    }
}

impl Error for Refusal {}

// Question 14 of a blocked set.
#[tactic(auto, using(crate::proofs::Asking::whole_is))]
pub fn blocked_whole(blocked: &[u8]) -> bool
    ensures { result ≡ question14 blocked.now }
{
    blocked.len() == 32
}

// Question 17.
#[tactic(auto, using(crate::proofs::Asking::named))]
pub fn deck_there(decks: usize, deck: u32) -> bool
    ensures { result ≡ question17 decks deck }
{
    deck == ALL_ONES || (deck as usize) < decks
}

// Whether a search that names this deck, or none, looks at deck d.
#[tactic(auto, using(crate::proofs::Asking::looks))]
pub fn looks_at(deck: u32, d: usize) -> bool
    ensures { result ≡ looks_at deck d }
{
    deck == ALL_ONES || deck as usize == d
}

// Question 20 for `count` entries of `size` bytes. Their product may not fit a number, so the room is divided.
#[tactic(auto, using(crate::proofs::Asking::room_is))]
pub fn room_for(size: usize, count: usize, room: usize) -> bool
    requires { 0 < size }
    ensures { result ≡ question20 (size * count) room }
{
    count <= room / size
}

// The answer over C: the count of entries, or minus the question's number.
pub fn code(a: Answer) -> i64
    requires { AnswerFits a }
    ensures { result ≡ code_of a }
{
    match a {
        Ok(count) => count as i64,
        Err(refusal) => -(refusal.number() as i64),
    }
}
