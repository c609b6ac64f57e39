// The Laws as definitions: see specs/. Here stand the refusals, each with its number under the name of specs/Refusals, and a refusal with its place.
#![tactic(auto)]

ghost use Rattle.std.specs.Prelude.{◌≡◌};
ghost use Rattle.laws.specs.Refusals.{refusal_number};
ghost use Rattle.laws.specs.Refused.{number, number_with_place};

// Why something is refused.
#[derive(Clone, Copy, Debug, PartialEq, Eq)]
pub enum Refusal {
    // A lent buffer is too short.
    ShortBuffer = 1,
    // The record ends before a field is whole.
    RecordEnds,
    // Board 0 or table 0; a fresh tally of a board outside 1 to 127.
    NoBoardOrTable,
    // Law 1: a seat without thirteen cards.
    NotThirteen,
    // A code that is neither a call nor a mark.
    NoCall,
    // Law 27: a bid without a mark that is not above the last.
    InsufficientBid,
    // Law 36: a double or a redouble that is not allowed.
    InadmissibleDouble,
    // Law 39: a call after the end of the auction.
    CallAfterEnd,
    // Law 22: the calls stop before the end of the auction.
    AuctionUnfinished,
    // A play count over 52, or over 0 on a board that was passed out.
    TooManyCards,
    // A code that is no card.
    NoCard,
    // Law 44: a card that was not dealt to the seat at turn.
    CardNotHeld,
    // A contract without a claim, and fewer than 52 cards.
    PlayUnfinished,
    // Law 68: a claim before the first card or after the last, or on a board that was passed out.
    NoClaimPoint,
    // Law 68: a claim of more tricks than are left.
    ClaimTooMany,
    // A padding bit is 1, or a byte follows.
    NotPadding,
    // A tally, or a state of a team match, that is not as described.
    MalformedTally,
    // Tallies of two boards merged.
    TwoBoards,
    // More than 128 results.
    TooManyResults,
    // A score that is not valid.
    InvalidScore,
    // A score that the tally does not have.
    ScoreNotInTally,
    // A buffer that is too short for the record that is written into it.
    ShortRecordBuffer,
    // Law 44: a card that the seat at turn has played already.
    CardAlreadyPlayed,
    // Law 27A: a mark that is not followed by a bid at or below a last bid.
    WrongMark,
    // Laws 48 and 49: an exposed code that is no card in a defender's hand, or is faced already.
    NotExposable,
    // Laws 50D2 and 51B: a lead choice that is not open.
    ChoiceNotOpen,
    // A 41st code of an exposure or a choice.
    TooManyCodes,
    // Law 87: a fouled board, results of two deals under one number.
    FouledBoard,
    // A board of a team match that is outside 1 to 127, or was used already.
    BoardNotFree,
    // A 33rd board of a team match.
    TooManyBoards,
    // Best play asked for on a board that was passed out, with more than sixteen cards left, or not at a trick's end.
    NoEnding,
    // A text outside the subset of Portable Bridge Notation, or a tag's seat that is not the calls'.
    OutsideSubset,
    // More than 511 codes of calls and marks given for a record.
    TooManyCalls,
}

impl Refusal {
    // Its number.
    pub fn number(self) -> u8
        ensures { result ≡ number self }
    {
        self as u8
    }

    // With its place.
    pub fn at(self, place: u16) -> Refused
        ensures { result ≡ record { refusal = self; place = place } }
    {
        Refused {
            refusal: self,
            place,
        }
    }
}

// A refusal and its place.
#[derive(Clone, Copy, Debug, PartialEq, Eq)]
pub struct Refused {
    pub refusal: Refusal,
    pub place: u16,
}

// A number of a refusal, any of eight bits, and any place as one number: refusal × 1024 + place.
pub fn refusal_number(refusal: u8, place: u16) -> u32
    ensures { result ≡ refusal_number refusal place }
{
    u32::from(refusal) * 1024 + u32::from(place)
}

impl From<Refused> for u32 {
    ghost from_gives = { λ e n. n ≡ number_with_place e };

    fn from(refused: Refused) -> u32 {
        refusal_number(refused.refusal.number(), refused.place)
    }
}
