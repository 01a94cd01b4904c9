// Signs, mode spaces, terms and refusals: the values that every other crate is made of.
#![tactic(auto)]

ghost use Rattle.std.specs.Prelude.{◌≡◌, true, false, ◌^◌, ◌≤◌, ltb};
ghost use Rattle.modes.specs.Bools.{◌⊕◌};
ghost use Rattle.modes.specs.Words.{bit, lowest_mode};
ghost use Rattle.modes.specs.Counts.{parity, count};
ghost use Rattle.modes.specs.Spaces.{space_of, inside, word_refusal, words_refusal};
ghost use Rattle.modes.specs.Reasons.{number_of};

// A sign, plus or minus; the bool is true for minus.
#[derive(Clone, Copy)]
pub struct Sign(pub bool);

impl Sign {
    pub const PLUS: Sign = Sign(false);

    pub const MINUS: Sign = Sign(true);

    // minus exactly if the number of exchanges is odd
    pub fn from_exchanges(n: u32) -> Sign
        ensures { result.0 ≡ parity n }
    {
        if n % 2 == 1 { Sign::MINUS } else { Sign::PLUS }
    }

    // the product of two signs: minus exactly if they differ
    pub fn mul(self, rhs: Sign) -> Sign
        ensures { result.0 ≡ self.0 ⊕ rhs.0 }
    {
        if self.0 {
            return Sign(!rhs.0);
        }
        rhs
    }
}

// How many modes there are, from 1 to MAX.
#[derive(Clone, Copy)]
pub struct ModeSpace {
    pub count: u64,
}

impl ModeSpace {
    pub const MAX: u64 = 64;

    // the space of `count` modes, none outside 1 to MAX
    pub fn from_count(count: u64) -> Option<ModeSpace>
        ensures { result ≡ space_of count }
    {
        if count == 0 {
            return None;
        }
        if ModeSpace::MAX < count {
            return None;
        }
        Some(ModeSpace { count })
    }

    // does the word hold only modes of the space
    pub fn contains(self, word: u64) -> bool
        ensures { result ≡ ltb word (2 ^ self.count) }
    {
        if ModeSpace::MAX <= self.count {
            return true;
        }
        word < (1u64 << self.count)
    }
}

// The most terms that a record or a list of terms may have.
pub const MOST_TERMS: usize = 2048;

// A term of an operator: its creation word, its annihilation word, and its coefficient.
#[derive(Clone, Copy, PartialEq, Eq)]
pub struct Term {
    pub cre: u64,
    pub ann: u64,
    pub coeff: i64,
}

// Why a call is refused. The numbers are those of the C face.
#[derive(Clone, Copy, Debug, PartialEq, Eq)]
pub enum Reason {
    Malformed = 1,
    WordOutside = 2,
    OutOfOrder = 3,
    ZeroCoeff = 4,
    TooHeavy = 5,
    ModesDiffer = 6,
    RowsDoNotFit = 7,
    ProductTooHeavy = 8,
    ResultTooHeavy = 9,
    TooManyTerms = 10,
    OutputTooShort = 11,
    OccupationOutside = 12,
    NotFinite = 13,
    BadBasis = 14,
    BadReport = 15,
    BadLine = 16,
    TooManyLadders = 17,
    NoSuchParty = 18,
    DamagedHalf = 19,
    NoFreeSlot = 20,
    NoGap = 21,
    NoSuchSlot = 22,
}

impl Reason {
    pub fn number(self) -> u64
        ensures { result ≡ number_of self }
    {
        self as u64
    }
}

// What refuses a call: the reason, the operand that it blames, and the place there.
#[derive(Clone, Copy, Debug, PartialEq, Eq)]
pub struct Refusal {
    pub reason: Reason,
    pub operand: u64,
    pub place: u64,
}

impl Refusal {
    // The refusals that blame no operand.
    pub const MODES_DIFFER: Refusal = Refusal {
        reason: Reason::ModesDiffer,
        operand: 0,
        place: 0,
    };

    pub const ROWS_DO_NOT_FIT: Refusal = Refusal {
        reason: Reason::RowsDoNotFit,
        operand: 0,
        place: 0,
    };

    pub const PRODUCT_TOO_HEAVY: Refusal = Refusal {
        reason: Reason::ProductTooHeavy,
        operand: 0,
        place: 0,
    };

    pub const RESULT_TOO_HEAVY: Refusal = Refusal {
        reason: Reason::ResultTooHeavy,
        operand: 0,
        place: 0,
    };

    pub const TOO_MANY_TERMS: Refusal = Refusal {
        reason: Reason::TooManyTerms,
        operand: 0,
        place: 0,
    };

    pub const OUTPUT_TOO_SHORT: Refusal = Refusal {
        reason: Reason::OutputTooShort,
        operand: 0,
        place: 0,
    };
}

// What a call that fills a lent output and is not refused comes back with: the length in bytes of what stands there, and
// the rows or branches.
#[derive(Clone, Copy)]
pub struct Written {
    pub len: usize,
    pub branches: u64,
}

// How many modes the word holds. This and `lowest_mode` are std's, with a promise in the documents' words.
pub fn modes_in(word: u64) -> u64
    ensures { (result ≡ count 64 (bit word)) × (result ≤ 64) }
{
    u64::count_ones(word) as u64
}

// The lowest mode that the word holds, or 64 where it holds none.
pub fn lowest_mode(word: u64) -> u64
    ensures { result ≡ lowest_mode 64 (bit word) }
{
    u64::trailing_zeros(word) as u64
}

// Do both words hold only modes of the space?
pub fn is_inside(space: ModeSpace, cre: u64, ann: u64) -> bool
    ensures { result ≡ inside space.count cre ann }
{
    space.contains(ann | cre)
}

// A word that the caller names is refused where it holds a mode outside.
pub fn word_refusal(space: ModeSpace, operand: u64, place: u64, word: u64) -> Result<(), Refusal>
    ensures { result ≡ word_refusal space.count operand place word }
{
    if space.contains(word) {
        return Ok(());
    }
    Err(Refusal {
        reason: Reason::OccupationOutside,
        operand,
        place,
    })
}

// The bra is checked before the ket.
pub fn words_refusal(space: ModeSpace, bra: u64, ket: u64) -> Result<(), Refusal>
    ensures { result ≡ words_refusal space.count bra ket }
{
    word_refusal(space, 3, 0, bra)?;
    word_refusal(space, 4, 0, ket)
}
