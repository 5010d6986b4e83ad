//! What is read of the words.
ghost use Rattle.std.specs.Prelude.{◌≡◌, ◌<◌, ◌^◌};

use arrayvec::ArrayVec;

/// A word that isn't accepted.
#[derive(Clone, Copy, Debug, PartialEq, Eq)]
pub struct WordFault {
    /// The word's index from 0; where one is missing, the number of words.
    pub word: u32,
    /// 1 no command; 2 no option; 3 an option's value is missing; 4 no number, or one out of range; 5 an option comes again, or
    /// a name of `--in`, or one of `--out`; 6 a pair or a path that isn't formed as one; 7 the program is missing; 8 too many
    /// environment texts or names; 9 fewer frames than pages, and no swap; 12 a text with the byte 0.
    pub kind: u8,
}

impl WordFault {
    /// The refusal of the word at a place.
    pub(crate) fn new(place: usize, kind: u8) -> WordFault
        requires { place < 2 ^ 32 }
        ensures { result ≡ record { word = place; kind = kind } }
    {
        WordFault {
            word: place as u32,
            kind,
        }
    }
}

/// What the words say.
#[derive(Drop)]
pub struct Command {
    /// The most steps of a run.
    pub budget: u64,
    /// How many pages a guest may have.
    pub pages: u32,
    /// How many frames hold them, at most as many.
    pub resident: u32,
    /// The place of the swap's path among the words; given where there are fewer frames than pages.
    pub swap: Option<u32>,
    /// The most bytes of a guest's file.
    pub cap: u32,
    /// What the random stream starts with.
    pub seed: u64,
    /// Whether the end of the run is reported.
    pub report: bool,
    /// The places of the environment texts among the words, in their order.
    pub env: ArrayVec<u32, 64>,
    /// The places of the pairs NAME=PATH of the files that are loaded, in their order.
    pub ins: ArrayVec<u32, 16>,
    /// Those of the files that are stored.
    pub outs: ArrayVec<u32, 16>,
    /// The place of the program's path; the words from it on are the guest's arguments.
    pub program: u32,
}

/// A number of frames, and the place of the word that says it.
#[derive(Clone, Copy, Debug, PartialEq, Eq)]
pub struct Frames {
    pub count: u64,
    pub word: u32,
}

impl Frames {
    /// So many frames, by the word at a place.
    pub(crate) fn new(count: u64, place: usize) -> Frames
        requires { place < 2 ^ 32 }
        ensures { result ≡ record { count = count; word = place } }
    {
        Frames {
            count,
            word: place as u32,
        }
    }
}

/// What the options say that were read so far; `swap`, `env`, `ins` and `outs` are places of words.
#[derive(Drop)]
pub struct Given {
    pub budget: Option<u64>,
    pub pages: Option<u32>,
    pub resident: Option<Frames>,
    pub swap: Option<u32>,
    pub cap: Option<u32>,
    pub seed: Option<u64>,
    pub report: bool,
    pub env: ArrayVec<u32, 64>,
    pub ins: ArrayVec<u32, 16>,
    pub outs: ArrayVec<u32, 16>,
}
