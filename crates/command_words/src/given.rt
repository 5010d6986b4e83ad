//! What the options say.
ghost use Rattle.std.specs.Prelude.{◌≡◌, ◌<◌, ◌+◌, ◌^◌, ◌||◌, nat_le, is_some, None, Some, Ok, MatchResult, IfOk, length, map, string_bytes, [], ◌∷◌, ◌++◌};
ghost use Rattle.command_words.specs.Texts.{word_at};
ghost use Rattle.command_words.specs.Options.{option_named};
ghost use Rattle.command_words.specs.Files.{only_out, named_files};
ghost use Rattle.command_words.specs.Reading.{first_fault, fault_or, no_options, is_name_again as is_name_again_of, is_repeated, has_name_room as has_name_room_of, has_room as has_room_of, option_checks, value_checks, with_option, with_value as with_value_of, pages_of, frames_in, frames_of, command_of, resident_checks, last_checks};
ghost use Rattle.command_words.specs.Holding.{Holds, HasPlace};

use crate::checks::{check, check_pair, check_text, number_at};
use crate::kinds::{Command, Frames, Given, WordFault};
use crate::options::OptionName;
use crate::pairs::{is_pair, pair_name, place_naming};
use crate::texts::text_at;
use arrayvec::ArrayVec;

/// Steps, pages, bytes of a file and what the random stream starts with, where no option says them.
const DEFAULT_BUDGET: u64 = 1_000_000_000_000;

const DEFAULT_PAGES: u32 = 16_384;

const DEFAULT_CAP: u32 = 16_777_216;

const DEFAULT_SEED: u64 = 0;

/// How many pages a guest may have, and the fewest frames that hold them.
const LEAST_PAGES: u64 = 512;

const MOST_PAGES: u64 = 262_144;

const LEAST_FRAMES: u64 = 8;

/// The most bytes that a guest's file may have at most.
const MOST_CAP: u64 = 67_108_864;

/// How many names the pairs may have in all.
const MOST_NAMES: usize = 16;

/// Whether one of the pairs at some places has the name of a text; a text that is no pair names none.
fn is_name_again(words: &[String], text: &str, places: &[u32]) -> bool
    ensures { result ≡ is_name_again_of (map string_bytes words.now) text.now places.now }
{
    is_pair(text) && place_naming(words, pair_name(text), places).is_some()
}

/// How many names pairs have in all.
fn count_names(words: &[String], ins: &[u32], outs: &[u32]) -> usize
    ensures { result ≡ length (named_files (map string_bytes words.now) ins.now outs.now) }
{
    let mut count = ins.len();
    for place in outs {
        if place_naming(words, pair_name(text_at(words, *place as usize)), ins).is_none() {
            count += 1;
        }
    }
    count
}

/// So many frames as a word says, which are refused where they are more than pages; as many as pages, where none says it.
fn frames_within(resident: Option<Frames>, pages: u32) -> Result<u32, WordFault>
    ensures answer { MatchResult result
        (λ frames. (first_fault (resident_checks resident pages) ≡ None) × (frames ≡ frames_in resident pages))
        (λ fault. first_fault (resident_checks resident pages) ≡ Some fault) }
{
    match resident {
        Some(frames) => {
            check(frames.count <= pages as u64, 4, frames.word as usize)?;
            Ok(frames.count as u32)
        }
        None => Ok(pages),
    }
}

impl Given {
    pub(crate) fn new() -> Given
        ensures { result ≡ no_options }
    {
        Given {
            budget: None,
            pages: None,
            resident: None,
            swap: None,
            cap: None,
            seed: None,
            report: false,
            env: ArrayVec::new(),
            ins: ArrayVec::new(),
            outs: ArrayVec::new(),
        }
    }

    /// Whether an option, or the name in the word behind it, was given and mustn't come again.
    fn has(&self, words: &[String], name: OptionName, behind: &str) -> bool
        ensures { result ≡ is_repeated (map string_bytes words.now) self.now name behind.now }
    {
        match name {
            OptionName::Budget => self.budget.is_some(),
            OptionName::Pages => self.pages.is_some(),
            OptionName::Resident => self.resident.is_some(),
            OptionName::Swap => self.swap.is_some(),
            OptionName::Seed => self.seed.is_some(),
            OptionName::Cap => self.cap.is_some(),
            OptionName::In => is_name_again(words, behind, &self.ins),
            OptionName::Out => is_name_again(words, behind, &self.outs),
            OptionName::Env => false,
            OptionName::Report => self.report,
        }
    }

    /// Whether there is room for the name of a text: it is none, or isn't new, or there are fewer names than there may be.
    fn has_name_room(&self, words: &[String], text: &str) -> bool
        ensures { result ≡ has_name_room_of (map string_bytes words.now) self.now text.now }
    {
        !is_pair(text)
            || is_name_again(words, text, &self.ins)
            || is_name_again(words, text, &self.outs)
            || count_names(words, &self.ins, &self.outs) < MOST_NAMES
    }

    /// Whether there is room for what an option and the word behind it bring.
    fn has_room(&self, words: &[String], name: OptionName, behind: &str) -> bool
        ensures { result ≡ has_room_of (map string_bytes words.now) self.now name behind.now }
    {
        match name {
            OptionName::In | OptionName::Out => self.has_name_room(words, behind),
            OptionName::Env => !self.env.is_full(),
            OptionName::Budget
            | OptionName::Pages
            | OptionName::Resident
            | OptionName::Swap
            | OptionName::Seed
            | OptionName::Cap
            | OptionName::Report => true,
        }
    }

    /// Checks the word at a place, which begins as an option.
    pub(crate) fn check_option(
        &self,
        words: &[String],
        place: usize,
    ) -> Result<OptionName, WordFault>
        requires fits { place + 1 < 2 ^ 32 }
        requires given { Holds (map string_bytes words.now) self.now place }
        ensures answer { let words = map string_bytes words.now in MatchResult result
            (λ _. first_fault (option_checks words self.now place (option_named (word_at words place))) ≡ None)
            (λ fault. first_fault (option_checks words self.now place (option_named (word_at words place))) ≡ Some fault) }
        ensures name { IfOk result (λ name. option_named (word_at (map string_bytes words.now) place) ≡ Some name) }
        ensures place { IfOk result (λ name. HasPlace self.now name (word_at (map string_bytes words.now) (place + 1))) }
    {
        let behind = text_at(words, place + 1);
        match OptionName::named(text_at(words, place)) {
            Some(name) => {
                check(!self.has(words, name, behind), 5, place)?;
                check(self.has_room(words, name, behind), 8, place)?;
                Ok(name)
            }
            None => Err(WordFault::new(place, 2)),
        }
    }

    /// With an option that takes no value.
    pub(crate) fn with_option(self, name: OptionName) -> Given
        ensures { result ≡ with_option (Some name) self }
    {
        match name {
            OptionName::Report => Given {
                report: true,
                ..self
            },
            OptionName::Budget
            | OptionName::Pages
            | OptionName::Resident
            | OptionName::Swap
            | OptionName::Seed
            | OptionName::Cap
            | OptionName::In
            | OptionName::Out
            | OptionName::Env => self,
        }
    }

    /// With one more environment text.
    fn with_env(self, place: usize) -> Given
        requires place { place < 2 ^ 32 }
        requires room { length self.env.items < 64 }
        ensures { result ≡ record self { env = record { items = self.env.items ++ place ∷ [] } } }
    {
        let mut env = self.env;
        env.push(place as u32);
        Given { env, ..self }
    }

    /// With one more pair of a file that is loaded.
    fn with_in(self, place: usize) -> Given
        requires place { place < 2 ^ 32 }
        requires room { length self.ins.items < 16 }
        ensures { result ≡ record self { ins = record { items = self.ins.items ++ place ∷ [] } } }
    {
        let mut ins = self.ins;
        ins.push(place as u32);
        Given { ins, ..self }
    }

    /// With one more pair of a file that is stored.
    fn with_out(self, place: usize) -> Given
        requires place { place < 2 ^ 32 }
        requires room { length self.outs.items < 16 }
        ensures { result ≡ record self { outs = record { items = self.outs.items ++ place ∷ [] } } }
    {
        let mut outs = self.outs;
        outs.push(place as u32);
        Given { outs, ..self }
    }

    /// With the value of an option.
    #[tactic(auto, unfolding(crate::specs::Reading::value_checks))]
    pub(crate) fn with_value(
        self,
        name: OptionName,
        value: &str,
        place: usize,
    ) -> Result<Given, WordFault>
        requires place { place < 2 ^ 32 }
        requires room { HasPlace self name value.now }
        ensures answer { MatchResult result (λ _. first_fault (value_checks name place value.now) ≡ None)
            (λ fault. first_fault (value_checks name place value.now) ≡ Some fault) }
        ensures given { IfOk result (λ given. given ≡ with_value_of self name place value.now) }
    {
        match name {
            OptionName::Budget => {
                let budget = Some(number_at(value, 0, u64::MAX, place)?);
                Ok(Given { budget, ..self })
            }
            OptionName::Pages => {
                let pages = Some(number_at(value, LEAST_PAGES, MOST_PAGES, place)? as u32);
                Ok(Given { pages, ..self })
            }
            OptionName::Resident => {
                let count = number_at(value, LEAST_FRAMES, u64::MAX, place)?;
                let resident = Some(Frames::new(count, place));
                Ok(Given { resident, ..self })
            }
            OptionName::Swap => {
                check(!value.is_empty(), 6, place)?;
                let swap = Some(place as u32);
                Ok(Given { swap, ..self })
            }
            OptionName::Seed => {
                let seed = Some(number_at(value, 0, u64::MAX, place)?);
                Ok(Given { seed, ..self })
            }
            OptionName::Cap => {
                let cap = Some(number_at(value, 1, MOST_CAP, place)? as u32);
                Ok(Given { cap, ..self })
            }
            OptionName::In => {
                check_pair(value, place)?;
                Ok(self.with_in(place))
            }
            OptionName::Out => {
                check_pair(value, place)?;
                Ok(self.with_out(place))
            }
            OptionName::Env => {
                check_text(value, place)?;
                Ok(self.with_env(place))
            }
            OptionName::Report => Ok(self),
        }
    }

    /// How many pages there are.
    fn pages(&self) -> u32
        ensures { result ≡ pages_of self.now }
    {
        self.pages.unwrap_or(DEFAULT_PAGES)
    }

    /// Whether so many frames are enough for so many pages, or there is a swap.
    fn is_held(&self, pages: u32, frames: u32) -> bool
        ensures { result ≡ (nat_le pages frames || is_some self.now.swap) }
    {
        pages <= frames || self.swap.is_some()
    }

    /// How many frames there are. They are refused where they are more than pages, or fewer and there is no swap.
    fn frames(&self) -> Result<u32, WordFault>
        ensures answer { MatchResult result (λ frames. (first_fault (last_checks self.now) ≡ None) × (frames ≡ frames_of self.now))
            (λ fault. first_fault (last_checks self.now) ≡ Some fault) }
    {
        let pages = self.pages();
        let frames = frames_within(self.resident, pages)?;
        check(self.is_held(pages, frames), 9, 0)?;
        Ok(frames)
    }

    /// The command, with the program at a place.
    pub(crate) fn command(self, program: usize) -> Result<Command, WordFault>
        requires { program < 2 ^ 32 }
        ensures { result ≡ fault_or (first_fault (last_checks self)) (Ok (command_of self program)) }
    {
        let resident = self.frames()?;
        Ok(Command {
            budget: self.budget.unwrap_or(DEFAULT_BUDGET),
            pages: self.pages.unwrap_or(DEFAULT_PAGES),
            resident,
            swap: self.swap,
            cap: self.cap.unwrap_or(DEFAULT_CAP),
            seed: self.seed.unwrap_or(DEFAULT_SEED),
            report: self.report,
            env: self.env,
            ins: self.ins,
            outs: self.outs,
            program: program as u32,
        })
    }
}
