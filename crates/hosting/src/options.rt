// What a host lends and under which pile it works, as the words behind the program's name say.
ghost use Rattle.std.specs.Prelude.{◌≡◌, ◌*◌, ◌^◌, ◌<◌, Some, unwrap_or, is_some};
ghost use Rattle.notation.specs.Number.{number_of};
ghost use Rattle.hosting.specs.Lent.{setting_named as setting_of, pile_named as pile_of, begins_with_digit as begins_so, set_by, slots_by, pile_by, word_read, no_options, misread_text, words_read};

use notation::number::number;
use report::Pile;
use std::fmt;

// How many slots are lent if no word says so, and how many cells a screen has.
const USUAL_SLOTS: u32 = 4096;

const USUAL_CELLS: u32 = 262144;

// What a number behind a word sets.
#[derive(Clone, Copy)]
pub enum Setting {
    Screen,
    Store,
    Readings,
}

// Why the words cannot be followed.
#[derive(Clone, Copy, PartialEq, Eq, Debug)]
pub enum Misread {
    UnknownPile,
    SecondPile,
    SecondSlots,
    NoNumber,
}

impl Misread {
    // The text by itself, which takes no memory and no formatter; what is displayed is this.
    pub fn text(self) -> &'static str
        ensures { result.now ≡ misread_text self }
    {
        match self {
            Misread::UnknownPile => "there is no such pile",
            Misread::SecondPile => "one pile at a time",
            Misread::SecondSlots => "one number of slots at a time",
            Misread::NoNumber => "a number from 0 to 4294967295 is wanted",
        }
    }
}

impl fmt::Display for Misread {
    ghost output = { λ misread. Some (misread_text misread) };

    fn fmt<W: fmt::Write>(&self, f: &mut fmt::Formatter<W>) -> fmt::Result {
        f.write_str(self.text())
    }
}

// Why, and at which word; at none where a number is missing behind the last.
#[derive(Clone, Copy)]
pub struct MisreadAt<'w> {
    pub misread: Misread,
    pub word: Option<&'w str>,
}

#[derive(Clone, Copy)]
pub struct Options {
    pile: Option<Pile>,
    slots: Option<u32>,
    screen: Option<u32>,
    store: Option<u32>,
    readings: Option<u32>,
    // The setting whose number comes next.
    awaited: Option<Setting>,
}

// An Option and no FromStr: a word that names no setting is a pile or a number, and no error.
fn setting_named(word: &str) -> Option<Setting>
    ensures { result ≡ setting_of word.now }
{
    match word {
        "--screen" => Some(Setting::Screen),
        "--store" => Some(Setting::Store),
        "--readings" => Some(Setting::Readings),
        _ => None,
    }
}

fn pile_named(word: &str) -> Option<Pile>
    ensures { result ≡ pile_of word.now }
{
    Pile::named(word)
}

// Whether a word is meant as a number.
pub fn begins_with_digit(word: &str) -> bool
    ensures { result ≡ begins_so word.now }
{
    word.as_bytes()
        .first()
        .is_some_and(|byte| byte.is_ascii_digit())
}

impl Options {
    pub fn new() -> Options
        ensures { result ≡ no_options }
    {
        Options {
            pile: None,
            slots: None,
            screen: None,
            store: None,
            readings: None,
            awaited: None,
        }
    }

    // The options that the words come to.
    pub fn read<'w>(words: &[&'w str]) -> Result<Options, MisreadAt<'w>>
        ensures { result ≡ words_read no_options words.now }
    {
        let mut options = Options::new();
        for word in words {
            options = options.with_word(word).map_err(|misread| MisreadAt {
                misread,
                word: Some(*word),
            })?;
        }
        if options.is_cut_off() {
            return Err(MisreadAt {
                misread: Misread::NoNumber,
                word: None,
            });
        }
        Ok(options)
    }

    // The options with one word more.
    pub fn with_word(self, word: &str) -> Result<Options, Misread>
        ensures { result ≡ word_read self word.now self.awaited }
    {
        if let Some(setting) = self.awaited {
            return self.with_setting(setting, word);
        }
        if let Some(setting) = setting_named(word) {
            return Ok(Options {
                awaited: Some(setting),
                ..self
            });
        }
        if begins_with_digit(word) {
            self.with_slots(word)
        } else {
            self.with_pile(word)
        }
    }

    fn with_setting(self, setting: Setting, word: &str) -> Result<Options, Misread>
        ensures { result ≡ set_by self setting (number_of word.now) }
    {
        let count = number(word.as_bytes()).ok_or(Misread::NoNumber)?;
        let settled = Options {
            awaited: None,
            ..self
        };
        match setting {
            Setting::Screen => Ok(Options {
                screen: Some(count),
                ..settled
            }),
            Setting::Store => Ok(Options {
                store: Some(count),
                ..settled
            }),
            Setting::Readings => Ok(Options {
                readings: Some(count),
                ..settled
            }),
        }
    }

    fn with_slots(self, word: &str) -> Result<Options, Misread>
        ensures { result ≡ slots_by self (number_of word.now) }
    {
        let count = number(word.as_bytes()).ok_or(Misread::NoNumber)?;
        if self.slots.is_some() {
            return Err(Misread::SecondSlots);
        }
        Ok(Options {
            slots: Some(count),
            ..self
        })
    }

    fn with_pile(self, word: &str) -> Result<Options, Misread>
        ensures { result ≡ pile_by self (pile_of word.now) }
    {
        let pile = pile_named(word).ok_or(Misread::UnknownPile)?;
        if self.pile.is_some() {
            return Err(Misread::SecondPile);
        }
        Ok(Options {
            pile: Some(pile),
            ..self
        })
    }

    // Whether a word is missing at the end.
    pub fn is_cut_off(&self) -> bool
        ensures { result ≡ is_some self.now.awaited }
    {
        self.awaited.is_some()
    }

    pub fn pile(&self) -> Pile
        ensures { result ≡ unwrap_or self.now.pile Pile.StringComment }
    {
        self.pile.unwrap_or(Pile::StringComment)
    }

    pub fn slots(&self) -> usize
        ensures is { result ≡ unwrap_or self.now.slots USUAL_SLOTS }
        ensures few { result < 2 ^ 32 }
    {
        self.slots.unwrap_or(USUAL_SLOTS) as usize
    }

    pub fn screen(&self) -> usize
        ensures { result ≡ unwrap_or self.now.screen USUAL_CELLS }
    {
        self.screen.unwrap_or(USUAL_CELLS) as usize
    }

    // The store and the readings fit the slots if no word says otherwise.
    pub fn store(&self) -> usize
        ensures { result ≡ unwrap_or self.now.store (64 * unwrap_or self.now.slots USUAL_SLOTS) }
    {
        self.store.map_or(64 * self.slots(), |count| count as usize)
    }

    pub fn readings(&self) -> usize
        ensures { result ≡ unwrap_or self.now.readings (unwrap_or self.now.slots USUAL_SLOTS) }
    {
        self.readings.map_or(self.slots(), |count| count as usize)
    }
}
