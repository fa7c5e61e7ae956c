// One word: its top two bits are its kind, the other 30 its number.
ghost use Rattle.word_format.specs.Words.{Splits, is_kind, kind_of, number_of};
ghost use Rattle.word_format.specs.Writing.{word_of};
ghost use Rattle.std.specs.Prelude.{◌≡◌};

use program::limits::MAX_ATOMS;
use program::refusal::Refusal;

/// Each kind is numbered by its first word.
#[derive(Clone, Copy, Debug, PartialEq, Eq)]
pub enum Kind {
    Head = 0,
    Need = 0x4000_0000,
    Bar = 0x8000_0000,
    End = 0xC000_0000,
}

/// The first words of the kinds, to which a number is added.
pub const HEAD: u32 = Kind::Head as u32;

pub const NEED: u32 = Kind::Need as u32;

pub const BAR: u32 = Kind::Bar as u32;

pub const END: u32 = Kind::End as u32;

/// The number of a word: an atom, a count of atoms in the header, or 0 in an end word.
#[derive(Clone, Copy, Debug, PartialEq, Eq)]
pub struct Number(pub u32);

/// A word taken apart.
#[derive(Clone, Copy, Debug, PartialEq, Eq)]
pub struct Token {
    pub kind: Kind,
    pub number: Number,
}

// The kind and the number each leave out a part of the word, so neither is a `From`.
pub fn kind_of(word: u32) -> Kind
    ensures { result ≡ kind_of word }
{
    // the two bits by their value, as docs/FORMATS.md numbers the kinds
    match word >> 30 {
        0 => Kind::Head,
        1 => Kind::Need,
        2 => Kind::Bar,
        _ => Kind::End,
    }
}

pub fn number_of(word: u32) -> Number
    ensures { result.0 ≡ number_of word }
{
    Number(word % (1 << 30))
}

pub fn is_kind(word: u32, kind: Kind) -> bool
    ensures { result ≡ is_kind kind word }
{
    kind_of(word) == kind
}

/// The word of this kind and number.
// A function, since it is made of two values.
pub(crate) fn word_of(kind: Kind, number: u8) -> u32
    ensures { result ≡ word_of kind number }
{
    kind as u32 + u32::from(number)
}

/// The kind and the number, or the refusal of a head, need or bar that is numbered 256 or more.
impl TryFrom<u32> for Token {
    type Error = Refusal;

    ghost try_from_gives = { Splits };

    fn try_from(word: u32) -> Result<Token, Refusal> {
        let kind = kind_of(word);
        let number = number_of(word);
        if kind != Kind::End && number.0 as usize >= MAX_ATOMS {
            return Err(Refusal::NoSuchAtom);
        }
        Ok(Token { kind, number })
    }
}
