//! The numbers that words are. A word that is no number, or none that its place can have, is nothing.
ghost use Rattle.std.specs.Prelude.{◌≡◌};
ghost use Rattle.journal.specs.Words.{unsigned_of, signed_of, Converted};

use crate::word::Word;
use std::num::TryFromIntError;

impl Word {
    fn size(self) -> Option<u64>
        ensures { result ≡ unsigned_of self }
    {
        match self {
            Word::Number { minus: false, size } => Some(size),
            _ => None,
        }
    }

    fn number(self) -> Option<i128>
        ensures { result ≡ signed_of self }
    {
        match self {
            Word::Number { minus: true, size } => Some(-i128::from(size)),
            Word::Number { minus: false, size } => Some(i128::from(size)),
            _ => None,
        }
    }

    /// The number that a word is, where it has no minus and its type holds it.
    pub fn unsigned<T: TryFrom<u64, Error = TryFromIntError>>(self) -> Option<T>
        ensures { Converted T.try_from_gives (unsigned_of self) result }
    {
        T::try_from(self.size()?).ok()
    }

    /// The number that a word is, with its sign, where its type holds it.
    pub fn signed<T: TryFrom<i128, Error = TryFromIntError>>(self) -> Option<T>
        ensures { Converted T.try_from_gives (signed_of self) result }
    {
        T::try_from(self.number()?).ok()
    }
}
