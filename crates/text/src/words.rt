//! The numbers of a text, or the first of its words that is none.
ghost use Rattle.std.specs.Prelude.{◌≡◌, vec_items, alloc_error};
ghost use Rattle.text.specs.declared.words.Unread.TheVariants as unread;
ghost use Rattle.text.specs.Words.{word_at, line_words, words_of, numbers_of, on_to, Tells};

use crate::digits::{Misread, i32_of};
use crate::pieces::is_blank;
use std::alloc::{AllocError, AllocFailed, Global};

/// A word that is no number of 32 bits, and where it starts: the line, and the byte in that line, both
/// counted from 1.
#[derive(Clone, Copy, Drop, Debug, PartialEq, Eq)]
pub struct BadWord {
    pub line: usize,
    pub column: usize,
    pub fault: Misread,
}

/// Why a text is not taken for numbers: one of its words is none, or memory ran out.
#[derive(Clone, Copy, Drop, Debug, PartialEq, Eq)]
pub enum Unread {
    Word(BadWord),
    Memory(AllocError),
}

impl From<BadWord> for Unread {
    ghost from_gives = { λ bad e. e ≡ unread.Word bad };

    fn from(bad: BadWord) -> Unread {
        Unread::Word(bad)
    }
}

impl From<AllocError> for Unread {
    ghost from_gives = { λ error e. e ≡ unread.Memory error };

    fn from(error: AllocError) -> Unread {
        Unread::Memory(error)
    }
}

impl<T: Drop> From<AllocFailed<T>> for Unread {
    ghost from_gives = { λ _ e. e ≡ unread.Memory alloc_error };

    fn from(failed: AllocFailed<T>) -> Unread {
        Unread::Memory(failed.into())
    }
}

fn push_word(numbers: &mut Vec<i32>, line: usize, column: usize, word: &[u8]) -> Result<(), Unread>
    ensures { Tells (λ _. numbers.new.items) result (on_to numbers.old.items (numbers_of (word_at line column word.now))) }
{
    if !word.is_empty() {
        let number = i32_of(word).map_err(|fault| BadWord {
            line,
            column,
            fault,
        })?;
        numbers.push(number)?;
    }
    Ok(())
}

fn push_line(numbers: &mut Vec<i32>, line: usize, bytes: &[u8]) -> Result<(), Unread>
    ensures { Tells (λ _. numbers.new.items) result (on_to numbers.old.items (numbers_of (line_words line bytes.now))) }
{
    // an empty line has no words, and to ask `split` for its one empty piece takes as long as to find where the line ends
    if bytes.is_empty() {
        return Ok(());
    }
    // `split` does not tell where a piece stands
    let mut column: usize = 1;
    for word in bytes.split(|byte| is_blank(*byte)) {
        push_word(numbers, line, column, word)?;
        column += word.len() + 1;
    }
    Ok(())
}

/// All words of a text as numbers of 32 bits, in the order in which they are read, or the first that is none.
pub fn numbers(heap: Global, text: &[u8]) -> Result<Vec<i32>, Unread>
    ensures { Tells vec_items result (numbers_of (words_of text.now)) }
{
    let mut numbers = Vec::new(heap);
    for (place, line) in text.split(|byte| *byte == b'\n').enumerate() {
        push_line(&mut numbers, place + 1, line)?;
    }
    Ok(numbers)
}
