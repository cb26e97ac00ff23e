//! The words of a line. From here on no bytes are looked at.
ghost use Rattle.std.specs.Prelude.{◌≡◌, IfOk};
ghost use Rattle.std.specs.List.{before_first};
ghost use Rattle.journal.specs.Words.{starts_comment, number_of, verb_of, word_of, words_of};

use std::alloc::{AllocError, Global};
use text::{is_blank, size_of};

/// The first word of a line, which says what the others are for.
#[derive(Clone, Copy, Drop)]
pub enum Verb {
    Posted,
    Row,
    Average,
    Count,
    Mean,
    Recorded,
    Numbers,
    Proxy,
    History,
    Band,
    Seat,
    Price,
}

/// A number is kept by its size, since what it may be depends on its place.
#[derive(Clone, Copy, Drop)]
pub enum Word {
    Verb(Verb),
    Semicolon,
    Number { minus: bool, size: u64 },
    Other,
}

// The conversions of a word are private functions of one caller each: an `impl TryFrom` would say the same equation at more length.
fn verb_of(word: &[u8]) -> Option<Verb>
    ensures { result ≡ verb_of word.now }
{
    match word {
        b"posted" => Some(Verb::Posted),
        b"row" => Some(Verb::Row),
        b"average" => Some(Verb::Average),
        b"count" => Some(Verb::Count),
        b"mean" => Some(Verb::Mean),
        b"recorded" => Some(Verb::Recorded),
        b"numbers" => Some(Verb::Numbers),
        b"proxy" => Some(Verb::Proxy),
        b"history" => Some(Verb::History),
        b"band" => Some(Verb::Band),
        b"seat" => Some(Verb::Seat),
        b"price" => Some(Verb::Price),
        _ => None,
    }
}

/// A size that 64 bits do not hold is beyond every range that a number of a journal can have.
fn number_of(word: &[u8]) -> Option<Word>
    ensures { result ≡ number_of word.now }
{
    let (minus, digits) = match word {
        [b'-', digits @ ..] => (true, digits),
        _ => (false, word),
    };
    let size = size_of(digits).ok()?;
    Some(Word::Number { minus, size })
}

fn word_of(word: &[u8]) -> Word
    ensures { result ≡ word_of word.now }
{
    number_of(word)
        .or_else(|| verb_of(word).map(Word::Verb))
        .unwrap_or(match word {
            b";" => Word::Semicolon,
            _ => Word::Other,
        })
}

fn before_comment(line: &[u8]) -> &[u8]
    ensures { result.now ≡ before_first starts_comment line.now }
{
    match line.iter().position(|byte| *byte == b'#') {
        Some(end) => &line[..end],
        None => line,
    }
}

/// The words of a line, before any comment.
pub fn words_of(heap: Global, line: &[u8]) -> Result<Vec<Word>, AllocError>
    ensures { IfOk result (λ v. v.items ≡ words_of line.now) }
{
    before_comment(line)
        .split(|byte| is_blank(*byte))
        .filter(|word| !word.is_empty())
        .map(|word| word_of(word))
        .collect(heap)
}
