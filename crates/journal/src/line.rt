//! What the words of a line say together. Each verb has a function of its own here, and a definition beside it.
ghost use Rattle.std.specs.Prelude.{◌≡◌, IfOk, vec_items};
ghost use Rattle.std.specs.Option.{option_map};
ghost use Rattle.journal.specs.Lines.{long, slot_of, key_of, row_line, count_line, mean_line, band_line, price_line, alone_line, plain_line, numbers_of, said_of, line_of};

use crate::word::{Verb, Word};
use books::{Key, Path, Row};
use hours::{CountRow, Counts, MeanRow, Period, Series, Slot};
use std::alloc::{AllocError, Global};

/// The limits of a band, lawful or not.
#[derive(Clone, Copy)]
pub struct Limits {
    pub low: i64,
    pub high: i64,
}

/// What a line says that has a fixed number of words.
#[derive(Clone, Copy)]
pub enum Plain {
    Posted,
    Row(Row),
    Average,
    Count(CountRow<u32>),
    Mean(MeanRow),
    Recorded,
    Proxy,
    History,
    Band(Limits),
    Seat,
    Price(Key),
}

#[derive(Drop)]
pub enum Said {
    Plain(Plain),
    Numbers(Vec<i32>),
}

/// `FIRST MONTHS CLASS`.
fn read_slot(words: &[Word]) -> Option<Slot>
    ensures { result ≡ long 3 words.now (slot_of words.now) }
{
    let [first, months, class] = words else {
        return None;
    };
    let period = Period {
        first: first.unsigned()?,
        months: months.unsigned()?,
    };
    let class = class.unsigned()?;
    Some(Slot { period, class })
}

/// `SOURCE SINK FIRST MONTHS CLASS`.
fn read_key(words: &[Word]) -> Option<Key>
    ensures { result ≡ long 5 words.now (key_of words.now) }
{
    let [source, sink, slot @ ..] = words else {
        return None;
    };
    let path = Path {
        source: source.unsigned()?,
        sink: sink.unsigned()?,
    };
    let slot = read_slot(slot)?;
    Some(Key { path, slot })
}

fn read_row(words: &[Word]) -> Option<Plain>
    ensures { result ≡ row_line words.now }
{
    let [_, key @ .., price] = words else {
        return None;
    };
    let key = read_key(key)?;
    let price = price.signed()?;
    Some(Plain::Row(Row { key, price }))
}

fn read_count(words: &[Word]) -> Option<Plain>
    ensures { result ≡ count_line words.now }
{
    let [_, slot @ .., recent, distant, ahead] = words else {
        return None;
    };
    Some(Plain::Count(CountRow {
        slot: read_slot(slot)?,
        counts: Counts {
            recent: recent.unsigned()?,
            distant: distant.unsigned()?,
            ahead: ahead.unsigned()?,
        },
    }))
}

fn read_mean(words: &[Word]) -> Option<Plain>
    ensures { result ≡ mean_line words.now }
{
    let [_, location, slot @ .., year, mcc] = words else {
        return None;
    };
    Some(Plain::Mean(MeanRow {
        series: Series {
            location: location.unsigned()?,
            slot: read_slot(slot)?,
            year: year.unsigned()?,
        },
        mcc: mcc.signed()?,
    }))
}

fn read_band(words: &[Word]) -> Option<Plain>
    ensures { result ≡ band_line words.now }
{
    let [_, low, high] = words else {
        return None;
    };
    Some(Plain::Band(Limits {
        low: low.signed()?,
        high: high.signed()?,
    }))
}

fn read_price(words: &[Word]) -> Option<Plain>
    ensures { result ≡ price_line words.now }
{
    let [_, key @ ..] = words else {
        return None;
    };
    read_key(key).map(Plain::Price)
}

fn alone(words: &[Word], plain: Plain) -> Option<Plain>
    ensures { result ≡ alone_line words.now plain }
{
    match words {
        [_] => Some(plain),
        _ => None,
    }
}

// A match, and no table of functions: that would name each verb twice.
fn read_plain(verb: Verb, words: &[Word]) -> Option<Plain>
    ensures { result ≡ plain_line verb words.now }
{
    match verb {
        Verb::Posted => alone(words, Plain::Posted),
        Verb::Row => read_row(words),
        Verb::Average => alone(words, Plain::Average),
        Verb::Count => read_count(words),
        Verb::Mean => read_mean(words),
        Verb::Recorded => alone(words, Plain::Recorded),
        Verb::Numbers => None,
        Verb::Proxy => alone(words, Plain::Proxy),
        Verb::History => alone(words, Plain::History),
        Verb::Band => read_band(words),
        Verb::Seat => alone(words, Plain::Seat),
        Verb::Price => read_price(words),
    }
}

/// All words as numbers, or none of them. No numbers is an answer here, and only want of memory an error.
fn numbers_of(heap: Global, words: &[Word]) -> Result<Option<Vec<i32>>, AllocError>
    ensures { IfOk result (λ o. option_map vec_items o ≡ numbers_of words.now) }
{
    let mut numbers = Vec::new(heap);
    for word in words {
        let Some(number) = word.signed() else {
            return Ok(None);
        };
        numbers.push(number)?;
    }
    Ok(Some(numbers))
}

/// What a line says that has words, or nothing where they cannot be read, which is no error of memory.
pub fn said_of(heap: Global, words: &[Word]) -> Result<Option<Said>, AllocError>
    ensures { IfOk result (λ s. said_of s ≡ line_of words.now) }
{
    match words {
        [Word::Verb(Verb::Numbers), numbers @ ..] => {
            Ok(numbers_of(heap, numbers)?.map(Said::Numbers))
        }
        [Word::Verb(verb), ..] => Ok(read_plain(*verb, words).map(Said::Plain)),
        _ => Ok(None),
    }
}
