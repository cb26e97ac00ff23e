//! The entries of a journal: one for each line that has a word before its comment.
ghost use Rattle.std.specs.Prelude.{◌≡◌, ◌++◌, map, IfOk, OnOk};
ghost use Rattle.journal.specs.Entries.{entry_of, one_entry, entries_of};

use crate::line::{Said, said_of};
use crate::word::words_of;
use std::alloc::{AllocError, Global};

/// What a line says, with its place among all lines of the text, from 1. A line that cannot be read says nothing.
#[derive(Drop)]
pub struct Entry {
    pub line: usize,
    pub said: Option<Said>,
}

fn push_entry(
    heap: Global,
    entries: &mut Vec<Entry>,
    line: usize,
    bytes: &[u8],
) -> Result<(), AllocError>
    ensures { OnOk result (map entry_of entries.new.items ≡ map entry_of entries.old.items ++ one_entry line bytes.now) }
{
    // an empty line says nothing, and to look for its words takes longer than to find where it ends
    if bytes.is_empty() {
        return Ok(());
    }
    let words = words_of(heap, bytes)?;
    if !words.is_empty() {
        let said = said_of(heap, words.as_slice())?;
        entries.push(Entry { line, said })?;
    }
    Ok(())
}

/// An entry for each line that has a word, in their order.
pub fn read(heap: Global, text: &[u8]) -> Result<Vec<Entry>, AllocError>
    ensures { IfOk result (λ v. map entry_of v.items ≡ entries_of text.now) }
{
    let mut entries = Vec::new(heap);
    for (place, line) in text.split(|byte| *byte == b'\n').enumerate() {
        push_entry(heap, &mut entries, place + 1, line)?;
    }
    Ok(entries)
}
