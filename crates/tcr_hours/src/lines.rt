//! The lines that the program writes.
ghost use Rattle.std.specs.Prelude.{◌≡◌, Some};
ghost use Rattle.tcr_hours.specs.Lines.{fault_words, unreadable_line, ground_words, refused_line, class_word, slot_line, there_word, location_line};

use hours::{Counts, ON_PEAK, Period, Slot, Unlawful};
use std::fmt;
use text::{BadWord, Misread};

// Here and below, words that are this program's own: the types are another crate's, a number or a `bool`.
fn fault_words(fault: Misread) -> &'static str
    ensures { result.now ≡ fault_words fault }
{
    match fault {
        Misread::NoNumber => "not a number",
        Misread::BeyondRange => "a number beyond 32 bits",
    }
}

/// A word of the file that cannot be read.
#[derive(Clone, Copy, Drop)]
pub struct Unreadable(pub BadWord);

impl fmt::Display for Unreadable {
    ghost output = { λ x. Some (unreadable_line x.0) };

    fn fmt<W: fmt::Write>(&self, f: &mut fmt::Formatter<W>) -> fmt::Result {
        let BadWord {
            line,
            column,
            fault,
        } = self.0;
        let fault = fault_words(fault);
        write!(f, "unreadable: line {line}, column {column}: {fault}")
    }
}

/// Numbers that are no lawful recorded hours: as a whole, where the line is 0, or for one entry.
#[derive(Clone, Copy, Drop)]
pub struct Refused(pub Unlawful);

impl fmt::Display for Refused {
    ghost output = { λ x. Some (refused_line x.0.line) };

    fn fmt<W: fmt::Write>(&self, f: &mut fmt::Formatter<W>) -> fmt::Result {
        let number = self.0.number();
        let line = self.0.line;
        write!(f, "refused {number} line {line}: ")?;
        match line {
            0 => write!(
                f,
                "the file as a whole has more than 1,000,000 numbers, a section without a count or with a negative one, or numbers left over"
            ),
            _ => write!(
                f,
                "entry {line}, counted through both sections, is cut short, out of range, listed twice, or has another hour count than its period"
            ),
        }
    }
}

fn class_word(class: u8) -> &'static str
    ensures { result.now ≡ class_word class }
{
    match class {
        ON_PEAK => "on-peak",
        _ => "off-peak",
    }
}

/// A listed period and class with its hour counts.
#[derive(Clone, Copy, Drop)]
pub struct SlotLine {
    pub slot: Slot,
    pub counts: Counts<u16>,
}

impl fmt::Display for SlotLine {
    ghost output = { λ x. Some (slot_line x.slot x.counts) };

    fn fmt<W: fmt::Write>(&self, f: &mut fmt::Formatter<W>) -> fmt::Result {
        let Period { first, months } = self.slot.period;
        let class = class_word(self.slot.class);
        let Counts {
            recent,
            distant,
            ahead,
        } = self.counts;
        write!(
            f,
            "first month {first}, months {months}, {class}: recent {recent}, distant {distant}, ahead {ahead}"
        )
    }
}

fn there_word(there: bool) -> &'static str
    ensures { result.now ≡ there_word there }
{
    if there { "there" } else { "lacking" }
}

/// A location, and which of the two past years it has prices for.
#[derive(Clone, Copy, Drop)]
pub struct LocationLine {
    pub location: u8,
    pub recent: bool,
    pub distant: bool,
}

impl fmt::Display for LocationLine {
    ghost output = { λ x. Some (location_line x.location x.recent x.distant) };

    fn fmt<W: fmt::Write>(&self, f: &mut fmt::Formatter<W>) -> fmt::Result {
        let location = self.location;
        let recent = there_word(self.recent);
        let distant = there_word(self.distant);
        write!(
            f,
            "  location {location}: recent {recent}, distant {distant}"
        )
    }
}
