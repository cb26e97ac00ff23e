//! All that is written for the calls of a journal: a line for each, and a last line that counts them.
ghost use Rattle.std.specs.Prelude.{◌≡◌, ◌≤◌, length, IfOk, Some, string_bytes};
ghost use Rattle.journal.specs.Report.{how_often, tally_words, closing_words, lines_of, report_of};

use crate::outcome::{Kind, Outcome};
use std::alloc::{AllocError, Global};
use std::fmt;

fn how_often(outcomes: &[Outcome], kind: Kind) -> usize
    ensures within { result ≤ length outcomes.now }
    ensures value { result ≡ how_often kind outcomes.now }
{
    outcomes.iter().filter(|outcome| outcome.is(kind)).count()
}

/// What the last line says. A line that cannot be read is no call.
#[derive(Clone, Copy, Drop)]
struct Tally {
    taken: usize,
    refused: usize,
    unreadable: usize,
    calls: usize,
}

impl fmt::Display for Tally {
    ghost output = { λ x. Some (tally_words x.calls x.taken x.refused x.unreadable) };

    fn fmt<W: fmt::Write>(&self, f: &mut fmt::Formatter<W>) -> fmt::Result {
        let Tally {
            taken,
            refused,
            unreadable,
            calls,
        } = *self;
        write!(
            f,
            "played {calls} calls, {taken} taken, {refused} refused, {unreadable} unreadable"
        )
    }
}

fn closing(heap: Global, outcomes: &[Outcome]) -> Result<String, AllocError>
    ensures { IfOk result (λ s. string_bytes s ≡ closing_words outcomes.now) }
{
    let taken = how_often(outcomes, Kind::Taken);
    let refused = how_often(outcomes, Kind::Refused);
    let tally = Tally {
        taken,
        refused,
        unreadable: how_often(outcomes, Kind::Unreadable),
        calls: taken + refused,
    };
    format!(in heap; "{tally}\n")
}

/// A line for each outcome, in their order.
fn outcome_lines(heap: Global, outcomes: &[Outcome]) -> Result<String, AllocError>
    ensures { IfOk result (λ s. string_bytes s ≡ lines_of outcomes.now) }
{
    let mut text = String::new(heap);
    for outcome in outcomes {
        let line = format!(in heap; "{outcome}\n")?;
        text.push_str(line.as_str())?;
    }
    Ok(text)
}

/// All lines, the last of which counts the others.
pub fn report(heap: Global, outcomes: &[Outcome]) -> Result<String, AllocError>
    ensures { IfOk result (λ s. string_bytes s ≡ report_of outcomes.now) }
{
    let mut text = outcome_lines(heap, outcomes)?;
    let last = closing(heap, outcomes)?;
    text.push_str(last.as_str())?;
    Ok(text)
}
