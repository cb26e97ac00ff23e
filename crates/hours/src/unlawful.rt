//! The refusal of a source or a book that cannot be made.
ghost use Rattle.hours.specs.Refusals.{unlawful_number};
ghost use Rattle.std.specs.Prelude.{◌≡◌};

/// Numbers, rows or limits are unlawful. The line is the first entry at fault, counted from 1,
/// and 0 where no entry is to blame but the whole: the rules give every refusal a line.
#[derive(Clone, Copy, PartialEq, Eq, Debug)]
pub struct Unlawful {
    pub line: u32,
}

impl Unlawful {
    /// The number by which this refusal goes among all refusals.
    pub fn number(&self) -> u8
        ensures { result ≡ unlawful_number }
    {
        14
    }
}
