//! Why a question has no answer.
ghost use Rattle.hours.specs.Faults.{layer_number, cause_number, cause_location, cause_year, unlawful_question, unknown_location, lacking_year, past_count};
ghost use Rattle.std.specs.Prelude.{◌≡◌};

/// The part that found the fault.
#[derive(Clone, Copy, PartialEq, Eq, Debug)]
pub enum Layer {
    Hours,
    Book,
}

/// What went wrong, and where.
#[derive(Clone, Copy, PartialEq, Eq, Debug)]
pub enum Cause {
    /// a period, class or year, or a whole key, that there is none of
    Unlawful,
    /// a key that a posted book does not list
    NotPosted,
    /// a location that the source does not know
    UnknownLocation { location: u8 },
    /// a location with no prices in that year
    LackingYear { location: u8, year: u8 },
    /// a year, or what lies ahead, without hours
    NoHours { year: u8 },
    /// an hour past the last one of its year
    PastCount { location: u8, year: u8 },
}

#[derive(Clone, Copy, PartialEq, Eq, Debug)]
pub struct Fault {
    pub layer: Layer,
    pub cause: Cause,
}

/// The number by which the part goes.
impl From<Layer> for u8 {
    ghost from_gives = { λ layer n. n ≡ layer_number layer };

    fn from(layer: Layer) -> u8 {
        match layer {
            Layer::Hours => 1,
            Layer::Book => 2,
        }
    }
}

/// The number by which the cause goes.
impl From<Cause> for u8 {
    ghost from_gives = { λ cause n. n ≡ cause_number cause };

    fn from(cause: Cause) -> u8 {
        match cause {
            Cause::Unlawful => 1,
            Cause::NotPosted => 2,
            Cause::UnknownLocation { .. } => 3,
            Cause::LackingYear { .. } => 4,
            Cause::NoHours { .. } => 5,
            Cause::PastCount { .. } => 6,
        }
    }
}

impl Cause {
    /// The location, and 0 where the cause has none: so the rules print it.
    pub fn location(&self) -> u8
        ensures { result ≡ cause_location self.now }
    {
        match self {
            Cause::UnknownLocation { location }
            | Cause::LackingYear { location, .. }
            | Cause::PastCount { location, .. } => *location,
            Cause::Unlawful | Cause::NotPosted | Cause::NoHours { .. } => 0,
        }
    }

    /// The year, and 0 where the cause has none: so the rules print it.
    pub fn year(&self) -> u8
        ensures { result ≡ cause_year self.now }
    {
        match self {
            Cause::LackingYear { year, .. }
            | Cause::NoHours { year }
            | Cause::PastCount { year, .. } => *year,
            Cause::Unlawful | Cause::NotPosted | Cause::UnknownLocation { .. } => 0,
        }
    }
}

// A constructor for each fault that a source finds: each is public, and promises one fault of the rules.
pub fn unlawful_question() -> Fault
    ensures { result ≡ unlawful_question }
{
    Fault {
        layer: Layer::Hours,
        cause: Cause::Unlawful,
    }
}

pub fn unknown_location(location: u8) -> Fault
    ensures { result ≡ unknown_location location }
{
    Fault {
        layer: Layer::Hours,
        cause: Cause::UnknownLocation { location },
    }
}

pub fn lacking_year(location: u8, year: u8) -> Fault
    ensures { result ≡ lacking_year location year }
{
    Fault {
        layer: Layer::Hours,
        cause: Cause::LackingYear { location, year },
    }
}

pub fn past_count(location: u8, year: u8) -> Fault
    ensures { result ≡ past_count location year }
{
    Fault {
        layer: Layer::Hours,
        cause: Cause::PastCount { location, year },
    }
}
