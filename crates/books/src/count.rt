//! How many hours there are of a slot: what a mean is divided by, and what a price is paid for.
ghost use Rattle.std.specs.Prelude.{◌≡◌, ◌*◌, ◌<◌, ◌≤◌, pos, ◌*ℤ◌};
ghost use Rattle.hours.specs.Bounds.{Within};

/// Some hours, at most 9,000.
#[derive(Clone, Copy)]
pub(crate) struct Hours {
    pub(crate) number: u16,
    ghost some: { 0 < number },
    ghost few: { number ≤ 9000 },
}

impl Hours {
    /// So much for every hour. 64 bits have room for it: the greatest factor is the numerator of a mean.
    pub(crate) fn times(self, z: i64) -> i64
        requires { Within 129600000000000 z }
        ensures { result ≡ z *ℤ pos self.number }
    {
        z * i64::from(self.number)
    }

    pub(crate) fn product(self, other: Hours) -> u32
        ensures value { result ≡ self.number * other.number }
        ensures small { result ≤ 81000000 }
    {
        u32::from(self.number) * u32::from(other.number)
    }
}
