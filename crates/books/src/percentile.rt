//! Percentiles, by bisection between the least and the greatest value. The values are only counted,
//! so they need no order and no memory.
ghost use Rattle.std.specs.Prelude.{◌≡◌, ◌⊎◌, ◌+◌, ◌<◌, ◌≤◌, ◌++◌, length, fold, false, MatchOption};
ghost use Rattle.books.specs.Percentiles.{at_most, reached, rankable, ranked, Percentile};
ghost use Rattle.std.specs.Int.{int_min, int_max};

/// The most values that are ranked.
const MOST_VALUES: usize = 100_000;

/// How many are above v. Counted in 32 bits and without a branch, so that many are compared at once.
fn above(values: &[i32], v: i32) -> u32
    requires { length values.now ≤ 100000 }
    ensures { result + at_most v values.now ≡ length values.now }
{
    values.iter().map(|x| u32::from(v < *x)).sum()
}

// Two folds, one line each: a fold that takes its operation would be longer than both.
fn lowest(values: &[i32], start: i32) -> i32
    ensures { result ≡ fold int_min start values.now }
{
    values.iter().fold(start, |low, x| low.min(*x))
}

fn highest(values: &[i32], start: i32) -> i32
    ensures { result ≡ fold int_max start values.now }
{
    values.iter().fold(start, |high, x| high.max(*x))
}

/// Some values, at most 100,000, in two runs that are ranked together, and the part of them in a hundred that is asked for.
#[derive(Clone, Copy)]
struct Sample<'a> {
    first: &'a [i32],
    second: &'a [i32],
    percent: u8,
    ghost some: { 0 < length first.now + length second.now },
    ghost few: { length first.now + length second.now ≤ 100000 },
    ghost low: { 0 < percent },
    ghost high: { percent ≤ 100 },
}

impl<'a> Sample<'a> {
    fn new(first: &'a [i32], second: &'a [i32], percent: u8) -> Option<Sample<'a>>
        ensures { MatchOption result ((rankable percent (first.now ++ second.now) ≡ false) ⊎ (length (first.now ++ second.now) ≡ 0)) (λ s. (s.first.now ≡ first.now) × (s.second.now ≡ second.now) × (s.percent ≡ percent)) }
    {
        let count = first.len() + second.len();
        if (1..=100).contains(&percent) && (1..=MOST_VALUES).contains(&count) {
            Some(Sample {
                first,
                second,
                percent,
            })
        } else {
            None
        }
    }

    /// Whether the part that is asked for is at most v.
    fn reaches(&self, v: i32) -> bool
        ensures { result ≡ reached self.now.percent (self.now.first.now ++ self.now.second.now) v }
    {
        let count = self.first.len() + self.second.len();
        let above = above(self.first, v) as usize + above(self.second, v) as usize;
        usize::from(self.percent) * count <= 100 * (count - above)
    }

    /// No number below `low` reaches the part, and `high` does; they close in on the percentile.
    /// The values lie in no order, so there is no slice that the library could search.
    fn percentile(&self) -> i32
        ensures { Percentile self.now.percent (self.now.first.now ++ self.now.second.now) result }
    {
        let mut low = i64::from(lowest(self.second, lowest(self.first, i32::MAX)));
        let mut high = i64::from(highest(self.second, highest(self.first, i32::MIN)));
        while low < high {
            let mid = low + (high - low) / 2;
            if self.reaches(mid as i32) {
                high = mid;
            } else {
                low = mid + 1;
            }
        }
        high as i32
    }
}

/// The smallest value that at least p in a hundred of the values do not exceed. There is none of no
/// values, and it is not looked for if p is not 1 to 100 or if there are more than 100,000 values.
pub fn percentile_of(first: &[i32], second: &[i32], p: u8) -> Option<i32>
    ensures value { result ≡ ranked p (first.now ++ second.now) }
    ensures least { MatchOption result Unit (λ v. Percentile p (first.now ++ second.now) v) }
{
    Some(Sample::new(first, second, p)?.percentile())
}
