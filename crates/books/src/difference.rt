//! The differences of a path over the hours of a year.
ghost use Rattle.std.specs.Prelude.{◌≡◌, ◌≤◌, length, ◌-ℤ◌};
ghost use Rattle.books.specs.Differences.{differences, total, losses, Small};
ghost use Rattle.hours.specs.Bounds.{Within};

/// What a path pays in one hour.
fn difference(sink: i32, source: i32) -> i32
    requires sink { Within 200000 sink }
    requires source { Within 200000 source }
    ensures value { result ≡ sink -ℤ source }
    ensures small { Within 400000 result }
{
    sink - source
}

/// Takes the source's prices from the sink's, hour by hour, and leaves the losses, the opposites of the
/// differences, where the source's prices stood. The sum of the differences comes back.
pub(crate) fn subtract(sinks: &[i32], sources: &mut [i32]) -> i64
    requires few { length sinks.now ≤ 9000 }
    requires same { length sources.old ≡ length sinks.now }
    requires small_sinks { Small 200000 sinks.now }
    requires small_sources { Small 200000 sources.old }
    ensures sum { result ≡ total (differences sinks.now sources.old) }
    ensures after { sources.new ≡ losses (differences sinks.now sources.old) }
{
    let mut sum: i64 = 0;
    // By an index: of a zip that writes, a proof knows nothing afterwards.
    for (i, sink) in sinks.iter().enumerate() {
        let d = difference(*sink, sources[i]);
        sum += i64::from(d);
        sources[i] = -d;
    }
    sum
}
