//! The two questions, put to average hours and to recorded hours of the same content, bare and under the proxy.
//!
//! Month 1 on-peak has 2 recent hours, 1 distant hour and 3 hours ahead. Location 5 has the price 5 in its recent hours,
//! location 6 has -6, and no location has the distant year.
use hours::{
    AHEAD, Average, CountRow, Counts, DISTANT, Fault, HourSource, MeanRow, OFF_PEAK, ON_PEAK,
    Period, Proxy, RECENT, Recorded, Series, Slot, lacking_year, past_count, unknown_location,
    unlawful_question,
};
use std::alloc::{AllocError, Global};
use std::process::Abort;
use std::test::Fail;

const LISTED: Slot = Slot {
    period: Period {
        first: 1,
        months: 1,
    },
    class: ON_PEAK,
};

const UNLISTED: Slot = Slot {
    period: Period {
        first: 6,
        months: 3,
    },
    class: OFF_PEAK,
};

const FIVE_MONTHS: Slot = Slot {
    period: Period {
        first: 1,
        months: 5,
    },
    class: ON_PEAK,
};

const PAST_DECEMBER: Slot = Slot {
    period: Period {
        first: 12,
        months: 2,
    },
    class: ON_PEAK,
};

const NO_CLASS: Slot = Slot {
    period: Period {
        first: 1,
        months: 1,
    },
    class: 2,
};

const NO_YEAR: u8 = 3;

/// Why a question has no answer, the location and the year being those that were asked for.
#[derive(Clone, Copy)]
enum Why {
    Unlawful,
    Unknown,
    Lacking,
    Past,
}

type Answer = Result<i32, Why>;

/// In columns, so that a question is one line; the last two are for a bare source and for one under the proxy.
/// A question for a price: location, slot, year and hour, and the answers of a bare source and of one under the proxy.
const PRICES: [(u8, Slot, u8, u16, Answer, Answer); 16] = [
    (5, LISTED, RECENT, 0, Ok(5), Ok(5)),
    (6, LISTED, RECENT, 1, Ok(-6), Ok(-6)),
    // a location that lacks the year gets the mean of 5 and -6, rounded down
    (7, LISTED, RECENT, 0, Err(Why::Lacking), Ok(-1)),
    (63, LISTED, RECENT, 1, Err(Why::Lacking), Ok(-1)),
    // an hour past the count
    (5, LISTED, RECENT, 2, Err(Why::Past), Err(Why::Past)),
    (7, LISTED, RECENT, 2, Err(Why::Lacking), Err(Why::Past)),
    // a year that no location has, and one without hours
    (5, LISTED, DISTANT, 0, Err(Why::Lacking), Err(Why::Lacking)),
    (5, LISTED, DISTANT, 9, Err(Why::Lacking), Err(Why::Lacking)),
    (5, UNLISTED, RECENT, 0, Err(Why::Lacking), Err(Why::Lacking)),
    // a location that is not known
    (64, LISTED, DISTANT, 9, Err(Why::Unknown), Err(Why::Unknown)),
    (
        255,
        UNLISTED,
        RECENT,
        0,
        Err(Why::Unknown),
        Err(Why::Unknown),
    ),
    // a question that there is none of
    (64, LISTED, AHEAD, 9, Err(Why::Unlawful), Err(Why::Unlawful)),
    (
        64,
        LISTED,
        NO_YEAR,
        0,
        Err(Why::Unlawful),
        Err(Why::Unlawful),
    ),
    (
        5,
        FIVE_MONTHS,
        RECENT,
        0,
        Err(Why::Unlawful),
        Err(Why::Unlawful),
    ),
    (
        5,
        PAST_DECEMBER,
        RECENT,
        0,
        Err(Why::Unlawful),
        Err(Why::Unlawful),
    ),
    (
        5,
        NO_CLASS,
        RECENT,
        0,
        Err(Why::Unlawful),
        Err(Why::Unlawful),
    ),
];

/// A question for a count: slot and year, and the hours; none where there is no such question.
const COUNTS: [(Slot, u8, Option<u16>); 10] = [
    (LISTED, RECENT, Some(2)),
    (LISTED, DISTANT, Some(1)),
    (LISTED, AHEAD, Some(3)),
    (UNLISTED, RECENT, Some(0)),
    (UNLISTED, AHEAD, Some(0)),
    (LISTED, NO_YEAR, None),
    (LISTED, 255, None),
    (FIVE_MONTHS, RECENT, None),
    (PAST_DECEMBER, AHEAD, None),
    (NO_CLASS, DISTANT, None),
];

fn answer(expected: Answer, series: Series) -> Result<i32, Fault> {
    expected.map_err(|why| match why {
        Why::Unlawful => unlawful_question(),
        Why::Unknown => unknown_location(series.location),
        Why::Lacking => lacking_year(series.location, series.year),
        Why::Past => past_count(series.location, series.year),
    })
}

/// Puts all questions to a source, which is under the proxy or not: a flag, since all that differs is the column of the answers.
fn answers_all<S: HourSource>(rt: &impl Abort, source: &S, under_proxy: bool) {
    for (location, slot, year, hour, bare, proxied) in PRICES {
        let series = Series {
            location,
            slot,
            year,
        };
        let expected = if under_proxy { proxied } else { bare };
        assert_eq!(rt; source.mcc(series, hour), answer(expected, series));
    }
    for (slot, year, hours) in COUNTS {
        assert_eq!(rt; source.count(slot, year), hours.ok_or(unlawful_question()));
    }
    assert!(rt; S::LOCATIONS == 64);
}

fn mean(location: u8, mcc: i64) -> MeanRow {
    let series = Series {
        location,
        slot: LISTED,
        year: RECENT,
    };
    MeanRow { series, mcc }
}

fn average(heap: Global) -> Result<Average, Fail> {
    let mut counts = Vec::new(heap);
    counts.push(CountRow {
        slot: LISTED,
        counts: Counts {
            recent: 2,
            distant: 1,
            ahead: 3,
        },
    })?;
    let mut means = Vec::new(heap);
    means.push(mean(5, 5))?;
    means.push(mean(6, -6))?;
    Average::new(counts, means).map_err(|_| Fail::new("the rows are lawful"))
}

fn recorded(heap: Global) -> Result<Recorded, AllocError> {
    let numbers: [i32; 24] = [
        1, 1, 1, 0, 2, 1, 3, 2, 5, 1, 1, 0, 0, 2, 5, 5, 6, 1, 1, 0, 0, 2, -6, -6,
    ];
    Ok(Recorded::new(numbers.to_vec(heap)?))
}

#[test]
fn average_hours_answer(rt: HostRuntime) -> Result<(), Fail> {
    answers_all(&rt, &average(rt.alloc())?, false);
    Ok(())
}

#[test]
fn average_hours_answer_under_the_proxy(rt: HostRuntime) -> Result<(), Fail> {
    let below = average(rt.alloc())?;
    answers_all(&rt, &Proxy { below }, true);
    Ok(())
}

#[test]
fn recorded_hours_answer(rt: HostRuntime) -> Result<(), Fail> {
    answers_all(&rt, &recorded(rt.alloc())?, false);
    Ok(())
}

#[test]
fn recorded_hours_answer_under_the_proxy(rt: HostRuntime) -> Result<(), Fail> {
    let below = recorded(rt.alloc())?;
    answers_all(&rt, &Proxy { below }, true);
    Ok(())
}
