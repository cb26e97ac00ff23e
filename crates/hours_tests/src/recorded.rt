//! Recorded hours: which numbers are refused, and what the others answer.
use hours::{
    AHEAD, Counts, DISTANT, HourSource, MOST_HOURS, ON_PEAK, Period, RECENT, Recorded, Series,
    Slot, Unlawful, check_recorded, lacking_year, past_count, unknown_location, unlawful_question,
};
use std::alloc::{AllocError, Global};
use std::test::Fail;

/// Numbers, and the line at which they are refused.
const REFUSED: [(&[i32], u32); 29] = [
    // a section's count that is missing or negative
    (&[], 0),
    (&[-1, 0], 0),
    (&[0], 0),
    (&[0, -1], 0),
    (&[1, 1, 1, 0, 2, 1, 3], 0),
    (&[1, 1, 1, 0, 2, 1, 3, -1], 0),
    // numbers left over
    (&[0, 0, 7], 0),
    // an entry that is cut short
    (&[1], 1),
    (&[1, 1, 1, 0, 2, 1], 1),
    (&[2, 1, 1, 0, 2, 1, 3], 2),
    (&[2, 1, 1, 0, 2, 1, 3, 1, 1, 1, 2, 1], 2),
    // a first month, a length or a class that there is none of
    (&[1, 0, 1, 0, 2, 1, 3, 0], 1),
    (&[1, 13, 1, 0, 2, 1, 3, 0], 1),
    (&[1, 257, 1, 0, 2, 1, 3, 0], 1),
    (&[1, 1, 0, 0, 2, 1, 3, 0], 1),
    (&[1, 1, 5, 0, 2, 1, 3, 0], 1),
    (&[1, 12, 2, 0, 2, 1, 3, 0], 1),
    (&[1, 2, 12, 0, 2, 1, 3, 0], 1),
    (&[1, 1, 1, -1, 2, 1, 3, 0], 1),
    (&[1, 1, 1, 2, 2, 1, 3, 0], 1),
    // a count of hours out of bounds
    (&[1, 1, 1, 0, -1, 1, 3, 0], 1),
    (&[1, 1, 1, 0, 9001, 1, 3, 0], 1),
    (&[1, 1, 1, 0, 2, -1, 3, 0], 1),
    (&[1, 1, 1, 0, 2, 9001, 3, 0], 1),
    (&[1, 1, 1, 0, 2, 1, -1, 0], 1),
    (&[1, 1, 1, 0, 2, 1, 9001, 0], 1),
    // a slot that is listed twice
    (&[2, 1, 1, 0, 2, 1, 3, 1, 1, 0, 5, 5, 5, 0], 2),
    // the first entry at fault counts, whatever follows
    (&[3, 1, 1, 0, 2, 1, 3, 1, 1, 2, 2, 1, 3, 0], 2),
    (&[2, 1, 1, 0, 2, 1, 3, 1, 1, 2, 2, 1, 3, -1], 2),
];

/// Month 1 on-peak with 2 recent hours, 1 distant hour and 3 hours ahead, and months 4 to 6 off-peak with 1 distant hour.
/// The first entry of the second section is then line 3.
const FIRST_SECTION: [i32; 13] = [2, 1, 1, 0, 2, 1, 3, 4, 3, 1, 0, 1, 0];

/// Second sections, and the line at which they are refused.
const REFUSED_YEARS: [(&[i32], u32); 29] = [
    // numbers left over
    (&[1, 5, 1, 1, 0, 0, 2, 100, -100, 0], 0),
    // an entry that is cut short
    (&[1], 3),
    (&[1, 5, 1, 1, 0, 0], 3),
    (&[1, 5, 1, 1, 0, 0, 2], 3),
    (&[1, 5, 1, 1, 0, 0, 2, 100], 3),
    (&[2, 5, 1, 1, 0, 0, 2, 100, -100], 4),
    // a location, a slot or a year that there is none of
    (&[1, -1, 1, 1, 0, 0, 2, 100, -100], 3),
    (&[1, 64, 1, 1, 0, 0, 2, 100, -100], 3),
    (&[1, 5, 0, 1, 0, 0, 2, 100, -100], 3),
    (&[1, 5, 1, 5, 0, 0, 2, 100, -100], 3),
    (&[1, 5, 12, 2, 0, 0, 2, 100, -100], 3),
    (&[1, 5, 1, 1, 2, 0, 2, 100, -100], 3),
    (&[1, 5, 1, 1, 0, -1, 2, 100, -100], 3),
    (&[1, 5, 1, 1, 0, 2, 3, 1, 2, 3], 3),
    // a count of hours that is 0, or not that of the slot and year
    (&[1, 5, 4, 3, 1, 0, 0], 3),
    (&[1, 5, 2, 1, 0, 0, 0], 3),
    (&[1, 5, 1, 1, 0, 0, -1], 3),
    (&[1, 5, 1, 1, 0, 0, 1, 100], 3),
    (&[1, 5, 1, 1, 0, 0, 3, 1, 2, 3], 3),
    (&[1, 5, 1, 1, 0, 1, 2, 100, -100], 3),
    (&[1, 5, 2, 1, 0, 0, 2, 100, -100], 3),
    // a price out of bounds
    (&[1, 5, 1, 1, 0, 0, 2, 200001, -100], 3),
    (&[1, 5, 1, 1, 0, 0, 2, -200001, -100], 3),
    (&[1, 5, 1, 1, 0, 0, 2, 100, 200001], 3),
    (&[1, 5, 1, 1, 0, 0, 2, 100, -200001], 3),
    // a year that is listed twice
    (&[2, 5, 1, 1, 0, 0, 2, 1, 2, 5, 1, 1, 0, 0, 2, 1, 2], 4),
    // the first entry at fault counts, whatever follows
    (&[2, 5, 1, 1, 0, 0, 2, 1, 2, 6, 1, 1, 0, 0, 2, 1, 200001], 4),
    (&[2, 64, 1, 1, 0, 0, 2, 1, 2, 5, 1, 1, 0, 0, 3], 3),
    (&[1, 5, 1, 1, 0, 0, 2, 1, 200001, 0], 3),
];

const LAWFUL: [&[i32]; 5] = [
    &[0, 0],
    &[1, 1, 1, 0, 2, 1, 3, 0],
    // the last months and the longest period, the greatest counts and the least
    &[2, 12, 1, 1, 9000, 9000, 9000, 1, 12, 0, 0, 0, 0, 0],
    // one period in both classes
    &[2, 1, 1, 0, 2, 1, 3, 1, 1, 1, 2, 1, 3, 0],
    &[1, 2, 2, 0, 0, 1, 0, 1, 9, 2, 2, 0, 1, 1, 5],
];

const LAWFUL_YEARS: [&[i32]; 5] = [
    &[0],
    &[1, 5, 1, 1, 0, 0, 2, 100, -100],
    // the first location and the last, the greatest price and the least
    &[2, 63, 1, 1, 0, 0, 2, 200000, -200000, 0, 4, 3, 1, 1, 1, 0],
    // both years of one location
    &[2, 5, 1, 1, 0, 1, 1, 7, 5, 1, 1, 0, 0, 2, 1, 2],
    // one year of two locations
    &[2, 5, 1, 1, 0, 0, 2, 1, 2, 6, 1, 1, 0, 0, 2, 1, 2],
];

fn after_first_section(heap: Global, years: &[i32]) -> Result<Vec<i32>, AllocError> {
    let mut numbers = FIRST_SECTION.to_vec(heap)?;
    numbers.extend_from_slice(years)?;
    Ok(numbers)
}

#[test]
fn unlawful_counts_are_refused_at_their_line(rt: HostRuntime) {
    for (numbers, line) in REFUSED {
        assert_eq!(rt; check_recorded(numbers), Err(Unlawful { line }));
    }
}

#[test]
fn unlawful_years_are_refused_at_their_line(rt: HostRuntime) -> Result<(), Fail> {
    for (years, line) in REFUSED_YEARS {
        let numbers = after_first_section(rt.alloc(), years)?;
        assert_eq!(rt; check_recorded(numbers.as_slice()), Err(Unlawful { line }));
    }
    Ok(())
}

#[test]
fn lawful_counts_pass(rt: HostRuntime) {
    for numbers in LAWFUL {
        assert_eq!(rt; check_recorded(numbers), Ok(()));
    }
}

#[test]
fn lawful_years_pass(rt: HostRuntime) -> Result<(), Fail> {
    for years in LAWFUL_YEARS {
        let numbers = after_first_section(rt.alloc(), years)?;
        assert_eq!(rt; check_recorded(numbers.as_slice()), Ok(()));
    }
    Ok(())
}

#[test]
fn too_many_numbers_are_refused_before_all_else(rt: HostRuntime) -> Result<(), Fail> {
    let twos = vec![in rt.alloc(); 2; 1_000_001]?;
    assert_eq!(rt; check_recorded(twos.as_slice()), Err(Unlawful { line: 0 }));
    assert_eq!(rt;
        check_recorded(&twos.as_slice()[1..]),
        Err(Unlawful { line: 1 })
    );
    Ok(())
}

const FIRST: Slot = Slot {
    period: Period {
        first: 1,
        months: 1,
    },
    class: ON_PEAK,
};

const SECOND: Slot = Slot {
    period: Period {
        first: 2,
        months: 1,
    },
    class: ON_PEAK,
};

/// The prices of a location in the first slot.
fn first(location: u8, year: u8) -> Series {
    Series {
        location,
        slot: FIRST,
        year,
    }
}

/// The first slot is listed; location 5 has its recent year.
const EXAMPLE: [i32; 16] = [1, 1, 1, 0, 2, 1, 3, 1, 5, 1, 1, 0, 0, 2, 100, -100];

#[test]
fn what_is_listed_is_answered(rt: HostRuntime) -> Result<(), Fail> {
    let recorded = Recorded::new(EXAMPLE.to_vec(rt.alloc())?);
    assert_eq!(rt;
        recorded.counts(FIRST),
        Some(Counts {
            recent: 2,
            distant: 1,
            ahead: 3,
        })
    );
    assert!(rt; recorded.counts(SECOND).is_none());
    assert!(rt; recorded.has_year(first(5, RECENT)) && !recorded.has_year(first(5, DISTANT)));
    assert_eq!(rt; recorded.count(FIRST, AHEAD), Ok(3));
    assert_eq!(rt; recorded.count(SECOND, RECENT), Ok(0));
    assert_eq!(rt; recorded.mcc(first(5, RECENT), 0), Ok(100));
    assert_eq!(rt; recorded.mcc(first(5, RECENT), 1), Ok(-100));
    Ok(())
}

#[test]
fn faults_come_in_their_order(rt: HostRuntime) -> Result<(), Fail> {
    let recorded = Recorded::new(EXAMPLE.to_vec(rt.alloc())?);
    assert_eq!(rt; recorded.mcc(first(64, AHEAD), 9), Err(unlawful_question()));
    assert_eq!(rt;
        recorded.mcc(first(64, DISTANT), 9),
        Err(unknown_location(64))
    );
    assert_eq!(rt;
        recorded.mcc(first(5, DISTANT), 9),
        Err(lacking_year(5, DISTANT))
    );
    assert_eq!(rt;
        recorded.mcc(first(5, RECENT), 2),
        Err(past_count(5, RECENT))
    );
    Ok(())
}

#[test]
fn a_year_is_copied_at_once(rt: HostRuntime) -> Result<(), Fail> {
    let recorded = Recorded::new(EXAMPLE.to_vec(rt.alloc())?);
    let mut buffer = [7; MOST_HOURS];
    assert_eq!(rt; recorded.fill(first(5, RECENT), &mut buffer), Ok(2));
    assert!(rt; buffer[0] == 100 && buffer[1] == -100 && buffer[2] == 7);
    Ok(())
}

#[test]
fn refused_numbers_list_nothing(rt: HostRuntime) -> Result<(), Fail> {
    let mut numbers = EXAMPLE.to_vec(rt.alloc())?;
    numbers.push(0)?;
    let recorded = Recorded::new(numbers);
    assert!(rt; recorded.counts(FIRST).is_none() && !recorded.has_year(first(5, RECENT)));
    assert_eq!(rt; recorded.count(FIRST, AHEAD), Ok(0));
    Ok(())
}
