//! What lawful recorded hours hold, line by line.
ghost use Rattle.std.specs.Prelude.{◌≡◌, IfOk, string_bytes, OnOk};
ghost use Rattle.hours.specs.RecordedFormat.{records_of};
ghost use Rattle.tcr_hours.specs.Listings.{Adds};
ghost use Rattle.tcr_hours.specs.Report.{in_order, location_shown, locations_shown, slot_shown, period_shown, first_month_shown, listing_of};

use crate::lines::{LocationLine, SlotLine};
use hours::{DISTANT, HourSource, OFF_PEAK, ON_PEAK, Period, RECENT, Recorded, Series, Slot};
use std::alloc::{AllocError, Global};

// The months of a year: a period starts in one of them, and is at most as long as all.
const MONTHS: u8 = 12;

/// What is written of recorded hours so far.
#[derive(Drop)]
struct Written<'a> {
    heap: Global,
    recorded: &'a Recorded,
    out: String,
}

impl<'a> Written<'a> {
    fn push_line(&mut self, line: &str) -> Result<(), AllocError>
        ensures { OnOk result (Adds self.old self.new (λ _. line.now)) }
    {
        self.out.push_str(line)?;
        Ok(())
    }

    fn push_location(&mut self, slot: Slot, location: u8) -> Result<(), AllocError>
        ensures { OnOk result (Adds self.old self.new (λ r. location_shown r slot location)) }
    {
        let recent = self.recorded.has_year(Series {
            location,
            slot,
            year: RECENT,
        });
        let distant = self.recorded.has_year(Series {
            location,
            slot,
            year: DISTANT,
        });
        if recent || distant {
            let shown = LocationLine {
                location,
                recent,
                distant,
            };
            let line = format!(in self.heap; "{shown}\n")?;
            self.push_line(line.as_str())?;
        }
        Ok(())
    }

    fn push_locations(&mut self, slot: Slot) -> Result<(), AllocError>
        ensures { OnOk result (Adds self.old self.new (λ r. locations_shown r slot)) }
    {
        for location in 0..Recorded::LOCATIONS {
            self.push_location(slot, location)?;
        }
        Ok(())
    }

    fn push_slot(&mut self, slot: Slot) -> Result<(), AllocError>
        ensures { OnOk result (Adds self.old self.new (λ r. slot_shown r slot)) }
    {
        let Some(counts) = self.recorded.counts(slot) else {
            return Ok(());
        };
        let shown = SlotLine { slot, counts };
        let line = format!(in self.heap; "{shown}\n")?;
        self.push_line(line.as_str())?;
        self.push_locations(slot)
    }

    fn push_period(&mut self, period: Period) -> Result<(), AllocError>
        ensures { OnOk result (Adds self.old self.new (λ r. period_shown r period.first period.months)) }
    {
        self.push_slot(Slot {
            period,
            class: ON_PEAK,
        })?;
        self.push_slot(Slot {
            period,
            class: OFF_PEAK,
        })
    }

    fn push_first_month(&mut self, first: u8) -> Result<(), AllocError>
        ensures { OnOk result (Adds self.old self.new (λ r. first_month_shown r first)) }
    {
        for months in 1..=MONTHS {
            self.push_period(Period { first, months })?;
        }
        Ok(())
    }

    fn push_periods(&mut self) -> Result<(), AllocError>
        ensures { OnOk result (Adds self.old self.new (λ r. in_order (first_month_shown r) 12 1)) }
    {
        for first in 1..=MONTHS {
            self.push_first_month(first)?;
        }
        Ok(())
    }
}

/// Every listed period and class with its counts, and below it the locations that have prices there.
pub fn listing(heap: Global, recorded: &Recorded) -> Result<String, AllocError>
    ensures { IfOk result (λ s. string_bytes s ≡ listing_of (records_of recorded.now)) }
{
    let mut written = Written {
        heap,
        recorded,
        out: String::from_str(heap, "lawful recorded hours\n")?,
    };
    written.push_periods()?;
    Ok(written.out)
}
