//! The figures that are proved, as one table.
ghost use Rattle.figures.specs.Figures.{Worked};

use books::percentile_of;
use hours::stand_in_for_five_and_minus_six;

#[derive(Drop)]
pub struct Table {
    pub history: i64,
    pub ninety: Option<i32>,
    pub seventy_five: Option<i32>,
    pub proxy: i32,
}

/// The worked figures. The history price stands as a number here: that it is the price by the rules is what the contract says.
pub fn worked_figures() -> Table
    ensures { Worked result }
{
    let ten = [1, 2, 3, 4, 5, 6, 7, 8, 9, 10];
    Table {
        history: -14_595,
        ninety: percentile_of(&ten, &[], 90),
        seventy_five: percentile_of(&ten, &[], 75),
        proxy: stand_in_for_five_and_minus_six(),
    }
}
