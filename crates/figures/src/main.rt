//! Prints the worked figures, and fails where one that is only compared comes out differently.
#![tactic(auto)]

mod compared;
mod table;

use anyhow::ensure;
use compared::{BACK, ONE_HOUR, PUBLISHED, THERE, price};
use table::worked_figures;

/// The price, where it is the one that is known.
fn expected(price: i64, known: i64) -> anyhow::Result<i64> {
    ensure!(price == known, "a price differs");
    Ok(price)
}

fn run(rt: &HostRuntime) -> anyhow::Result<()> {
    let proved = worked_figures();
    let history = proved.history;
    let ninety = proved.ninety.unwrap_or(0);
    let seventy_five = proved.seventy_five.unwrap_or(0);
    let proxy = proved.proxy;
    println!(rt; "proved")?;
    println!(rt; "  history price, one hour a year of -3633 and -3658, two ahead: {history}")?;
    println!(rt;
        "  of the values 1 to 10 the 90th percentile: {ninety}, the 75th: {seventy_five}"
    )?;
    println!(rt; "  proxy over 5 and -6: {proxy}")?;
    let heap = rt.alloc();
    let first = expected(price(heap, &ONE_HOUR, THERE)?, -14_595)?;
    let there = expected(price(heap, &PUBLISHED, THERE)?, -10_468_250)?;
    let back = expected(price(heap, &PUBLISHED, BACK)?, 3_639_250)?;
    println!(rt; "compared")?;
    println!(rt; "  the same history price from recorded hours: {first}")?;
    println!(rt;
        "  yearly means -36.33 and -36.58, 90th percentile of the opposite flow 68.29, 1,000 hours ahead"
    )?;
    println!(rt; "    price {there}: -104.68 per MWh; the opposite path {back}: 36.39 per MWh")?;
    Ok(())
}

fn main(rt: HostRuntime) -> anyhow::Result<()> {
    run(&rt)
}
