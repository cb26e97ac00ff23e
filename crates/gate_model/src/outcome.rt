//! What a call answers.
use super::refusal::Refusal;
use hours::Fault;

/// A customer's requirement, the holding, the standing sum and the charges that it is made of, in twelfths, and the security in
/// cents.
#[derive(Clone, Copy, PartialEq, Eq, Debug)]
pub struct Totals {
    pub total: i64,
    pub holding: i64,
    pub standing: i64,
    pub charges: i64,
    pub security: u64,
}

/// Numbers given one after the other.
#[derive(Clone, Copy, PartialEq, Eq, Debug)]
pub struct Numbers {
    pub first: u32,
    pub last: u32,
}

#[derive(Clone, Copy, PartialEq, Eq, Debug)]
pub enum Outcome {
    /// the security after a posting or a return, in cents
    SecurityNow(u64),
    /// the calculated charges after a charge
    CalculatedNow(i64),
    /// the invoiced charges after an invoice or a payment
    InvoicedNow(i64),
    /// the number of the auction that is open now
    Opened(u32),
    /// the numbers of the items that stand from now on
    Standing(Numbers),
    /// the number of the auction that is closed now
    ShutOf(u32),
    /// the numbers of the rights that an award or a transfer made
    RightsMade(Numbers),
    /// the megawatts that an award on an offer sold
    SoldOf(u32),
    /// an award of zero megawatts
    NothingCleared,
    /// the number of the auction that has ended
    EndedOf(u32),
    /// the open month after a month turn
    MonthNow(u8),
    /// a new book is in force
    BookNow,
    /// the price that the book in force answers for a key
    PriceIs(i64),
    /// the fault that it answers
    FaultIs(Fault),
    TotalIs(Totals),
    Refused(Refusal),
}
