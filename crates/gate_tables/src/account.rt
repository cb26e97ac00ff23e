//! What the gate keeps for one customer, and one change to it.
ghost use Rattle.std.specs.Prelude.{◌≡◌, ◌<◌, ◌+ℤ◌};
ghost use Rattle.hours.specs.Bounds.{Within};
ghost use Rattle.gate_model.specs.State.{empty_account};
ghost use Rattle.gate_model.specs.Effects as effects;
ghost use Rattle.gate_tables.specs.Accounts.{account_of, costs_of};

use std::mem;

/// Security in cents, all else in twelfths. The unsettled costs stand by month, 1 to 12; place 0 is nobody's. An array: the gate has fixed memory.
#[derive(Clone, Copy, PartialEq, Eq, Debug, Default)]
pub struct Account {
    pub security: u64,
    pub costs: [i64; 13],
    pub invoiced: i64,
    pub calculated: i64,
    pub standing: i64,
}

impl Account {
    pub fn new() -> Self
        ensures { account_of result ≡ empty_account }
    {
        Self::default()
    }

    pub fn secured(self, security: u64) -> Self
        ensures { account_of result ≡ effects.secured security (account_of self) }
    {
        Self { security, ..self }
    }

    pub fn charged(self, invoiced: i64, calculated: i64) -> Self
        ensures { account_of result ≡ effects.charged invoiced calculated (account_of self) }
    {
        Self {
            invoiced,
            calculated,
            ..self
        }
    }

    /// The standing sum more by what an item requires. What it asks is about the amount, so it is no invariant of the account.
    pub fn drawn(self, amount: i64) -> Self
        requires { Within 9000000000000000000 (self.standing +ℤ amount) }
        ensures { account_of result ≡ effects.drawn amount (account_of self) }
    {
        Self {
            standing: self.standing + amount,
            ..self
        }
    }

    /// Nothing stands.
    pub fn unstood(self) -> Self
        ensures { account_of result ≡ effects.unstood (account_of self) }
    {
        Self {
            standing: 0,
            ..self
        }
    }

    /// The cost of a month becomes a calculated charge. What it asks is about the month, as of `drawn` about the amount.
    pub fn month_charged(self, month: u8) -> Self
        requires month { month < 13 }
        requires small { Within 9000000000000000000 (self.calculated +ℤ costs_of self.costs month) }
        ensures { account_of result ≡ effects.month_charged month (account_of self) }
    {
        let mut costs = self.costs;
        let cost = mem::take(&mut costs[usize::from(month)]);
        Self {
            costs,
            calculated: self.calculated + cost,
            ..self
        }
    }
}
