//! What an account requires, given what its customer's rights are worth.
ghost use Rattle.std.specs.Prelude.{◌≡◌, ℕ};
ghost use Rattle.hours.specs.Bounds.{Within};
ghost use Rattle.gate_model.specs.State.{State};
ghost use Rattle.gate_model.specs.Requirement as rules;
ghost use Rattle.gate_tables.specs.Accounts.{account_of, total_of, above_of, IsOf};

use crate::account::Account;

impl Account {
    /// The unsettled cost of the months from the open one on.
    pub fn unsettled(&self, month: u8) -> i128
        ensures value { result ≡ rules.unsettled month (account_of self.now) }
        ensures small { Within 2361183241434822606848 result }
    {
        // a sum of signed numbers in a chain lacks its bound
        let mut sum: i128 = 0;
        for cost in &self.costs[usize::from(month.min(13))..] {
            sum += i128::from(*cost);
        }
        sum
    }

    /// Charges never fall below zero.
    pub fn charges(&self) -> i128
        ensures value { result ≡ rules.charges (account_of self.now) }
        ensures small { Within 18446744073709551616 result }
    {
        let sum = i128::from(self.invoiced) + i128::from(self.calculated);
        sum.max(0)
    }

    /// A negative holding pays for what stands, and not for charges.
    pub fn total(&self, month: u8, values: i64) -> i128
        ensures value { result ≡ total_of month values (account_of self.now) }
        ensures rule { (s : State) (c : ℕ) → IsOf s c month values (account_of self.now) → result ≡ rules.total s c }
    {
        let holding = self.unsettled(month) - i128::from(values);
        let covered = (holding + i128::from(self.standing)).max(0);
        covered + self.charges()
    }

    /// A cent is 120 twelfths.
    pub fn is_above(&self, month: u8, values: i64) -> bool
        ensures value { result ≡ above_of month values (account_of self.now) }
        ensures rule { (s : State) (c : ℕ) → IsOf s c month values (account_of self.now) → result ≡ rules.above s c }
    {
        self.total(month, values) > 120 * i128::from(self.security)
    }
}
