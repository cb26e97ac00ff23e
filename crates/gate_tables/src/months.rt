//! A cost that each month of a period bears.
ghost use Rattle.std.specs.Prelude.{◌≡◌, ℕ, ◌≤◌, true, ◌+ℤ◌, map};
ghost use Rattle.std.specs.List.{All};
ghost use Rattle.hours.specs.Bounds.{Within};
ghost use Rattle.hours.specs.Periods.{lawful_period};
ghost use Rattle.gate_model.specs.Effects as effects;
ghost use Rattle.gate_tables.specs.Accounts.{account_of, costs_of};

use crate::account::Account;
use hours::Period;

fn raise(costs: &mut [i64], amount: i64)
    requires { All (λ cost. Within 9000000000000000000 (cost +ℤ amount)) costs.old }
    ensures { costs.new ≡ map (λ cost. cost +ℤ amount) costs.old }
{
    for cost in costs {
        *cost += amount;
    }
}

impl Account {
    /// An amount more in each month of a period. What it asks is about the amount, as of `drawn`.
    pub fn costed(self, period: Period, amount: i64) -> Self
        requires lawful { lawful_period period ≡ true }
        requires small { (m : ℕ) → period.first ≤ m → Within 9000000000000000000 (costs_of self.costs m +ℤ amount) }
        ensures { account_of result ≡ effects.costed period amount (account_of self) }
    {
        let mut costs = self.costs;
        let first = usize::from(period.first);
        let end = first + usize::from(period.months);
        raise(&mut costs[first..end], amount);
        Self { costs, ..self }
    }
}
