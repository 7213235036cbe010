// The laxities of a sheet's tasks, proved equal to rules/specs/Bounds.antt.
// They are made of loads and bounds, so that one of them can be another than the sheet's.
#![tactic(auto)]

mod loads;

ghost use Rattle.std.specs.Prelude.{◌≡◌, ◌+◌, ◌^◌, ◌<◌, ◌≤◌, length};
ghost use Rattle.std.specs.Int.RustNames.{unsigned_abs};
ghost use Rattle.rules.specs.Bounds.{rounded_up};
ghost use Rattle.rules.specs.Answers.{by_rank, laxity_of, no_laxity};
ghost use Rattle.rules.specs.Laws.{All};
ghost use Rattle.analysis.specs.Laxity.{own_period, has_points_of, another_has, demand_from, slack_from, largest_from, counted_from, laxity_from, of_loads, laxities_from};

use bounds::bounds_of;
use holders::Plan;
pub use loads::{Load, loads_of};
use rules::{Bound, Laxity};
use std::array;

// t over a period, rounded up: the quotient, and one more if a remainder is left. (`div_ceil` would hide these two parts, and each
// has an edit.)
#[tactic(auto, using(crate::proofs::Rounded::rounded_whole, crate::proofs::Rounded::rounded_fits, crate::proofs::Rounded::rounded_more))]
fn rounded_up(t: u32, period: u32) -> u32
    requires { (1 ≤ period) × (period < 65536) × (t < 65536) }
    ensures { (result ≡ rounded_up t period) × (result < 131072) }
{
    let quotient = t / period;
    if t % period == 0 {
        return quotient;
    }
    quotient + 1
}

// The demand of a task: its bound, and the loads of the ranks up to its own, which is the last.
#[derive(Clone, Copy)]
struct Demand<'a> {
    bound: u16,
    loads: &'a [Load],
    ghost some: { 1 ≤ length loads.now },
    ghost few: { length loads.now ≤ 16 },
    ghost small: { bound < 2 ^ 16 },
}

impl Demand<'_> {
    // The task's own period.
    fn own_period(&self) -> u32
        ensures value { result ≡ own_period self.now.loads.now }
        ensures small { result < 65536 }
    {
        u32::from(self.loads[self.loads.len() - 1].period)
    }

    // What the task demands up to t.
    #[tactic(auto, unfolding(crate::specs::Laxity::demand_from))]
    fn demand_at(&self, t: u32) -> u64
        requires { t < 65536 }
        ensures value { result ≡ demand_from self.now.loads.now self.now.bound t }
        ensures small { result < 2 ^ 40 }
    {
        let mut sum = u64::from(self.bound);
        for x in self.loads {
            let times = rounded_up(t, u32::from(x.period));
            sum += u64::from(x.cost) * u64::from(times);
        }
        sum
    }

    // t minus that.
    fn slack_at(&self, t: u32) -> i64
        requires { t < 65536 }
        ensures { result ≡ slack_from self.now.loads.now self.now.bound t }
    {
        i64::from(t) - self.demand_at(t) as i64
    }

    // Does task j have the points of task k? Its period divides k's; of tasks with the same period the first has them.
    #[tactic(auto, using(crate::proofs::Ranks::period_at, std::proofs::lemmas::Bool::Decides::nat_tests), unfolding(crate::specs::Laxity::has_points_of))]
    fn has_points_of(&self, k: usize, j: usize) -> bool
        requires { (k < length self.now.loads.now) × (j < length self.now.loads.now) }
        ensures { result ≡ has_points_of self.now.loads.now k j }
    {
        let period = self.loads[k].period;
        let other = self.loads[j].period;
        period % other == 0 && (j < k || other < period)
    }

    // Does another task have the points of task k?
    fn another_has(&self, k: usize) -> bool
        requires { k < length self.now.loads.now }
        ensures { result ≡ another_has self.now.loads.now k }
    {
        (0..self.loads.len()).any(|j| self.has_points_of(k, j))
    }

    // The largest slack at the points of task k and at the task's own period, where it is `first`.
    fn largest_of_rank(&self, k: usize, first: i64) -> i64
        requires rank { k < length self.now.loads.now }
        requires at_own { first ≡ slack_from self.now.loads.now self.now.bound (own_period self.now.loads.now) }
        ensures { result ≡ largest_from self.now.loads.now self.now.bound k }
    {
        let period = u32::from(self.loads[k].period);
        let points = self.own_period() / period;
        let mut best = first;
        for l in 1..=points {
            best = best.max(self.slack_at(l * period));
        }
        best
    }

    // The same, but for the points of a task whose points another has.
    fn counted_of_rank(&self, k: usize, first: i64) -> i64
        requires rank { k < length self.now.loads.now }
        requires at_own { first ≡ slack_from self.now.loads.now self.now.bound (own_period self.now.loads.now) }
        ensures { result ≡ counted_from self.now.loads.now self.now.bound k }
    {
        if self.another_has(k) {
            return first;
        }
        self.largest_of_rank(k, first)
    }

    // The largest over the points of each task.
    fn largest_slack(&self) -> i64
        ensures value { result ≡ laxity_from self.now.loads.now self.now.bound }
        ensures near { unsigned_abs result < 2 ^ 32 }
    {
        let first = self.slack_at(self.own_period());
        let mut best = first;
        for k in 0..self.loads.len() {
            best = best.max(self.counted_of_rank(k, first));
        }
        best
    }
}

// The laxity of a task from its bound and the loads of the ranks up to its own, which is the last.
#[tactic(auto, unfolding(crate::specs::Laxity::of_loads))]
pub fn laxity_from(loads: &[Load], b: Bound) -> Laxity
    requires some { 1 ≤ length loads.now }
    requires few { length loads.now ≤ 16 }
    ensures value { result ≡ of_loads loads.now b }
    ensures near { unsigned_abs result.ticks < 2 ^ 32 }
{
    let demand = Demand {
        bound: b.ticks,
        loads,
    };
    Laxity {
        ticks: demand.largest_slack(),
        by: b.by,
    }
}

// The laxity of each rank from the loads and the bounds; zero behind them.
pub fn laxities_from(loads: &[Load], bounds: &[Bound; 16]) -> [Laxity; 16]
    requires { length loads.now ≤ 16 }
    ensures value { result ≡ laxities_from loads.now bounds.now }
    ensures near { All (λ x. unsigned_abs x.ticks < 2 ^ 32) result }
{
    array::from_fn(|i| {
        if i < loads.len() {
            laxity_from(&loads[..=i], bounds[i])
        } else {
            Laxity::default()
        }
    })
}

// The laxity of each task; zero behind them.
pub fn laxities_of(plan: &Plan) -> [Laxity; 16]
    ensures value { result ≡ by_rank no_laxity laxity_of plan.now }
    ensures near { All (λ x. unsigned_abs x.ticks < 2 ^ 32) result }
{
    let loads = loads_of(plan.table());
    laxities_from(loads.as_slice(), &bounds_of(plan))
}
