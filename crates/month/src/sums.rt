// The figures of the costs so far: total, least and greatest of each (document 02, E3), and the mean (E7).
ghost use Rattle.std.specs.Prelude.{◌≡◌, ◌≤◌};
ghost use Rattle.costs.specs.Priced.{Within};
ghost use Rattle.month.specs.Month.{mean};
ghost use Rattle.month.specs.Inner.{most_figure, most_lines, most_total, Gathered, Summed, WithCost};

use costs::Cost;

// The most of a figure.
pub const MOST_FIGURE: u32 = 15300000;

// Of each figure of costs the total, the least and the greatest.
#[derive(Drop)]
pub struct Sums {
    pub totals: [u64; 3],
    pub leasts: [u32; 3],
    pub greatests: [u32; 3],
}

impl Sums {
    // The sums of no costs: no figure is above the most, with which the least begins.
    pub fn new() -> Sums
        ensures { Gathered 0 result }
    {
        Sums {
            totals: [0; 3],
            leasts: [MOST_FIGURE; 3],
            greatests: [0; 3],
        }
    }

    // Adds a cost.
    pub fn add(&mut self, c: Cost)
        requires { Summed self.old × Within most_figure c }
        ensures { WithCost self.old c self.new }
    {
        for i in 0..3 {
            self.totals[i] += c[i] as u64;
            self.leasts[i] = self.leasts[i].min(c[i]);
            self.greatests[i] = self.greatests[i].max(c[i]);
        }
    }
}

// The mean of n numbers of that total: the nearest whole number, a half going to the even neighbour.
pub fn mean_of(total: u64, n: u32) -> u64
    requires { (total ≤ most_total) × (1 ≤ n) × (n ≤ most_lines) }
    ensures { result ≡ mean total n }
{
    let count = n as u64;
    let whole = total / count;
    let next = whole + 1;
    let even = whole + whole % 2;
    let twice = 2 * (total % count);
    if twice == count {
        return even;
    }
    if twice < count {
        return whole;
    }
    next
}
