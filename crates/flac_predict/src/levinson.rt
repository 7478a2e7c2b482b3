//! The Levinson-Durbin recursion: the predictor of each order that leaves the least energy, from an autocorrelation.

ghost use Rattle.std.specs.Prelude.{◌≡◌, ◌≤◌, ◌<◌, length};

/// The predictors of the orders 1 to `orders`, at most 12. Row `n` has the `n + 1` coefficients of order `n + 1`, that of
/// the nearest sample first; `energies[n]` is what it leaves, the sum of the squares of its residual.
///
/// Each of these energies is positive. So each reflection coefficient lies between -1 and 1, and no coefficient of these
/// rows is infinite or NaN.
#[derive(Clone, Copy)]
pub(crate) struct Solutions {
    pub(crate) rows: [[f64; 12]; 12],
    pub(crate) energies: [f64; 12],
    pub(crate) orders: usize,
    ghost few: { orders ≤ 12 },
}

/// The reflection coefficient after the predictor of `order` coefficients, which leaves this energy.
fn reflection(sums: &[f64; 13], row: &[f64; 12], order: usize, energy: f64) -> f64
    requires { order < 12 }
{
    let mut rest = sums[order + 1];
    for lag in 0..order {
        rest -= row[lag] * sums[order - lag];
    }
    rest / energy
}

/// The coefficients of the next order.
fn next_row(row: &[f64; 12], order: usize, reflection: f64) -> [f64; 12]
    requires { order < 12 }
{
    let mut next = *row;
    for lag in 0..order {
        next[lag] = row[lag] - reflection * row[order - 1 - lag];
    }
    next[order] = reflection;
    next
}

/// The predictors of all orders, up to the first that would leave no energy. Silence has none, and so have sums that are
/// no autocorrelation: any floats are taken, NaN too.
pub(crate) fn levinson_durbin(sums: &[f64; 13]) -> Solutions {
    let mut rows = [[0.0; 12]; 12];
    let mut energies = [0.0; 12];
    let mut row = [0.0; 12];
    let mut energy = sums[0];
    for order in 0..12 {
        let turn = reflection(sums, &row, order, energy);
        let rest = energy * (1.0 - turn * turn);
        // (of NaN, neither is so)
        if !(energy > 0.0) || !(rest > 0.0) {
            return Solutions {
                rows,
                energies,
                orders: order,
            };
        }
        row = next_row(&row, order, turn);
        energy = rest;
        rows[order] = row;
        energies[order] = energy;
    }
    Solutions {
        rows,
        energies,
        orders: 12,
    }
}

/// The logarithm to base 2 of a number, to some thousandths; a small number for one that is not positive.
fn logarithm(number: f64) -> f64 {
    if !(number > 0.0) {
        return -100.0;
    }
    let mut rest = number;
    let mut whole = 0.0;
    for _ in 0..5 {
        if rest >= 4294967296.0 {
            rest *= 0.00000000023283064365386962890625;
            whole += 32.0;
        } else if rest < 1.0 {
            rest *= 4294967296.0;
            whole -= 32.0;
        }
    }
    for _ in 0..32 {
        if rest >= 2.0 {
            rest *= 0.5;
            whole += 1.0;
        }
    }
    // a parabola through 1, the root of 2, and 2
    let over = rest - 1.0;
    whole + over * (1.3465553 - 0.3465553 * over)
}

impl Solutions {
    /// The order that is likely to take the fewest bits, if each coefficient and its warm-up sample take `each` bits; 0
    /// if there is no predictor. A block has `count` samples.
    pub(crate) fn likely(&self, count: f64, each: f64) -> usize
        ensures { result ≤ 12 }
    {
        let mut best = 0;
        let mut least = 0.0;
        let mut order = 0.0;
        for place in 0..self.orders {
            order += 1.0;
            // bits of a value, for residuals of a Laplace distribution: its variance is that of a sample
            let bits = 0.5 * logarithm(self.energies[place] * 0.2402265 / count);
            // (not cut off at 0: in blocks of few loud samples most of what is left is nothing, and the order still matters)
            let all = bits * (count - order) + order * each;
            if place == 0 || all < least {
                best = place + 1;
                least = all;
            }
        }
        best.min(12)
    }
}
