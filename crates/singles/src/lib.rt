// The single-precision value of a path step, as its bits (C-23): by whole numbers alone.
#![tactic(auto)]

ghost use Rattle.std.specs.Prelude.{◌≡◌, ◌*◌, ◌^◌, ◌≤◌, ◌<◌};
ghost use Rattle.answers.specs.Answers.{answer_of};
ghost use Rattle.singles.specs.Single.{product, behind, nearest, magnitude as magnitude_of, of_step, single as single_of, of_number};

use answers::Answer;
use reasons::Reason;
use std::cmp::Ordering;

// The steps that convert without loss are up to this, either way.
const MOST: u64 = 16777216;

// The sign of a single.
const SIGN: u64 = 2147483648;

// The whole number of units that is nearest to the product; halfway between two the even one.
fn nearest(product: u64, unit: u64) -> u64
    requires { (0 < unit) × (product < 2 ^ 48) × (unit < 2 ^ 48) }
    ensures { result ≡ nearest product unit }
{
    let whole = product / unit;
    let rest = product % unit * 2;
    match rest.cmp(&unit) {
        Ordering::Less => whole,
        Ordering::Equal => whole + whole % 2,
        Ordering::Greater => whole + 1,
    }
}

// The bits of a step's magnitude: the product's first 24 digits, rounded, and the exponent of what stands behind them.
fn magnitude(step: u64) -> u64
    requires { step ≤ 16777216 }
    ensures { (result ≡ magnitude_of step) × (result < 2 ^ 31) }
{
    if step == 0 {
        return 0;
    }
    let product = step * 13421773;
    let behind = 40 - product.leading_zeros();
    let unit = 1 << behind;
    let exponent = 121 + u64::from(behind);
    exponent * 8388608 + nearest(product, unit)
}

// A step by its sign and its magnitude.
pub fn of_step(negative: bool, step: u64) -> Answer
    ensures { answer_of result ≡ of_step negative step }
{
    if MOST < step {
        return Answer::Refused(Reason::StepBeyondSingles, 0);
    }
    let sign = if negative { SIGN } else { 0 };
    Answer::Accepted(sign + magnitude(step))
}

// The bits of a step as a single, or 29.
pub fn single(step: i64) -> Answer
    ensures { answer_of result ≡ single_of step }
{
    of_step(step.is_negative(), step.unsigned_abs())
}

// The same of a step as a table keeps it, modulo 2^64.
pub fn of_number(number: u64) -> Answer
    ensures { answer_of result ≡ of_number number }
{
    single(number.cast_signed())
}
