// Powers of units by squaring.

#![tactic(auto)]

ghost use Rattle.std.specs.Prelude.{◌≡◌};
ghost use Rattle.baby_bear.specs.Field.{mul_unit, power_unit};

use baby_bear::{BabyBearUnit, mul_unit};

// The power of a unit: a times itself, e times in all.
pub fn power_unit(a: BabyBearUnit, e: u32) -> BabyBearUnit
    ensures { result.0 ≡ power_unit a.0 e }
{
    times_power(BabyBearUnit(1), a, e)
}

// A unit times a power of another. a to the power e is a squared to the power e / 2, and times a once more where e is
// odd: so the exponent falls to its half at each call.
fn times_power(by: BabyBearUnit, a: BabyBearUnit, e: u32) -> BabyBearUnit
    ensures { result.0 ≡ mul_unit by.0 (power_unit a.0 e) }
{
    if e == 0 {
        return mul_unit(by, BabyBearUnit(1));
    }
    let square = mul_unit(a, a);
    if e % 2 == 0 {
        return times_power(by, square, e / 2);
    }
    times_power(mul_unit(by, a), square, e / 2)
}
