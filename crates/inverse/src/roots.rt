// 7th roots of a state: all elements at once, or the first.
//
// The root is a power. Of all elements it is taken side by side, so that the processor need not wait for one product
// before it begins the next.

ghost use Rattle.std.specs.Prelude.{◌≡◌, true, map, ◌≤◌, ◌<◌, length};
ghost use Rattle.limits.specs.Numbers.{max_width};
ghost use Rattle.baby_bear.specs.Field.{are_units, mul_unit, power_unit};
ghost use Rattle.permute.specs.Permute.{pairwise};
ghost use Rattle.powers.specs.Powers.{seventh_root};
ghost use Rattle.inverse.specs.Inverse.{lower};

use baby_bear::{BabyBearUnit, mul_unit};
use limits::STATE_WORDS;

// The power that undoes the 7th: seven times it leaves 1 modulo p - 1.
const SEVENTH_ROOT: u32 = 1725656503;

// Every element squared.
fn square_all(a: &mut [u32])
    ensures { a.new ≡ map (λ x. mul_unit x x) a.old }
{
    for x in a.iter_mut() {
        *x = mul_unit(BabyBearUnit(*x), BabyBearUnit(*x)).0;
    }
}

// Every element multiplied by the one at its place.
fn times_all(a: &[u32], by: &mut [u32])
    requires { length a.now ≡ length by.old }
    ensures { by.new ≡ pairwise mul_unit a.now by.old }
{
    for (i, b) in by.iter_mut().enumerate() {
        *b = mul_unit(BabyBearUnit(*b), BabyBearUnit(a[i])).0;
    }
}

// Every unit multiplied by the power of the element at its place: what `powers::power_unit` does with one. The
// exponent falls to its half at each call, and the elements are squared.
fn times_powers(e: u32, a: &mut [u32], by: &mut [u32])
    requires { (length a.old ≡ length by.old) × (are_units by.old ≡ true) }
    ensures { by.new ≡ pairwise (λ b x. mul_unit b (power_unit x e)) a.old by.old }
{
    if e == 0 {
        return;
    }
    if e % 2 == 0 {
        square_all(&mut *a);
        times_powers(e / 2, a, by);
        return;
    }
    times_all(a, &mut *by);
    square_all(&mut *a);
    times_powers(e / 2, a, by);
}

// Every element turned into its 7th root.
fn lower_all(x: &mut [u32])
    requires { length x.old ≤ max_width }
    ensures { x.new ≡ map seventh_root x.old }
{
    let w = x.len();
    let mut a = [0u32; STATE_WORDS];
    words::put(&mut a, 0, x);
    words::fill(&mut *x, 1);
    times_powers(SEVENTH_ROOT, &mut a[0..w], x);
}

// All elements (kind 0) or the first. Where there is only one, nothing is gained by taking it side by side.
pub(crate) fn lower(kind: u32, x: &mut [u32])
    requires { (0 < length x.old) × (length x.old ≤ max_width) }
    ensures { x.new ≡ lower kind x.old }
{
    if (kind == 0) & (1 < x.len()) {
        lower_all(x);
    } else {
        x[0] = powers::power_unit(BabyBearUnit(x[0]), SEVENTH_ROOT).0;
    }
}
