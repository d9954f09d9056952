// Units of the BabyBear field: numbers modulo p, added and multiplied (the source's baby_bear.rs).
//
// What comes out of a sum or a product is below p. What goes in may be any u32: it counts as what it leaves
// modulo p.

#![tactic(auto)]

ghost use Rattle.std.specs.Prelude.{◌≡◌};
ghost use Rattle.baby_bear.specs.Field.{add_unit, mul_unit, seventh, are_units};

use limits::P;

// 2^32: what of a number lies below it is the number's low part, and how often it lies in the number the high part.
pub const HALF: u64 = 4294967296;

// What 2^32 leaves modulo p.
pub const HALF_LEAVES: u64 = 268435454;

// A unit of the field, as a word (the source's `BabyBearUnit`); a caller may put any u32 into it.
#[repr(C)]
#[derive(Clone, Copy)]
pub struct BabyBearUnit(pub u32);

// The sum modulo p (the source's `Ring::add`).
pub fn add_unit(a: BabyBearUnit, b: BabyBearUnit) -> BabyBearUnit
    ensures { result.0 ≡ add_unit a.0 b.0 }
{
    BabyBearUnit(((a.0 as u64 + b.0 as u64) % P as u64) as u32)
}

// The product modulo p (the source's `Ring::mul`).
pub fn mul_unit(a: BabyBearUnit, b: BabyBearUnit) -> BabyBearUnit
    ensures { result.0 ≡ mul_unit a.0 b.0 }
{
    BabyBearUnit(((a.0 as u64 * b.0 as u64) % P as u64) as u32)
}

// The 7th power, by four products.
pub fn seventh(a: BabyBearUnit) -> BabyBearUnit
    ensures { result.0 ≡ seventh a.0 }
{
    let square = mul_unit(a, a);
    let fourth = mul_unit(square, square);
    let sixth = mul_unit(fourth, square);
    mul_unit(sixth, a)
}

// Is every word a unit? (The largest decides, so that the loop has no exit of its own.)
pub fn are_units(words: &[u32]) -> bool
    ensures { result ≡ are_units words.now }
{
    words.iter().copied().fold(0, |top, x| top.max(x)) < P
}
