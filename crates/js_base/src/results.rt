//! Functions that turn several results into one: all values, or the first error.
//! You pass the error on with a single `?`, at which you hold none of the values.

ghost use Rattle.std.specs.Prelude.{◌≡◌, IfOk, Ok};
ghost use Rattle.js_base.specs.Results.{both as both_of, all_3 as all_3_of, all_4 as all_4_of, all_5 as all_5_of, all_6 as all_6_of, all_7 as all_7_of};

use crate::memory::{OutOfMemory, TryClone};

/// Returns both values, or fails with the first error.
pub fn both<A: Drop, B: Drop, E: Drop>(a: Result<A, E>, b: Result<B, E>) -> Result<(A, B), E>
    ensures values { IfOk result (λ both. (a ≡ Ok both.0) × (b ≡ Ok both.1)) }
    ensures first { result ≡ both_of a b }
{
    Ok((a?, b?))
}

/// Returns all three values, or fails with the first error.
pub fn all_3<A: Drop, B: Drop, C: Drop, E: Drop>(
    a: Result<A, E>,
    b: Result<B, E>,
    c: Result<C, E>,
) -> Result<(A, B, C), E>
    ensures values { IfOk result (λ all. (a ≡ Ok all.0) × (b ≡ Ok all.1) × (c ≡ Ok all.2)) }
    ensures first { result ≡ all_3_of a b c }
{
    let ((a, b), c) = both(both(a, b), c)?;
    Ok((a, b, c))
}

/// Returns all four values, or fails with the first error.
pub fn all_4<A: Drop, B: Drop, C: Drop, D: Drop, E: Drop>(
    a: Result<A, E>,
    b: Result<B, E>,
    c: Result<C, E>,
    d: Result<D, E>,
) -> Result<(A, B, C, D), E>
    ensures values { IfOk result (λ all. (a ≡ Ok all.0) × (b ≡ Ok all.1) × (c ≡ Ok all.2) × (d ≡ Ok all.3)) }
    ensures first { result ≡ all_4_of a b c d }
{
    let ((a, b, c), d) = both(all_3(a, b, c), d)?;
    Ok((a, b, c, d))
}

/// Returns all five values, or fails with the first error.
pub fn all_5<A: Drop, B: Drop, C: Drop, D: Drop, F: Drop, E: Drop>(
    a: Result<A, E>,
    b: Result<B, E>,
    c: Result<C, E>,
    d: Result<D, E>,
    f: Result<F, E>,
) -> Result<(A, B, C, D, F), E>
    ensures values { IfOk result (λ all. (a ≡ Ok all.0) × (b ≡ Ok all.1) × (c ≡ Ok all.2) × (d ≡ Ok all.3) × (f ≡ Ok all.4)) }
    ensures first { result ≡ all_5_of a b c d f }
{
    let ((a, b, c, d), f) = both(all_4(a, b, c, d), f)?;
    Ok((a, b, c, d, f))
}

/// Returns all six values, or fails with the first error.
pub fn all_6<A: Drop, B: Drop, C: Drop, D: Drop, F: Drop, G: Drop, E: Drop>(
    a: Result<A, E>,
    b: Result<B, E>,
    c: Result<C, E>,
    d: Result<D, E>,
    f: Result<F, E>,
    g: Result<G, E>,
) -> Result<(A, B, C, D, F, G), E>
    ensures values { IfOk result (λ all. (a ≡ Ok all.0) × (b ≡ Ok all.1) × (c ≡ Ok all.2) × (d ≡ Ok all.3) × (f ≡ Ok all.4) × (g ≡ Ok all.5)) }
    ensures first { result ≡ all_6_of a b c d f g }
{
    let ((a, b, c, d, f), g) = both(all_5(a, b, c, d, f), g)?;
    Ok((a, b, c, d, f, g))
}

/// Returns all seven values, or fails with the first error.
pub fn all_7<A: Drop, B: Drop, C: Drop, D: Drop, F: Drop, G: Drop, H: Drop, E: Drop>(
    a: Result<A, E>,
    b: Result<B, E>,
    c: Result<C, E>,
    d: Result<D, E>,
    f: Result<F, E>,
    g: Result<G, E>,
    h: Result<H, E>,
) -> Result<(A, B, C, D, F, G, H), E>
    ensures values { IfOk result (λ all. (a ≡ Ok all.0) × (b ≡ Ok all.1) × (c ≡ Ok all.2) × (d ≡ Ok all.3) × (f ≡ Ok all.4) × (g ≡ Ok all.5) × (h ≡ Ok all.6)) }
    ensures first { result ≡ all_7_of a b c d f g h }
{
    let ((a, b, c, d, f, g), h) = both(all_6(a, b, c, d, f, g), h)?;
    Ok((a, b, c, d, f, g, h))
}

/// Returns a copy of each of three values.
/// Fails with `OutOfMemory` if memory runs out.
pub fn each_copied<A: TryClone, B: TryClone, C: TryClone>(
    a: &A,
    b: &B,
    c: &C,
) -> Result<(A, B, C), OutOfMemory>
    ensures { IfOk result (λ copies. copies ≡ (a.now, b.now, c.now)) }
{
    all_3(a.try_clone(), b.try_clone(), c.try_clone())
}
