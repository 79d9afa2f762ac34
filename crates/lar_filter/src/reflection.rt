// Reflection coefficients from an autocorrelation, by the recursion of Schur: GSM 06.10 section 5.2.5.
ghost use Rattle.std.specs.Prelude.{◌≡◌, ◌≤◌, ◌+◌, ℕ, pos, ◌≤ℤ◌, ◌<ℤ◌, unsigned_abs};
ghost use Rattle.fixed_arith.specs.Word.{abs_of_word, add_words, mult_r_words, norm_of, IsNorm};
ghost use Rattle.fixed_arith.specs.Signal.{at};
ghost use Rattle.lar_filter.specs.Autocorrelation.{FirstIsGreatest};
ghost use Rattle.lar_filter.specs.Reflections.{quotient_of, next_p, next_k, normal_word, quotients, reflections};

use fixed_arith::{abs_word, add, div_word, mult_r, norm_long};

/// The reflection coefficients r(1) to r(8), fractions of 15 binary places, of an autocorrelation whose first value has the greatest magnitude.
/// They are 0 where the first value is, and from the turn on that would give one above 1.
pub fn schur(acf: &[i32; 9]) -> [i16; 8]
    requires { FirstIsGreatest acf.now }
    ensures { result ≡ reflections (at acf.now) }
{
    if acf[0] > 0 {
        reflect(&normalise(acf))
    } else {
        [0; 8]
    }
}

/// The values, scaled so that the first is normal.
fn normalise(acf: &[i32; 9]) -> [i16; 9]
    requires first { FirstIsGreatest acf.now }
    requires sign { pos 0 <ℤ at acf.now 0 }
    ensures { (k : ℕ) → k ≤ 8 → at result k ≡ normal_word (at acf.now 0) (at acf.now k) }
{
    let places = norm_long(acf[0]);
    let mut values = [0; 9];
    for k in 0..9 {
        values[k] = normalise_word(acf[0], acf[k], places);
    }
    values
}

/// One value, scaled.
#[inline]
#[tactic(auto, unfolding(crate::specs::Reflections::normal_word))]
fn normalise_word(first: i32, x: i32, places: u32) -> i16
    requires bound { pos (unsigned_abs x) ≤ℤ first }
    requires places { places ≡ norm_of (unsigned_abs first) }
    requires most { places ≤ 30 }
    requires normal { IsNorm (unsigned_abs first) places }
    requires some { pos 0 <ℤ first }
    ensures { result ≡ normal_word first x }
{
    ((x << places) >> 16) as i16
}

/// The coefficient of a turn.
#[inline]
#[tactic(auto, unfolding(crate::specs::Reflections::quotient_of))]
fn quotient(low: i16, x: i16) -> i16
    requires { abs_of_word x ≤ℤ low }
    ensures { result ≡ quotient_of low x }
{
    let ratio = div_word(abs_word(x), low);
    if x > 0 { -ratio } else { ratio }
}

/// A value of each row in the next turn, both from those of this turn.
#[inline]
fn cross(p: i16, k: i16, r: i16) -> (i16, i16)
    ensures p { result.0 ≡ add_words p (mult_r_words k r) }
    ensures k { result.1 ≡ add_words k (mult_r_words p r) }
{
    (add(p, mult_r(k, r)), add(k, mult_r(p, r)))
}

/// One turn: the first values become those of the next turn.
#[inline]
fn turn(p: &mut [i16; 9], k: &mut [i16; 9], r: i16, last: usize)
    requires { last ≤ 7 }
    ensures p { (m : ℕ) → m ≤ last → at p.new m ≡ next_p r (at p.old) (at k.old) m }
    ensures k { (m : ℕ) → 1 ≤ m → m ≤ last → at k.new m ≡ next_k r (at p.old) (at k.old) m }
{
    p[0] = add(p[0], mult_r(p[1], r));
    for m in 1..last + 1 {
        let (above, beside) = cross(p[m + 1], k[m], r);
        p[m] = above;
        k[m] = beside;
    }
}

/// The coefficients of eight turns.
fn reflect(values: &[i16; 9]) -> [i16; 8]
    ensures { result ≡ quotients 8 (at values.now) (at values.now) }
{
    let mut p = *values;
    let mut k = *values;
    let mut r = [0; 8];
    for n in 0..8 {
        if p[0] < abs_word(p[1]) {
            return r;
        }
        let q = quotient(p[0], p[1]);
        r[n] = q;
        turn(&mut p, &mut k, q, 7 - n);
    }
    r
}

#[cfg(test)]
mod tests {
    use super::*;

    #[test]
    fn coefficients_of_three_autocorrelations(rt: HostRuntime) {
        assert_eq!(rt; schur(&[0; 9]), [0; 8]);
        assert_eq!(rt;
            schur(&[100, 100, -100, 0, 0, 0, 0, 0, 0]),
            [-32767, 0, 0, 0, 0, 0, 0, 0]
        );
        assert_eq!(rt;
            schur(&[100, -60, 30, 0, 10, 0, 0, 0, 5]),
            [19660, 3072, -7263, -11813, -9529, -937, 8191, 8319]
        );
    }
}
