// The greatest magnitude of words.
ghost use Rattle.std.specs.Prelude.{◌≡◌, ℕ, ◌+◌, ◌≤◌, pos, ◌≤ℤ◌, get_or, unsigned_abs};
ghost use Rattle.fixed_arith.specs.Sums.{greatest_of};

use crate::words::abs_word;

/// The greatest magnitude of the values, that of -32768 limited to 32767; 0 where there are none.
#[inline]
#[tactic(auto, using(crate::specs::GreatestLaws::greatest_none, crate::specs::GreatestLaws::greatest_more))]
pub fn greatest(xs: &[i16]) -> i16
    ensures value { result ≡ greatest_of xs.now }
    ensures sign { pos 0 ≤ℤ result }
    ensures reach { (i : ℕ) → unsigned_abs (get_or xs.now i (pos 0)) ≤ unsigned_abs result + 1 }
{
    let mut top = 0i16;
    for x in xs {
        top = top.max(abs_word(*x));
    }
    top
}

#[cfg(test)]
mod tests {
    use super::*;

    #[test]
    fn greatest_magnitudes(rt: HostRuntime) {
        assert_eq!(rt; greatest(&[]), 0);
        assert_eq!(rt; greatest(&[3, -5, 4]), 5);
        assert_eq!(rt; greatest(&[0, -32768, 1]), 32767);
        assert_eq!(rt; greatest(&[7]), 7);
    }
}
