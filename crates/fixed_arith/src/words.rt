// 16-bit words: GSM 06.10 section 5.1.
ghost use Rattle.std.specs.Prelude.{◌≡◌, ◌≤◌, pos, ◌≤ℤ◌};
ghost use Rattle.fixed_arith.specs.Word.{clip_word, add_words, sub_words, mult_words, mult_r_words, abs_of_word, div_words, shift_word_left};

/// The value, limited to -32768 to 32767.
#[inline]
#[tactic(auto, unfolding(crate::specs::Word::clip_word))]
pub fn clip16(a: i32) -> i16
    ensures { result ≡ clip_word a }
{
    a.clamp(-32768, 32767) as i16
}

/// The limited sum (`add`).
#[inline]
#[tactic(auto, unfolding(crate::specs::Word::add_words))]
pub fn add(a: i16, b: i16) -> i16
    ensures { result ≡ add_words a b }
{
    clip16(a as i32 + b as i32)
}

/// The limited difference (`sub`).
#[inline]
#[tactic(auto, unfolding(crate::specs::Word::sub_words))]
pub fn sub(a: i16, b: i16) -> i16
    ensures { result ≡ sub_words a b }
{
    clip16(a as i32 - b as i32)
}

/// The product of two fractions of 15 binary places, rounded down and limited (`mult`).
#[inline]
#[tactic(auto, unfolding(crate::specs::Word::mult_words))]
pub fn mult(a: i16, b: i16) -> i16
    ensures { result ≡ mult_words a b }
{
    clip16((a as i32 * b as i32) >> 15)
}

/// The product of two fractions of 15 binary places, rounded to the nearest and limited (`mult_r`).
#[inline]
#[tactic(auto, unfolding(crate::specs::Word::mult_r_words))]
pub fn mult_r(a: i16, b: i16) -> i16
    ensures { result ≡ mult_r_words a b }
{
    clip16((a as i32 * b as i32 + 16384) >> 15)
}

/// The magnitude, limited (`abs`).
#[inline]
#[tactic(auto, unfolding(crate::specs::Word::clip_word, crate::specs::Word::abs_of_word))]
pub fn abs_word(a: i16) -> i16
    ensures value { result ≡ abs_of_word a }
    ensures sign { pos 0 ≤ℤ result }
{
    a.saturating_abs()
}

/// The quotient of two words as a fraction of 15 binary places, limited; 0 for 0 over 0 (`div`).
#[inline]
#[tactic(auto, unfolding(crate::specs::Word::div_words))]
pub fn div_word(a: i16, b: i16) -> i16
    requires low { pos 0 ≤ℤ a }
    requires high { a ≤ℤ b }
    ensures value { result ≡ div_words a b }
{
    if a == 0 {
        return 0;
    }
    let quotient = a as i32 * 32768 / b as i32;
    quotient.min(32767) as i16
}

/// The value shifted left by this many places, limited.
#[inline]
#[tactic(auto, unfolding(crate::specs::Word::shift_word_left))]
pub fn shift_left(a: i16, n: u32) -> i16
    requires { n ≤ 15 }
    ensures { result ≡ shift_word_left a n }
{
    clip16((a as i32) << n)
}

#[cfg(test)]
mod tests {
    use super::*;

    #[test]
    fn words_by_table(rt: HostRuntime) {
        for (value, want) in [
            (-32769, -32768),
            (-32768, -32768),
            (32767, 32767),
            (32768, 32767),
            (-7, -7),
        ] {
            assert_eq!(rt; clip16(value), want, "the limit of {value}");
        }
        // a, b, the sum, the difference, the product, the rounded product
        for (a, b, sum, difference, product, rounded) in [
            (-32768, -32768, -32768, 0, 32767, 32767),
            (-1, 1, 0, -2, -1, 0),
            (32767, 32767, 32767, 0, 32766, 32766),
            (32767, -32768, -1, 32767, -32767, -32767),
            (-32768, 1, -32767, -32768, -1, -1),
            (3, 16384, 16387, -16381, 1, 2),
            (-3, 16384, 16381, -16387, -2, -1),
            (1, 16383, 16384, -16382, 0, 0),
        ] {
            assert_eq!(rt; add(a, b), sum, "add({a}, {b})");
            assert_eq!(rt; sub(a, b), difference, "sub({a}, {b})");
            assert_eq!(rt; mult(a, b), product, "mult({a}, {b})");
            assert_eq!(rt; mult_r(a, b), rounded, "mult_r({a}, {b})");
        }
        for (value, want) in [
            (-32768, 32767),
            (-32767, 32767),
            (-1, 1),
            (0, 0),
            (32767, 32767),
        ] {
            assert_eq!(rt; abs_word(value), want, "abs_word({value})");
        }
        assert_eq!(rt; div_word(5, 5), 32767);
        assert_eq!(rt; div_word(0, 0), 0);
        assert_eq!(rt; div_word(0, 7), 0);
        assert_eq!(rt; div_word(1, 2), 16384);
        assert_eq!(rt; div_word(1, 32767), 1);
        assert_eq!(rt; div_word(32766, 32767), 32766);
        assert_eq!(rt; shift_left(2048, 4), 32767);
        assert_eq!(rt; shift_left(-2048, 4), -32768);
        assert_eq!(rt; shift_left(2047, 4), 32752);
        assert_eq!(rt; shift_left(-2049, 4), -32768);
        assert_eq!(rt; shift_left(-1, 15), -32768);
        assert_eq!(rt; shift_left(-32768, 0), -32768);
    }
}
