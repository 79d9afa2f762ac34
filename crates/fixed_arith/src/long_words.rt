// 32-bit long words: GSM 06.10 section 5.1.
ghost use Rattle.std.specs.Prelude.{◌≡◌, ◌≤◌, pos, ◌<ℤ◌, unsigned_abs};
ghost use Rattle.fixed_arith.specs.Word.{clip_long, add_longs, sub_longs, norm_of, IsNorm};

/// The sum, limited to 32 bits (`L_add`).
#[inline]
#[tactic(auto, unfolding(crate::specs::Word::clip_long, crate::specs::Word::add_longs))]
pub fn long_add(a: i32, b: i32) -> i32
    ensures { result ≡ add_longs a b }
{
    a.saturating_add(b)
}

/// The difference, limited to 32 bits (`L_sub`).
#[inline]
#[tactic(auto, unfolding(crate::specs::Word::clip_long, crate::specs::Word::sub_longs))]
pub fn long_sub(a: i32, b: i32) -> i32
    ensures { result ≡ sub_longs a b }
{
    a.saturating_sub(b)
}

/// The number of left shifts that bring the value to at least 2^30 and below 2^31 (`norm`).
#[inline]
#[tactic(auto, unfolding(crate::specs::Word::norm_of))]
pub fn norm_long(a: i32) -> u32
    requires { pos 0 <ℤ a }
    ensures value { result ≡ norm_of (unsigned_abs a) }
    ensures normal { IsNorm (unsigned_abs a) result }
    ensures most { result ≤ 30 }
{
    a.leading_zeros() - 1
}

#[cfg(test)]
mod tests {
    use super::*;

    #[test]
    fn long_words_by_table(rt: HostRuntime) {
        // a, b, the sum, the difference
        for (a, b, sum, difference) in [
            (2147483647, 1, 2147483647, 2147483646),
            (-2147483648, -1, -2147483648, -2147483647),
            (-2147483648, 1, -2147483647, -2147483648),
            (0, -2147483648, -2147483648, 2147483647),
            (-3, 5, 2, -8),
        ] {
            assert_eq!(rt; long_add(a, b), sum, "long_add({a}, {b})");
            assert_eq!(rt; long_sub(a, b), difference, "long_sub({a}, {b})");
        }
        assert_eq!(rt; norm_long(1), 30);
        assert_eq!(rt; norm_long(2), 29);
        assert_eq!(rt; norm_long(32768), 15);
        assert_eq!(rt; norm_long(1073741823), 1);
        assert_eq!(rt; norm_long(1073741824), 0);
        assert_eq!(rt; norm_long(2147483647), 0);
    }
}
