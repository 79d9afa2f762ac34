// The choice of the grid: GSM 06.10 section 5.2.14.
ghost use Rattle.std.specs.Prelude.{◌≡◌, ◌≤◌, ◌<◌, ◌+◌, ◌*◌, ◌^◌, ℕ, ◌*ℤ◌, unsigned_abs};
ghost use Rattle.std.specs.Int.{int_shr};
ghost use Rattle.fixed_arith.specs.Signal.{at};
ghost use Rattle.rpe_ltp.specs.Weighting.{grid_power, IsGrid};

/// The grid position (`Mc`, 0 to 3) with the greatest energy of the weighted values of a sub-frame, the first of equal ones, and the thirteen values
/// (`xM`) on it, three places apart (GSM 06.10 section 5.2.14).
pub fn grid_of(x: &[i16; 40]) -> (u8, [i16; 13])
    ensures grid { IsGrid x.now result.0 }
    ensures within { result.0 < 4 }
    ensures values { (i : ℕ) → i < 13 → at result.1 i ≡ at x.now (result.0 + 3 * i) }
{
    let grid = best_grid(x);
    let mut values = [0; 13];
    for i in 0..13 {
        values[i] = x[grid as usize + 3 * i];
    }
    (grid, values)
}

/// The first grid with the greatest energy.
#[inline]
fn best_grid(x: &[i16; 40]) -> u8
    ensures { IsGrid x.now result }
{
    let mut grid = 0u8;
    let mut best = power(x, 0);
    for m in 1u8..4 {
        let sum = power(x, m);
        if sum > best {
            grid = m;
            best = sum;
        }
    }
    grid
}

/// The energy on a grid.
#[inline]
#[tactic(auto, unfolding(crate::specs::Weighting::grid_power))]
fn power(x: &[i16; 40], m: u8) -> i32
    requires { m < 4 }
    ensures { result ≡ grid_power x.now m }
{
    let mut sum = 0i32;
    for i in 0..13 {
        sum += square(x[m as usize + 3 * i]);
    }
    sum
}

/// The square of a quarter of a word.
#[inline]
fn square(x: i16) -> i32
    ensures value { result ≡ int_shr x 2 *ℤ int_shr x 2 }
    ensures small { unsigned_abs result ≤ 2 ^ 26 }
{
    let value = (x >> 2) as i32;
    value * value
}

#[cfg(test)]
mod tests {
    use super::*;

    /// Grid 0 to 3 of a sub-frame that is 0 but on one grid.
    #[test]
    fn values_on_one_grid(rt: HostRuntime) {
        let values = [
            100, -200, 300, -400, 500, -600, 700, -800, 900, -1000, 1100, -1200, 1300,
        ];
        for m in 0..4usize {
            let mut x = [0; 40];
            for i in 0..13 {
                x[m + 3 * i] = values[i];
            }
            let (grid, found) = grid_of(&x);
            assert_eq!(rt; grid as usize, m);
            assert_eq!(rt; found, values, "on grid {m}");
        }
    }

    #[test]
    fn the_first_of_equal_energies(rt: HostRuntime) {
        for value in [0, 1000, -32768, 32767] {
            let (grid, found) = grid_of(&[value; 40]);
            assert_eq!(rt; grid, 0);
            assert_eq!(rt; found, [value; 13]);
        }
    }

    #[test]
    fn the_last_value_stands_on_the_last_grid(rt: HostRuntime) {
        let mut x = [0; 40];
        x[39] = -32768;
        let (grid, found) = grid_of(&x);
        assert_eq!(rt; grid, 3);
        assert_eq!(rt; found, [0, 0, 0, 0, 0, 0, 0, 0, 0, 0, 0, 0, -32768]);
    }

    #[test]
    fn a_quarter_is_rounded_down(rt: HostRuntime) {
        // all quarters are 0 but the one at place 2
        let mut x = [3; 40];
        x[2] = 4;
        x[39] = 0;
        let (grid, found) = grid_of(&x);
        assert_eq!(rt; grid, 2);
        assert_eq!(rt; found, [4, 3, 3, 3, 3, 3, 3, 3, 3, 3, 3, 3, 3]);
    }
}
