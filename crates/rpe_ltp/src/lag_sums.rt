// The cross-correlations of a sub-frame with the values that each lag reaches: GSM 06.10 section 5.2.11.
ghost use Rattle.std.specs.Prelude.{◌≡◌, ◌≤◌, ◌+◌, ◌<◌, ◌^◌, ℕ, pos, ◌+ℤ◌, ◌*ℤ◌, unsigned_abs, length};
ghost use Rattle.fixed_arith.specs.Signal.{at};
ghost use Rattle.rpe_ltp.specs.LagSearch.{sum_by_place};

use std::simd::prelude::*;

/// The product of a value that is scaled down and a word.
#[inline]
fn product(w: i32, x: i32) -> i32
    requires scaled { unsigned_abs w ≤ 2 ^ 9 }
    requires word { unsigned_abs x ≤ 2 ^ 15 }
    ensures { result ≡ w *ℤ x }
{
    w * x
}

/// The sum with the values from one place on.
#[inline]
#[tactic(auto, unfolding(crate::specs::LagSearch::sum_by_place))]
fn sum_at(ws: &[i32; 40], kept: &[i32; 120], i: usize) -> i32
    requires near { i ≤ 80 }
    requires scaled { (k : ℕ) → unsigned_abs (at ws.now k) ≤ 2 ^ 9 }
    requires words { (k : ℕ) → unsigned_abs (at kept.now k) ≤ 2 ^ 15 }
    ensures { result ≡ sum_by_place ws.now kept.now i }
{
    let mut sum = 0i32;
    for k in 0..40 {
        sum += product(ws[k], kept[i + k]);
    }
    sum
}

/// The sums with the values from each place on, one after another: that of lag 120 first, that of lag 40 last.
#[inline]
pub(crate) fn plain_sums(ws: &[i32; 40], kept: &[i32; 120]) -> [i32; 81]
    requires scaled { (k : ℕ) → unsigned_abs (at ws.now k) ≤ 2 ^ 9 }
    requires words { (k : ℕ) → unsigned_abs (at kept.now k) ≤ 2 ^ 15 }
    ensures { (i : ℕ) → i < 81 → at result i ≡ sum_by_place ws.now kept.now i }
{
    let mut sums = [0; 81];
    for i in 0..81 {
        sums[i] = sum_at(ws, kept, i);
    }
    sums
}

/// Adds to each of eight lanes the product of a value and the word of that lane, of eight words from one place on.
#[inline]
fn add_products(sums: i32x8, w: i32, kept: &[i32], place: usize) -> i32x8
    requires lanes { length sums ≡ 8 }
    requires room { place + 8 ≤ length kept.now }
    requires small { (j : ℕ) → j < 8 → unsigned_abs (at sums j) < 2 ^ 30 }
    requires scaled { unsigned_abs w ≤ 2 ^ 9 }
    requires words { (j : ℕ) → j < 8 → unsigned_abs (at kept.now (place + j)) ≤ 2 ^ 15 }
    ensures lanes { length result ≡ 8 }
    ensures each { (j : ℕ) → j < 8 → at result j ≡ at sums j +ℤ w *ℤ at kept.now (place + j) }
{
    sums + i32x8::splat(w) * i32x8::from_slice(&kept[place..])
}

/// The sums with the values from each of eight places on.
#[inline]
fn eight_sums(ws: &[i32; 40], kept: &[i32; 120], start: usize) -> [i32; 8]
    requires near { start ≤ 73 }
    requires scaled { (k : ℕ) → unsigned_abs (at ws.now k) ≤ 2 ^ 9 }
    requires words { (k : ℕ) → unsigned_abs (at kept.now k) ≤ 2 ^ 15 }
    ensures { (j : ℕ) → j < 8 → at result j ≡ sum_by_place ws.now kept.now (start + j) }
{
    let mut sums = i32x8::splat(0);
    for k in 0..40 {
        sums = add_products(sums, ws[k], kept, start + k);
    }
    sums.to_array()
}

/// The sums with the values from each place on, that of lag 120 first: this one by itself, and those of lags 119 to 40 in ten groups of eight lanes.
#[inline]
pub(crate) fn lag_sums(ws: &[i32; 40], kept: &[i32; 120]) -> [i32; 81]
    requires scaled { (k : ℕ) → unsigned_abs (at ws.now k) ≤ 2 ^ 9 }
    requires words { (k : ℕ) → unsigned_abs (at kept.now k) ≤ 2 ^ 15 }
    ensures { (i : ℕ) → i < 81 → at result i ≡ sum_by_place ws.now kept.now i }
{
    let mut sums = [0; 81];
    sums[0] = sum_at(ws, kept, 0);
    for group in 0..10 {
        let lanes = eight_sums(ws, kept, 1 + 8 * group);
        for j in 0..8 {
            sums[1 + 8 * group + j] = lanes[j];
        }
    }
    sums
}
