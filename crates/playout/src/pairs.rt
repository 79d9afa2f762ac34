// A sorted list of numbers with frames.
ghost use Rattle.std.specs.Prelude.{◌≡◌, ◌≤◌, ◌<◌, ◌∷◌, length, IfOk, IfErr, MatchOption};
ghost use Rattle.std.specs.Vec.{vec_capacity};
ghost use Rattle.playout.specs.Pairs.{IsAt, IsGapFor, Pairs, Rises, key_at};

use frame_codec::Frame33;

/// Where the number stands, or where it would go.
pub fn place_of(pairs: &[(u64, Frame33)], number: u64) -> Result<usize, usize>
    requires { Rises pairs.now }
    ensures found { IfOk result (IsAt pairs.now number) }
    ensures absent { IfErr result (IsGapFor pairs.now number) }
{
    pairs.binary_search_by_key(&number, |pair| pair.0)
}

/// The frame of the first pair where that has the number.
pub fn front_of(pairs: &[(u64, Frame33)], number: u64) -> Option<Frame33>
    requires { 0 < length pairs.now → number ≤ key_at pairs.now 0 }
    ensures { MatchOption result
        (0 < length pairs.now → number < key_at pairs.now 0)
        (λ frame. (rest : Pairs) × (pairs.now ≡ (number, frame) ∷ rest)) }
{
    if pairs.is_empty() {
        return None;
    }
    if pairs[0].0 != number {
        return None;
    }
    Some(pairs[0].1)
}

/// Takes the first pair away where it has the number.
pub fn take_front(pairs: &mut Vec<(u64, Frame33)>, number: u64) -> Option<Frame33>
    requires { 0 < length pairs.old.items → number ≤ key_at pairs.old.items 0 }
    ensures pairs { MatchOption result
        ((pairs.new.items ≡ pairs.old.items) × (0 < length pairs.old.items → number < key_at pairs.old.items 0))
        (λ frame. pairs.old.items ≡ (number, frame) ∷ pairs.new.items) }
    ensures capacity { vec_capacity pairs.new ≡ vec_capacity pairs.old }
{
    if pairs.is_empty() || pairs[0].0 != number {
        return None;
    }
    let (_, frame) = pairs.remove(0);
    Some(frame)
}
