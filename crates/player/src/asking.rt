// What a beat asks of its side.
ghost use Rattle.std.specs.Prelude.{◌≡◌, ◌⊎◌, ◌<◌, ◌≤◌, ◌+◌, ◌^◌, length};
ghost use Rattle.std.specs.List.{AllByRecursion};
ghost use Rattle.playout.specs.History.{Chained, moves};
ghost use Rattle.player.specs.Beats.{CanBeTold, GivesOne, HoldsOrTicks, IsBeat, IsTurn, LooksAndTicks, held_after};
ghost use Rattle.player.specs.Parts.{Asks, LeavesOut, Retires, Ticks};

use crate::calls::BeatCalls;
use playout::{Call, PlayerSide};

/// Asks the side for one beat. As long as no base was seen and no tick made, it looks for a base, and is over without one.
/// Then it ticks; but where the player may hold up to `elastic` numbers and holds fewer (`held`), it lets the beat pass if no
/// frame waits for the next number, and where it holds as many, it leaves out a number for which no frame came if one waits
/// for the number after it.
pub fn ask<S: PlayerSide>(elastic: u32, held: u32, opened: bool, side: &mut S) -> BeatCalls
    requires few { held ≤ elastic }
    requires slots { (elastic ≡ 0) ⊎ (1 ≤ S.g side.old) }
    requires position { S.position side.old + 1 < 2 ^ 33 }
    ensures asks { IsBeat elastic held opened result }
    ensures one { GivesOne result }
    ensures told { AllByRecursion (CanBeTold (S.g side.old)) result }
    ensures side { Chained S.did side.old result side.new }
    ensures position { S.position side.new ≡ S.position side.old + moves result }
    ensures slots { S.g side.new ≡ S.g side.old }
    ensures few { held_after held result ≤ elastic }
    ensures goes_on { moves result + held_after held result ≤ held + 1 }
{
    let mut calls = BeatCalls::new();
    take_beat(elastic, held, opened, side, &mut calls);
    calls
}

// The calls of a beat.
fn take_beat<S: PlayerSide>(
    elastic: u32,
    held: u32,
    opened: bool,
    side: &mut S,
    calls: &mut BeatCalls,
)
    requires few { held ≤ elastic }
    requires slots { (elastic ≡ 0) ⊎ (1 ≤ S.g side.old) }
    requires position { S.position side.old + 1 < 2 ^ 33 }
    requires room { length calls.old ≡ 0 }
    ensures { Asks S.PlayerSide (IsBeat elastic held opened) side.old side.new calls.old calls.new }
{
    if opened {
        take_turn(elastic, held, side, calls);
        return;
    }
    let base = side.peek();
    calls.push(Call::PeekCall { held: base });
    if base.is_some() {
        take_turn(elastic, held, side, calls);
    }
}

// The calls of a beat once a base was seen.
fn take_turn<S: PlayerSide>(elastic: u32, held: u32, side: &mut S, calls: &mut BeatCalls)
    requires few { held ≤ elastic }
    requires slots { (elastic ≡ 0) ⊎ (1 ≤ S.g side.old) }
    requires position { S.position side.old + 1 < 2 ^ 33 }
    requires room { length calls.old ≤ 1 }
    ensures { Asks S.PlayerSide (IsTurn elastic held) side.old side.new calls.old calls.new }
{
    if elastic == 0 {
        tick(side, calls);
        return;
    }
    if held < elastic {
        hold_or_tick(side, calls);
        return;
    }
    look_and_tick(side, calls);
}

// Lets the beat pass if no frame waits for the next number, and else ticks.
fn hold_or_tick<S: PlayerSide>(side: &mut S, calls: &mut BeatCalls)
    requires position { S.position side.old < 2 ^ 33 }
    requires room { length calls.old ≤ 3 }
    ensures { Asks S.PlayerSide HoldsOrTicks side.old side.new calls.old calls.new }
{
    let held = side.hold();
    calls.push(Call::HoldCall { held });
    if !held {
        tick(side, calls);
    }
}

// Ticks, and leaves out the next number first where no frame came for it and one waits for the number after it.
fn look_and_tick<S: PlayerSide>(side: &mut S, calls: &mut BeatCalls)
    requires slots { 1 ≤ S.g side.old }
    requires position { S.position side.old + 1 < 2 ^ 33 }
    requires room { length calls.old ≤ 1 }
    ensures { Asks S.PlayerSide LooksAndTicks side.old side.new calls.old calls.new }
{
    leave_out(side, calls);
    tick(side, calls);
}

// Leaves out the next number where no frame came for it and one waits for the number after it.
fn leave_out<S: PlayerSide>(side: &mut S, calls: &mut BeatCalls)
    requires slots { 1 ≤ S.g side.old }
    requires position { S.position side.old < 2 ^ 33 }
    requires room { length calls.old ≤ 2 }
    ensures asks { Asks S.PlayerSide LeavesOut side.old side.new calls.old calls.new }
    ensures few { length calls.new ≤ length calls.old + 3 }
    ensures position { S.position side.new ≤ S.position side.old + 1 }
{
    let next = side.look(0);
    calls.push(Call::LookCall {
        ahead: 0,
        filled: next,
    });
    if next {
        return;
    }
    let after = side.look(1);
    calls.push(Call::LookCall {
        ahead: 1,
        filled: after,
    });
    if after {
        retire(side, calls);
    }
}

// Takes the item of the next number, and leaves it unplayed.
fn retire<S: PlayerSide>(side: &mut S, calls: &mut BeatCalls)
    requires position { S.position side.old < 2 ^ 33 }
    requires room { length calls.old < 5 }
    ensures asks { Asks S.PlayerSide Retires side.old side.new calls.old calls.new }
    ensures one { length calls.new ≡ length calls.old + 1 }
    ensures goes_on { S.position side.new ≡ S.position side.old + 1 }
{
    let item = side.retire();
    calls.push(Call::RetireCall { item });
}

// Takes the item of the next number.
fn tick<S: PlayerSide>(side: &mut S, calls: &mut BeatCalls)
    requires position { S.position side.old < 2 ^ 33 }
    requires room { length calls.old < 5 }
    ensures { Asks S.PlayerSide Ticks side.old side.new calls.old calls.new }
{
    let item = side.tick();
    calls.push(Call::TickCall { item });
}
