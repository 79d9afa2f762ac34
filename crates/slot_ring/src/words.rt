// Words as numbers: a slot's has bit 63 filled, bits 48 to 62 the cell, bits 0 to 47 the number; a berth's is four times the cell and
// the state; a held value's is 0 for none, else 2^32 and the value.
ghost use Rattle.std.specs.Prelude.{◌≡◌, ℕ, ◌<◌, ◌/◌, ◌%◌, Some};
ghost use Rattle.ring_core.specs.declared.words.SlotWord.{SlotWord};
ghost use Rattle.ring_core.specs.declared.words.Berth.TheVariants.{Fresh, Home};
ghost use Rattle.playout.specs.Machine.{held_or};
ghost use Rattle.ring_core.specs.Ring.{word_of};
ghost use Rattle.ring_core.specs.Core.{held_in};
ghost use Rattle.ring_core.specs.Steps.{free_word, full_word};
ghost use Rattle.step_table.specs.Packed.{pack_slot, pack_berth, Fits};
ghost use Rattle.step_table.specs.Kinds.{IsHeldWord, word_read};

pub(crate) const NUMBERS: u64 = 1 << 48;

pub(crate) const CELLS: u64 = 1 << 15;

pub(crate) const FILLED: u64 = 1 << 63;

// The first tick's number; and what a word of a held value has above it.
pub(crate) const START: u64 = 1 << 32;

// A berth whose caller has its cell.
pub(crate) const OUT: u64 = 1;

pub(crate) fn number_of(word: u64) -> u64
    ensures { (w : SlotWord) → word ≡ pack_slot w → Fits w → result ≡ w.number }
{
    word % NUMBERS
}

pub(crate) fn cell_of(word: u64) -> u32
    ensures value { result ≡ word / 281474976710656 % 32768 }
    ensures slot { (w : SlotWord) → word ≡ pack_slot w → Fits w → result ≡ w.cell }
{
    (word / NUMBERS % CELLS) as u32
}

pub(crate) fn is_filled(word: u64) -> bool
    ensures { (w : SlotWord) → word ≡ pack_slot w → Fits w → result ≡ w.filled }
{
    word >= FILLED
}

pub(crate) fn free(number: u64, cell: u32) -> u64
    requires { Fits (free_word number cell) }
    ensures { result ≡ pack_slot (free_word number cell) }
{
    u64::from(cell) * NUMBERS + number
}

pub(crate) fn full(number: u64, cell: u32) -> u64
    requires { Fits (full_word number cell) }
    ensures { result ≡ pack_slot (full_word number cell) }
{
    FILLED + u64::from(cell) * NUMBERS + number
}

// The cell that the word of a fresh berth names.
pub(crate) fn fresh_cell(word: u64) -> u32
    ensures { (cell : ℕ) → word ≡ pack_berth (Fresh cell) → cell < 32768 → result ≡ cell }
{
    (word / 4 % CELLS) as u32
}

// The word of a berth whose caller left this cell behind.
pub(crate) fn home(cell: u32) -> u64
    ensures { result ≡ pack_berth (Home cell) }
{
    4 * u64::from(cell) + 2
}

// The word of a held value.
pub(crate) fn held(value: u32) -> u64
    ensures { result ≡ word_of (Some value) }
{
    START + u64::from(value)
}

// The value that a word holds.
pub(crate) fn value_in(word: u64) -> Option<u32>
    ensures { IsHeldWord word → result ≡ held_in word }
{
    if word == 0 {
        return None;
    }
    Some((word % START) as u32)
}

// The value that is held where this one was said.
pub(crate) fn value_or(word: u64, said: u32) -> u32
    ensures { IsHeldWord word → result ≡ held_or (held_in word) said }
{
    match value_in(word) {
        Some(value) => value,
        None => said,
    }
}

// The word that an exchange read.
pub(crate) fn read(answer: Result<u64, u64>) -> u64
    ensures { result ≡ word_read answer }
{
    match answer {
        Ok(word) => word,
        Err(word) => word,
    }
}
