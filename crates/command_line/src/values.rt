// The values that words write.
ghost use Rattle.std.specs.Prelude.{◌≡◌, ◌≤◌, ◌==◌, IfSome, slice_index};
ghost use Rattle.command_line.specs.Values.{number_in, seed_of};

use hex::FromHex;

fn begins_with_plus(text: &str) -> bool
    ensures { result ≡ (slice_index text.now 0 == 43) }
{
    let bytes = text.as_bytes();
    !bytes.is_empty() && bytes[0] == b'+'
}

/// The number that the text writes in decimal digits and nothing else, where it is in the range.
pub fn read_number(text: &str, low: u64, high: u64) -> Option<u64>
    ensures value { result ≡ number_in low high text.now }
    ensures within { IfSome result (λ n. n ≤ high) }
{
    if begins_with_plus(text) {
        return None;
    }
    match text.parse::<u64>() {
        Ok(number) => {
            if low <= number && number <= high {
                Some(number)
            } else {
                None
            }
        }
        Err(_) => None,
    }
}

/// The 32 octets that the text writes in 64 hexadecimal digits of either case.
pub fn read_seed(text: &str) -> Option<[u8; 32]>
    ensures { result ≡ seed_of text.now }
{
    match <[u8; 32] as FromHex>::from_hex(text) {
        Ok(seed) => Some(seed),
        Err(_) => None,
    }
}
