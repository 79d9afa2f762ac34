// Samples, compared with what is heard.
ghost use Rattle.std.specs.Prelude.{◌↔◌, IsTrue};
ghost use Rattle.substitution.specs.Heard.{IsHeard};

use crate::laws::heard_is_one;
use frame_codec::Item;
use substitution::Voice;

/// Whether these samples, of 16 bits at 8 kHz, are what a voice of this seed plays of the items: 160 for each, and none
/// after them. It takes no memory.
pub fn is_heard(seed: [u8; 32], items: &[Item], samples: &[i16]) -> bool
    ensures { IsTrue result ↔ IsHeard seed items.now samples.now }
{
    // Other samples than those that the voice plays are not heard.
    heard_is_one();
    let mut voice = Voice::new(seed);
    let mut speech = [0; 160];
    let mut left = samples;
    let mut same = true;
    'play: for item in items {
        voice.play(*item, &mut speech);
        match left.strip_prefix(&speech) {
            Some(rest) => left = rest,
            None => same = false,
        }
    }
    same && left.is_empty()
}

#[cfg(test)]
mod tests {
    use super::*;
    use std::alloc::{AllocError, Global};
    use std::test::Fail;

    const SEED: [u8; 32] = [7; 32];

    // 160 samples of silence but for the first, and the speech of an Erasure.
    fn samples(alloc: Global, first: i16) -> Result<Vec<i16>, AllocError> {
        let mut speech = [0; 160];
        Voice::new(SEED).play(Item::Erasure, &mut speech);
        let mut samples = Vec::new(alloc);
        samples.push(first)?;
        samples.extend_from_slice(&[0; 159])?;
        samples.extend_from_slice(&speech)?;
        Ok(samples)
    }

    fn are_heard(items: &[Item], samples: &Vec<i16>) -> bool {
        is_heard(SEED, items, samples)
    }

    #[test]
    fn heard_samples_are_told_from_others(rt: HostRuntime) -> Result<(), Fail> {
        let items = [Item::Idle, Item::Erasure];
        let mut heard = samples(rt.alloc(), 0)?;
        assert!(rt; are_heard(&items, &heard));
        assert!(rt; !are_heard(&items, &samples(rt.alloc(), 1)?));
        assert!(rt; !are_heard(&[Item::Idle, Item::Idle], &heard));
        assert!(rt; !are_heard(&[Item::Idle], &heard));
        heard.push(0)?;
        assert!(rt; !are_heard(&items, &heard));
        heard.truncate(319);
        assert!(rt; !are_heard(&items, &heard));
        Ok(())
    }
}
