// The shape of a ring, from its words at the start.
ghost use Rattle.std.specs.Prelude.{◌≡◌};
ghost use Rattle.ring_core.specs.declared.views.Shape.{Shape};
ghost use Rattle.step_table.specs.Packed.{IsOpening};

use ring_core::Shape;

// A slot's word is at least this, and a berth's is less.
const START: u64 = 1 << 32;

// The words of the slots come first, and their number is a power of two.
pub(crate) fn shape_of(words: &[u64], cells: u32) -> Shape
    requires { (k : Shape) × IsOpening k words.now cells }
    ensures { (k : Shape) → IsOpening k words.now cells → result ≡ k }
{
    let mut g = 0u32;
    while words[1usize << g] >= START {
        g += 1;
    }
    Shape {
        filers: cells - (1u32 << g) - 1,
        g,
    }
}
