// Lamps: document 02's word, A.4, for how a total compares with its bound, below, at or above.
#![tactic(auto)]

ghost use Rattle.std.specs.Prelude.{◌≡◌};
ghost use Rattle.logic.specs.Quantity.{naturals};
ghost use Rattle.logic.specs.Bound as bounds;
ghost use Rattle.lamp.specs.promises.Codes.{lamp_code};

use std::cmp::Ordering;

#[derive(Clone, Copy, Debug, PartialEq, Eq)]
pub enum Lamp {
    Below,
    At,
    Above,
}

// How a number compares with another.
pub fn compared(a: u64, b: u64) -> Lamp
    ensures { result ≡ lamp_code (bounds.compared naturals a b) }
{
    match a.cmp(&b) {
        Ordering::Less => Lamp::Below,
        Ordering::Equal => Lamp::At,
        Ordering::Greater => Lamp::Above,
    }
}
