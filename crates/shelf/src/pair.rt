ghost use Rattle.std.specs.Prelude.{◌≡◌, cond, nat_le, Some, None};
ghost use Rattle.shelf.specs.Pairs.{of_side, pair_model};
ghost use Rattle.shelf.specs.declared.pair.Side.TheVariants.{First, Second};
ghost use Rattle.std.proofs.Common.{rules};

use crate::interface::Shelf;

// The highest number of an object.
const LAST_OBJECT: u32 = 65535;

// Two shelves side by side: 2k names object k of the first, 2k + 1 object k of the second.
#[derive(Debug, PartialEq, Eq, Default, Drop)]
pub struct Pair<A, B> {
    first: A,
    second: B,
}

// The object that a number names: which shelf's, and its number there.
#[derive(Debug, Clone, Copy, PartialEq, Eq)]
enum Side {
    First(u32),
    Second(u32),
}

fn side_of(object: u32) -> Option<Side>
    ensures { result ≡ cond (nat_le object 65535) (Some (of_side object First Second)) None }
{
    if object > LAST_OBJECT {
        return None;
    }
    let number = object / 2;
    Some(if object % 2 == 0 {
        Side::First(number)
    } else {
        Side::Second(number)
    })
}

impl<A: Shelf, B: Shelf> Pair<A, B> {
    pub fn new(first: A, second: B) -> Pair<A, B>
        ensures { result ≡ record { first = first; second = second } }
    {
        Pair { first, second }
    }
}

impl<A: Shelf, B: Shelf> Shelf for Pair<A, B> {
    ghost model = { λ pair. pair_model (A.Shelf.model pair.first) (B.Shelf.model pair.second) };

    ghost numbered = { Prim.search rules };

    fn has(&self, object: u32) -> bool {
        match side_of(object) {
            None => false,
            Some(Side::First(number)) => self.first.has(number),
            Some(Side::Second(number)) => self.second.has(number),
        }
    }

    fn look(&self, object: u32) -> u32 {
        match side_of(object) {
            None => 0,
            Some(Side::First(number)) => self.first.look(number),
            Some(Side::Second(number)) => self.second.look(number),
        }
    }

    fn commit(&mut self, object: u32, reading: u32, word: u32) -> bool {
        match side_of(object) {
            None => false,
            Some(Side::First(number)) => self.first.commit(number, reading, word),
            Some(Side::Second(number)) => self.second.commit(number, reading, word),
        }
    }
}
