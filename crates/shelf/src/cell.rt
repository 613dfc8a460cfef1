ghost use Rattle.std.specs.Prelude.{◌≡◌};
ghost use Rattle.shelf.specs.Cells.{cell_model};
ghost use Rattle.std.proofs.Common.{rules};

use crate::interface::Shelf;

// One number, as object 0. The number is the reading, and a committed word replaces it.
#[derive(Debug, PartialEq, Eq, Default, Drop)]
pub struct Cell {
    value: u32,
}

impl Cell {
    pub fn new(value: u32) -> Cell
        ensures { result.value ≡ value }
    {
        Cell { value }
    }
}

impl Shelf for Cell {
    ghost model = { λ cell. cell_model cell.value };

    ghost numbered = { Prim.search rules };

    fn has(&self, object: u32) -> bool {
        object == 0
    }

    fn look(&self, object: u32) -> u32 {
        if object == 0 { self.value } else { 0 }
    }

    fn commit(&mut self, object: u32, reading: u32, word: u32) -> bool {
        if object == 0 && reading == self.value {
            self.value = word;
            return true;
        }
        false
    }
}
