ghost use Rattle.std.specs.Prelude.{◌≡◌, ℕ, ◌<◌, false};
ghost use Rattle.shelf.specs.Models.{Model, reading_at, accepts, committed};

// A shelf of shared objects that nobody locks. A user looks at an object, works on a copy, and
// commits; the commit is accepted only while the object still reads as it did.
pub trait Shelf {
    // What the shelf means: which objects exist, their rules, and their contents.
    ghost model: { Self → Model };

    // Whether the object exists. A commit never changes the answer.
    fn has(&self, object: u32) -> bool
        ensures { result ≡ (model self.now).rules.exists object };

    // The object's reading, or 0 without the object: a plain number, since whoever looks asked
    // `has` before.
    fn look(&self, object: u32) -> u32
        ensures { result ≡ reading_at (model self.now) object };

    // Applies the word by the object's change rule if the object exists and `reading` is its
    // present reading; else changes nothing.
    fn commit(&mut self, object: u32, reading: u32, word: u32) -> bool
        ensures accepted { result ≡ accepts (model self.old) object reading }
        ensures after { model self.new ≡ committed (model self.old) object reading word };

    // Objects have numbers from 0 to 65,535.
    ghost numbered: { (s : Self) (k : ℕ) → 65535 < k → (model s).rules.exists k ≡ false };
}
