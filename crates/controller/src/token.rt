ghost use Rattle.std.specs.Prelude.{◌≡◌, true, false};

// What open gives, good or void. It must be handed to close, which spends it: a program that lets
// one lapse is refused at its build.
pub struct BatchToken {
    // A flag, not an Option of a token: a refused open hands out a void one, to be handed in as well.
    good: bool,
    // A flag, since a drop cannot ask that close was called, only that this is set.
    spent: bool,
}

// By hand, a rule of the project: a derived drop would ask for nothing.
impl Drop for BatchToken {
    fn drop(self)
        requires { self.spent ≡ true }
    {
        let BatchToken { good: _, spent: _ } = self;
    }
}

impl BatchToken {
    pub(crate) fn fresh(good: bool) -> BatchToken
        ensures { result.good ≡ good }
    {
        BatchToken { good, spent: false }
    }

    // Whether it was good.
    pub(crate) fn spend(mut self) -> bool
        ensures { result ≡ self.good }
    {
        let good = self.good;
        self.spent = true;
        good
    }
}
