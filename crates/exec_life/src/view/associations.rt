//! A hand's associations with the scope: made, in the making, and being refused (P3149).
ghost use Rattle.std.specs.Prelude.{◌≡◌, ◌<◌, ◌^◌, ◌-◌, ◌+◌};
ghost use Rattle.exec_life.specs.ViewWrites.{with_one, without_one};

use super::View;

impl View {
    /// How many associations are made.
    pub(crate) fn made(&self) -> u32
        ensures { result ≡ self.now.made }
    {
        self.made
    }

    /// How many associations are in the making.
    pub(crate) fn making(&self) -> u32
        ensures { result ≡ self.now.making }
    {
        self.making
    }

    /// How many associations are being refused.
    pub(crate) fn refused(&self) -> u32
        ensures { result ≡ self.now.refused }
    {
        self.refused
    }

    /// An association is entered: it is being refused, made, or in the making.
    pub(crate) fn add_association(&mut self, refused: bool, used: bool)
        requires { self.old.made + self.old.making + self.old.refused < 2 ^ 32 - 1 }
        ensures { self.new ≡ with_one refused used self.old }
    {
        if refused {
            self.refused += 1;
        } else if used {
            self.made += 1;
        } else {
            self.making += 1;
        }
    }

    /// An association in the making is made.
    pub(crate) fn finish_making(&mut self)
        requires { self.old.made < 2 ^ 32 - 1 }
        ensures { let v = self.old in
            self.new ≡ record v { making = v.making - 1; made = v.made + 1 } }
    {
        self.making = self.making.saturating_sub(1);
        self.made += 1;
    }

    /// An association is gone: one that is being refused goes first.
    pub(crate) fn drop_association(&mut self)
        ensures { self.new ≡ without_one self.old }
    {
        if self.refused >= 1 {
            self.refused -= 1;
        } else {
            self.made = self.made.saturating_sub(1);
        }
    }
}
