//! How often an adapter has failed.
ghost use Rattle.std.specs.Prelude.{◌≡◌, ◌≤◌};
ghost use Rattle.exec_io.specs.Causes.{Rose};

/// A count of faults, which stands still at the last value of its type.
#[derive(Drop)]
pub struct Faults {
    count: u64,
}

impl Faults {
    pub fn none() -> Self
        ensures { result.count ≡ 0 }
    {
        Faults { count: 0 }
    }

    pub fn rise(&mut self)
        ensures later { self.old.count ≤ self.new.count }
        ensures rose { Rose self.old.count self.new.count }
    {
        self.count = self.count.saturating_add(1);
    }
}
