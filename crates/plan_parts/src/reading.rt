//! What is read of a part of a plan file: a value, or what is wrong with it.
ghost use Rattle.std.specs.Prelude.{◌≡◌, ◌||◌};
ghost use Rattle.plan_parts.specs.Reading.{any_fault, blamed, both, known, paired, IfGood, IsMapped};

/// What is wrong with a part of a plan file. One part may have several faults.
#[derive(Clone, Copy, Debug, PartialEq, Eq)]
pub struct Faults {
    /// A value has another JSON type, a needed key is missing, or an error name is none.
    pub form: bool,
    /// A key or a name isn't known.
    pub name: bool,
    /// A number, a length or a count is outside its limits.
    pub limit: bool,
}

/// Nothing is wrong.
pub const NO_FAULT: Faults = Faults {
    form: false,
    name: false,
    limit: false,
};

/// The form is wrong, and nothing else.
pub const FORM_FAULT: Faults = Faults {
    form: true,
    name: false,
    limit: false,
};

/// A name isn't known, and nothing else is wrong.
pub const NAME_FAULT: Faults = Faults {
    form: false,
    name: true,
    limit: false,
};

/// A limit is passed, and nothing else is wrong.
pub const LIMIT_FAULT: Faults = Faults {
    form: false,
    name: false,
    limit: true,
};

impl Faults {
    /// The faults of both.
    pub fn both(self, other: Faults) -> Faults
        ensures { result ≡ both self other }
    {
        Faults {
            form: either(self.form, other.form),
            name: either(self.name, other.name),
            limit: either(self.limit, other.limit),
        }
    }

    /// Whether anything is wrong.
    pub fn any(self) -> bool
        ensures { result ≡ any_fault self }
    {
        self.form || self.name || self.limit
    }
}

/// Whether one of the two holds.
fn either(first: bool, second: bool) -> bool
    ensures { result ≡ (first || second) }
{
    first || second
}

/// A value that was read, or what is wrong with it.
#[derive(Debug, Drop)]
pub enum Reading<A> {
    Good(A),
    Bad(Faults),
}

impl<A: Drop> Reading<A> {
    /// The reading with these faults beside its own.
    pub fn blamed(self, faults: Faults) -> Reading<A>
        ensures { result ≡ blamed faults self }
    {
        match self {
            Reading::Good(_) => Reading::Bad(faults),
            Reading::Bad(own) => Reading::Bad(faults.both(own)),
        }
    }

    /// What a name stands for. One that isn't known is a fault.
    pub fn known(found: Option<A>) -> Reading<A>
        ensures { result ≡ known found }
    {
        match found {
            Some(value) => Reading::Good(value),
            None => Reading::Bad(NAME_FAULT),
        }
    }

    /// What is made of the value, where one was read. What is wrong stays wrong.
    pub fn map<B, F: FnOnce(A) -> B>(self, f: F) -> Reading<B>
        requires { IfGood self (F.pre f) }
        ensures { IsMapped (F.post f) self result }
    {
        match self {
            Reading::Good(value) => Reading::Good(f(value)),
            Reading::Bad(faults) => Reading::Bad(faults),
        }
    }

    /// Both values, or what is wrong with the two.
    pub fn paired<B: Drop>(self, other: Reading<B>) -> Reading<(A, B)>
        ensures { result ≡ paired self other }
    {
        match self {
            Reading::Good(first) => match other {
                Reading::Good(second) => Reading::Good((first, second)),
                Reading::Bad(faults) => Reading::Bad(faults),
            },
            Reading::Bad(faults) => match other {
                Reading::Good(_) => Reading::Bad(faults),
                Reading::Bad(others) => Reading::Bad(faults.both(others)),
            },
        }
    }
}
