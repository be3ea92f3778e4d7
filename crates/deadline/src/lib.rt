// The Deadline: the cycle at which the UART asks to be called. It keeps the earliest, and a call at or after it clears it.
// Carried over from inkemu's ctx.rs and changed: no event is scheduled here.
#![tactic(auto)]

ghost use Rattle.std.specs.Prelude.{◌≡◌};
ghost use Rattle.model.specs.Numbers.{in_cycles};
ghost use Rattle.model.specs.Arm.{armed, called as Arm·called};
ghost use Rattle.deadline.specs.Changes.{armed_at, called_at};

use model::Date;

#[repr(C)]
#[derive(Clone, Copy)]
pub struct Deadline {
    pub due: Date,
}

impl Deadline {
    fn earliest(self, at: u64) -> Deadline
        ensures { result ≡ armed_at self at }
    {
        let due = self.due;
        match due {
            None => Deadline { due: Some(at) },
            Some(cycle) => Deadline {
                due: Some(dates::earlier(cycle, at)),
            },
        }
    }

    fn cleared(self, at: u64) -> Deadline
        ensures { result ≡ called_at self at }
    {
        let due = self.due;
        let none = Deadline { due: None };
        match due {
            None => none,
            Some(cycle) => if cycle <= at { none } else { self },
        }
    }

    // Armed for the cycle `at`.
    pub fn arm(&mut self, at: u64)
        ensures { self.new ≡ armed_at self.old at }
    {
        *self = Deadline::earliest(*self, at);
    }

    // The UART is called at the cycle `at`.
    pub fn called(&mut self, at: u64)
        ensures { self.new ≡ called_at self.old at }
    {
        *self = Deadline::cleared(*self, at);
    }

    // `arm` of a value: what calls this needs no walk.
    fn after_arm(self, at: u64) -> Deadline
        ensures { result ≡ armed_at self at }
    {
        let mut d = self;
        d.arm(at);
        d
    }

    // `called` of a value.
    fn after_call(self, at: u64) -> Deadline
        ensures { result ≡ called_at self at }
    {
        let mut d = self;
        d.called(at);
        d
    }
}

// The date `due` once its Deadline is armed for the subcycle `instant`, if there is one.
pub fn arm(due: Date, instant: Date) -> Date
    ensures { result ≡ armed (in_cycles instant) due }
{
    match instant {
        None => due,
        Some(subcycle) => Deadline { due }.after_arm(dates::cycles(subcycle)).due,
    }
}

// The date `due` once its Deadline is called at the cycle `at`.
pub fn called(due: Date, at: u64) -> Date
    ensures { result ≡ Arm·called at due }
{
    Deadline { due }.after_call(at).due
}
