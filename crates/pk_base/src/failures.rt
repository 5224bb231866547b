// Which calls of an object in memory are to fail, and how many faults it has answered.
ghost use Rattle.std.specs.Prelude.{◌≡◌, true, List, ℕ};
ghost use Rattle.pk_base.specs.Causes.{Counts};
ghost use Rattle.pk_base.specs.Schedules.{Schedule, failing_at, is_due, with_call};

use crate::Failed;

/// An object in memory whose calls fail where the list of numbers that it was given says so.
pub trait FailsByNumber {
    /// The numbers of the calls that are to fail, and how many calls were made.
    ghost schedule: { Self → Schedule };

    /// Whether the next call is to fail.
    fn is_next_due(&self) -> bool
        ensures { result ≡ is_due (schedule self.now) };
}

/// Calls are numbered from 0. Those whose numbers stand in `numbers` are to fail.
#[derive(Drop)]
pub struct Failures {
    numbers: Vec<u64>,
    made: u64,
    pub count: u64,
}

impl FailsByNumber for Failures {
    ghost schedule = { λ f. record { fails = f.numbers.items; made = f.made } };

    fn is_next_due(&self) -> bool {
        self.numbers.contains(&self.made)
    }
}

impl Failures {
    pub fn at(numbers: Vec<u64>) -> Self
        ensures schedule { ⟦<Failures as FailsByNumber>⟧.schedule result ≡ failing_at numbers.items }
        ensures count { result.count ≡ 0 }
    {
        Failures {
            numbers,
            made: 0,
            count: 0,
        }
    }

    /// Counts a call, and says whether it is to fail.
    pub fn count_call(&mut self) -> bool
        ensures due { result ≡ is_due (⟦<Failures as FailsByNumber>⟧.schedule self.old) }
        ensures schedule { ⟦<Failures as FailsByNumber>⟧.schedule self.new ≡ with_call (⟦<Failures as FailsByNumber>⟧.schedule self.old) }
        ensures count { self.new.count ≡ self.old.count }
    {
        let due = self.is_next_due();
        self.made = self.made.saturating_add(1);
        due
    }

    /// Counts a fault. The count ends at its last value.
    pub fn fault(&mut self) -> Failed
        ensures schedule { ⟦<Failures as FailsByNumber>⟧.schedule self.new ≡ ⟦<Failures as FailsByNumber>⟧.schedule self.old }
        ensures count { Counts true self.old.count self.new.count }
    {
        self.count = self.count.saturating_add(1);
        Failed
    }
}
