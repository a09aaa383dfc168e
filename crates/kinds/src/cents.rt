ghost use Rattle.kinds.specs.Cents.{cents};
ghost use Rattle.kinds.specs.CentsLaws.{cents_lawful};

use crate::count::Count;
use crate::kind::Kind;

// The greatest number of cents: 10^15.
pub const LIMIT: i64 = 1_000_000_000_000_000;

// Whole cents.
impl Kind for i64 {
    ghost means = { cents };

    ghost lawful = { cents_lawful };

    fn is_number(self) -> bool {
        (-LIMIT..=LIMIT).contains(&self)
    }

    fn is_infinite(self) -> bool {
        false
    }

    fn zero() -> i64 {
        0
    }

    // i64::MIN has no sign turn in an i64, and stays.
    fn turned(self) -> i64 {
        self.checked_neg().unwrap_or(self)
    }

    fn at_most(self, other: i64) -> bool {
        self <= other
    }

    fn greater(self, other: i64) -> bool {
        self > other
    }

    // A sum of 4,096 numbers fits. One that would not stops at the end of the i64.
    fn plus(self, other: i64) -> i64 {
        self.saturating_add(other)
    }

    // The fraction is dropped.
    fn over(self, count: Count) -> i64 {
        self / i64::from(count.get())
    }
}
