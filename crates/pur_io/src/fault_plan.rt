//! The calls of an object in memory that are to fail, and the count of those that failed.

ghost use Rattle.std.specs.Prelude.{◌≡◌};
ghost use Rattle.pur_io.specs.Faults.{one_more, is_failing};

use crate::traits::Failed;

/// The numbers of the calls that are to fail, the number of the last call, counted from 1, and how
/// many calls failed. Both counts stay at 2^64 - 1 once they stand there.
#[derive(Drop)]
pub struct FaultPlan {
    pub failing: Vec<u64>,
    pub number: u64,
    pub faults: u64,
}

impl FaultPlan {
    pub fn new(failing: Vec<u64>) -> Self
        ensures failing { result.failing ≡ failing }
        ensures number { result.number ≡ 0 }
        ensures faults { result.faults ≡ 0 }
    {
        FaultPlan {
            failing,
            number: 0,
            faults: 0,
        }
    }

    /// Begins the next call, and says whether it is to fail.
    pub fn begin(&mut self) -> bool
        ensures fails { result ≡ is_failing self.old.failing.items (one_more self.old.number) }
        ensures number { self.new.number ≡ one_more self.old.number }
        ensures failing { self.new.failing ≡ self.old.failing }
        ensures faults { self.new.faults ≡ self.old.faults }
    {
        self.number = self.number.saturating_add(1);
        self.failing.contains(&self.number)
    }

    /// Counts a fault.
    pub fn fault(&mut self) -> Failed
        ensures faults { self.new.faults ≡ one_more self.old.faults }
        ensures number { self.new.number ≡ self.old.number }
        ensures failing { self.new.failing ≡ self.old.failing }
    {
        self.faults = self.faults.saturating_add(1);
        Failed
    }
}
