// The evaluation counter, and the outcome of a charge to it.
#![tactic(auto)]

ghost use Rattle.std.specs.Prelude.{◌≡◌, replicate};
ghost use Rattle.charging.specs.Charge.{Charge, one, charge, spend};

// How many evaluations have been charged. Port of `evaluations: &mut u64` (conditional.rs), held by value.
#[derive(Clone, Copy)]
pub struct Counter {
    pub count: u64,
}

// A refused charge, with the counter that it leaves.
#[derive(Clone, Copy)]
pub enum ChargeError {
    // Refusal 7, with the count that was compared with the limit.
    LimitExceeded(Counter, u64),
    // Refusal 8.
    CoordinateOverflow(Counter),
}

// The outcome of a charge: the raised counter, where it is accepted.
pub type Charged = Result<Counter, ChargeError>;

impl Counter {
    // Port of bump_conditional_evaluations (conditional.rs): the raised counter is stored, then compared with the limit.
    pub fn charge_one(self, limit: u64) -> Charged
        ensures { result ≡ charge limit self.count one }
    {
        let Some(raised) = self.count.checked_add(1) else {
            return Err(ChargeError::CoordinateOverflow(self));
        };
        if limit < raised {
            return Err(ChargeError::LimitExceeded(Counter { count: raised }, raised));
        }
        Ok(Counter { count: raised })
    }

    // Port of the area charge of conditional_value_keys (conditional.rs): stored only if accepted.
    pub fn charge_area(self, area: u64, limit: u64) -> Charged
        ensures { result ≡ charge limit self.count (Charge.area area) }
    {
        let Some(actual) = self.count.checked_add(area) else {
            return Err(ChargeError::CoordinateOverflow(self));
        };
        if limit < actual {
            return Err(ChargeError::LimitExceeded(self, actual));
        }
        Ok(Counter { count: actual })
    }

    // So many evaluations, one after the other. Up to the limit they are accepted at once.
    pub fn charge_times(self, times: u64, limit: u64) -> Charged
        ensures { result ≡ spend limit self.count (replicate times one) }
    {
        let count = self.count;
        let none = times == 0;
        if none {
            return Ok(self);
        }
        if limit <= count {
            return self.charge_one(limit);
        }
        if times <= limit - count {
            return Ok(Counter {
                count: count + times,
            });
        }
        Counter { count: limit }.charge_one(limit)
    }
}
