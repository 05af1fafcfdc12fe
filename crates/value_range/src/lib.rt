// A value's range: two ends, each there or not, at its value or not.
#![tactic(auto)]

ghost use Rattle.std.specs.Prelude.{◌≡◌};
ghost use Rattle.value_range.specs.Ranges.{no_bound, bound_at, unbounded_range, takes_lower, takes_upper, tighten_lower, tighten_upper, empty_range};

// One end of a range. That it is a float with flags, and no Option, is a rule of the project.
#[derive(Clone, Copy)]
pub struct Bound {
    pub value: f64,
    pub present: bool,
    pub inclusive: bool,
}

#[derive(Clone, Copy)]
pub struct ValueRange {
    pub lower: Bound,
    pub upper: Bound,
}

impl Bound {
    pub fn none() -> Self
        ensures { result ≡ no_bound }
    {
        Bound {
            value: 0.0,
            present: false,
            inclusive: false,
        }
    }

    pub fn at(value: f64, inclusive: bool) -> Self
        ensures { result ≡ bound_at value inclusive }
    {
        Bound {
            value,
            present: true,
            inclusive,
        }
    }

    // Whether a lower bound at the value says more than this one. Lower and upper are two functions each, under the names of the Rust: one with the
    // end as a parameter would be no plainer.
    pub fn takes_lower(self, value: f64, inclusive: bool) -> bool
        ensures { result ≡ takes_lower self value inclusive }
    {
        !self.present || value > self.value || (value == self.value && self.inclusive && !inclusive)
    }

    // Whether an upper bound at the value says more than this one.
    pub fn takes_upper(self, value: f64, inclusive: bool) -> bool
        ensures { result ≡ takes_upper self value inclusive }
    {
        !self.present || value < self.value || (value == self.value && self.inclusive && !inclusive)
    }
}

impl ValueRange {
    // A range without bounds, which every number lies in.
    pub fn unbounded() -> Self
        ensures { result ≡ unbounded_range }
    {
        ValueRange {
            lower: Bound::none(),
            upper: Bound::none(),
        }
    }

    pub fn tighten_lower(self, value: f64, inclusive: bool) -> Self
        ensures { result ≡ tighten_lower self value inclusive }
    {
        if self.lower.takes_lower(value, inclusive) {
            ValueRange {
                lower: Bound::at(value, inclusive),
                ..self
            }
        } else {
            self
        }
    }

    pub fn tighten_upper(self, value: f64, inclusive: bool) -> Self
        ensures { result ≡ tighten_upper self value inclusive }
    {
        if self.upper.takes_upper(value, inclusive) {
            ValueRange {
                upper: Bound::at(value, inclusive),
                ..self
            }
        } else {
            self
        }
    }

    pub fn is_empty(self) -> bool
        ensures { result ≡ empty_range self }
    {
        let ValueRange { lower, upper } = self;
        lower.present
            && upper.present
            && (lower.value > upper.value
                || (lower.value == upper.value && !(lower.inclusive && upper.inclusive)))
    }
}
