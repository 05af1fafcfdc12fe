// What is recorded of 128 identities, after the Rust's ConstraintSet: its maps are arrays with an entry for each identity.
// Here stand the types alone. What an operation makes of a set is defined in specs/, what it means for a row is proved in proofs/.
#![tactic(auto)]

ghost use Rattle.std.specs.Prelude.{◌≡◌};
ghost use Rattle.constraint_spec.specs.Sets.{none, no_entry, empty_set};

use scalar::{Kind, ScalarValue};
use value_classes::ValueEquivalenceClasses;
use value_range::ValueRange;

// A literal, where one is present.
#[derive(Clone, Copy)]
pub struct Holder {
    pub present: bool,
    pub value: ScalarValue,
}

// A range, where one is present.
#[derive(Clone, Copy)]
pub struct Entry {
    pub present: bool,
    pub range: ValueRange,
}

// The residual predicates are expression handles, as many as `residuals` says.
// An array for each of the Rust's maps, with an entry for each identity, and a list with its count: that is a rule of the project.
#[derive(Clone, Copy)]
pub struct ConstraintSet {
    pub equivalence_classes: ValueEquivalenceClasses,
    pub non_null_values: [bool; 128],
    pub literal_equalities: [Holder; 128],
    pub ranges: [Entry; 128],
    pub residual_predicates: [u16; 64],
    pub residuals: usize,
    pub contradictory: bool,
}

// Why a set did not take in what it was given: there is no room for another residual.
#[derive(Clone, Copy, PartialEq, Eq)]
pub enum ConstraintError {
    Residuals,
}

impl Holder {
    pub fn empty() -> Self
        ensures { result ≡ none }
    {
        Holder {
            present: false,
            value: ScalarValue::Null(Kind::Boolean),
        }
    }
}

impl Entry {
    pub fn empty() -> Self
        ensures { result ≡ no_entry }
    {
        Entry {
            present: false,
            range: ValueRange::unbounded(),
        }
    }
}

impl ConstraintSet {
    pub const IDENTITIES: usize = 128;

    pub const RESIDUALS: usize = 64;

    #[tactic(auto, unfolding(crate::specs::Sets::empty_set))]
    pub fn empty() -> Self
        ensures { result ≡ empty_set }
    {
        ConstraintSet {
            equivalence_classes: ValueEquivalenceClasses::empty(),
            non_null_values: [false; 128],
            literal_equalities: [Holder::empty(); 128],
            ranges: [Entry::empty(); 128],
            residual_predicates: [0; 64],
            residuals: 0,
            contradictory: false,
        }
    }
}
