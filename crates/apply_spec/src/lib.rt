// What is known of an operator's rows, after the Rust's LogicalFacts. Here stand the types alone: what applying a predicate and merging two
// inputs make of facts is defined in specs/.
#![tactic(auto)]

ghost use Rattle.std.specs.Prelude.{◌≡◌};
ghost use Rattle.apply_spec.specs.Facts.{empty_facts};
ghost use Rattle.apply_spec.specs.declared.FactsError.TheVariants.{Residuals};

use constraint_spec::{ConstraintError, ConstraintSet};
use scalar::ScalarValue;

// By column: the number of its identity and one more, 0 for none; the handle of its defining expression and one more, 0 for none.
#[derive(Clone, Copy)]
pub struct LogicalFacts {
    pub lineage: [u8; 64],
    pub definitions: [u16; 64],
    pub constraints: ConstraintSet,
}

// What an operand of a comparison is to the facts: a column with lineage, a literal, or neither.
#[derive(Clone, Copy)]
pub enum Seen {
    Identity(usize),
    Constant(ScalarValue),
    Unseen,
}

// Why facts were not changed: no room for another residual, or what came in breaks the rules.
#[derive(Clone, Copy, PartialEq, Eq)]
pub enum FactsError {
    Residuals,
    NoSuch,
}

impl From<ConstraintError> for FactsError {
    ghost from_gives = { λ _ f. f ≡ Residuals };

    fn from(e: ConstraintError) -> FactsError {
        match e {
            ConstraintError::Residuals => FactsError::Residuals,
        }
    }
}

impl LogicalFacts {
    pub fn empty() -> Self
        ensures { result ≡ empty_facts }
    {
        LogicalFacts {
            lineage: [0; 64],
            definitions: [0; 64],
            constraints: ConstraintSet::empty(),
        }
    }
}
