// What deriving answers, after the Rust's `derive_logical_facts`. Here stand the types alone: what each operator makes of its inputs' facts is
// defined in specs/.
#![tactic(auto)]

ghost use Rattle.std.specs.Prelude.{◌≡◌};
ghost use Rattle.derive_spec.specs.Columns.{no_columns};

use plan::Operator;

// What of facts stands by column, as in LogicalFacts: the loops over an operator's lists need no more.
#[derive(Clone, Copy)]
pub struct ColumnFacts {
    pub lineage: [u8; 64],
    pub definitions: [u16; 64],
}

// A refusal says which operator refused; NoSuch says which was asked for.
#[derive(Clone, Copy, PartialEq, Eq)]
pub enum DeriveError {
    UnsupportedKey(Operator),
    Residuals(Operator),
    NoSuch(Operator),
}

impl ColumnFacts {
    pub fn empty() -> Self
        ensures { result ≡ no_columns }
    {
        ColumnFacts {
            lineage: [0; 64],
            definitions: [0; 64],
        }
    }
}
