// Rows and truth: the value of an expression on a row, by SQL's three truth values. Here stand the types alone: what evaluating answers is defined in
// specs/, and what holds of it is proved in proofs/.
#![tactic(auto)]

// A value, as the three numbers of a literal's record.
#[derive(Clone, Copy)]
pub struct Cell {
    pub case: u8,
    pub code: u8,
    pub bits: u64,
}

// A value for every column.
#[derive(Clone, Copy)]
pub struct Row {
    pub cells: [Cell; 64],
}

// Why an expression has no value on a row.
#[derive(Clone, Copy, PartialEq, Eq)]
pub enum EvaluationError {
    NoSuch,
    Untyped,
    BadRow,
}
