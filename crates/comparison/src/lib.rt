// The comparisons of two values, with their codes in the plan file.
#![tactic(auto)]

ghost use Rattle.std.specs.Prelude.{◌≡◌};
ghost use Rattle.comparison.specs.Operators.{binary_op_code, binary_op_of, reversed_op, ordinary, bounding};

#[derive(Clone, Copy, PartialEq, Eq)]
pub enum BinaryOp {
    Eq,
    NotEq,
    Lt,
    LtEq,
    Gt,
    GtEq,
    IsNotDistinctFrom,
}

impl From<BinaryOp> for u8 {
    ghost from_gives = { λ op code. code ≡ binary_op_code op };

    fn from(op: BinaryOp) -> u8 {
        match op {
            BinaryOp::Eq => 0,
            BinaryOp::NotEq => 1,
            BinaryOp::Lt => 2,
            BinaryOp::LtEq => 3,
            BinaryOp::Gt => 4,
            BinaryOp::GtEq => 5,
            BinaryOp::IsNotDistinctFrom => 6,
        }
    }
}

// A number that is no comparison's code stands for Eq.
impl From<u8> for BinaryOp {
    ghost from_gives = { λ code op. op ≡ binary_op_of code };

    fn from(code: u8) -> BinaryOp {
        match code {
            1 => BinaryOp::NotEq,
            2 => BinaryOp::Lt,
            3 => BinaryOp::LtEq,
            4 => BinaryOp::Gt,
            5 => BinaryOp::GtEq,
            6 => BinaryOp::IsNotDistinctFrom,
            _ => BinaryOp::Eq,
        }
    }
}

impl BinaryOp {
    // The comparison with its sides exchanged.
    pub fn reversed(self) -> BinaryOp
        ensures { result ≡ reversed_op self }
    {
        match self {
            BinaryOp::Lt => BinaryOp::Gt,
            BinaryOp::LtEq => BinaryOp::GtEq,
            BinaryOp::Gt => BinaryOp::Lt,
            BinaryOp::GtEq => BinaryOp::LtEq,
            op => op,
        }
    }

    // Whether it is one of the six that a NULL on either side makes UNKNOWN.
    pub fn is_ordinary(self) -> bool
        ensures { result ≡ ordinary self }
    {
        self != BinaryOp::IsNotDistinctFrom
    }

    // Whether a number on its right bounds what is on its left.
    pub fn is_bounding(self) -> bool
        ensures { result ≡ bounding self }
    {
        matches!(
            self,
            BinaryOp::Lt | BinaryOp::LtEq | BinaryOp::Gt | BinaryOp::GtEq
        )
    }
}
