// Simplifying one operator's expressions, after the Rust's ExprSimplify. Here stand the types alone: what simplifying answers is defined in
// specs/, and what it keeps is proved in proofs/.
#![tactic(auto)]

ghost use Rattle.std.specs.Prelude.{◌≡◌};
ghost use Rattle.simplify_spec.specs.declared.SimplifyError.TheVariants.{Room};

use comparison::BinaryOp;
use plan::{AppendError, Expr, Expressions, Items, Operator};

// What an expression is to the simplifier: a literal Boolean, what it enters, or anything else. And and Or have a run of items.
#[derive(Clone, Copy)]
pub enum Shape {
    Boolean(bool),
    Not(Expr),
    Compare {
        op: BinaryOp,
        left: Expr,
        right: Expr,
    },
    And {
        start: u16,
        count: u16,
    },
    Or {
        start: u16,
        count: u16,
    },
    Other,
}

// Where an operator has the expressions that are simplified: it has none, it has one, they are the second numbers of a run of items, or the first
// numbers of a run, after which other items follow.
#[derive(Clone, Copy)]
pub enum Held {
    Nothing,
    One(Expr),
    Seconds { start: u16, count: u16 },
    Firsts { start: u16, count: u16, more: u16 },
}

// The tables that are appended to, and whether anything changed.
#[derive(Clone, Copy)]
pub struct Tables {
    pub exprs: Expressions,
    pub items: Items,
    pub changed: bool,
}

// What simplifying makes of an operator: it stays, or another one stands for it.
#[derive(Clone, Copy, PartialEq, Eq)]
pub enum Rewrite {
    Keep,
    Replace(Operator),
}

// Why an operator was not simplified: a table would be passed, or plan or handle break the rules.
#[derive(Clone, Copy, PartialEq, Eq)]
pub enum SimplifyError {
    Room,
    NoSuch,
}

impl From<AppendError> for SimplifyError {
    ghost from_gives = { λ e f. f ≡ Room };

    fn from(e: AppendError) -> SimplifyError {
        match e {
            AppendError::Room => SimplifyError::Room,
        }
    }
}
