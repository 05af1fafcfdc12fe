// What reading, deriving, applying, simplifying and evaluating answer, in the numbers of the rules: the number of the refusal, 0 for none, and the number
// that goes with it.
#![tactic(auto)]

ghost use Rattle.std.specs.Prelude.{◌≡◌, ℕ, Err};
ghost use Rattle.plan_file.specs.Answers as Files;
ghost use Rattle.rows_spec.specs.Evaluate as Evaluating;
ghost use Rattle.apply_spec.specs.Facts as Applying;
ghost use Rattle.derive_spec.specs.Operators as Deriving;
ghost use Rattle.simplify_spec.specs.OneOperator as Simplifying;
ghost use Rattle.refusals.specs.Numbers.{number_of, last_of, standing_of, truth_found};

use apply_spec::FactsError;
use derive_spec::DeriveError;
use plan::Plan;
use plan_file::ReadError;
use rows_spec::EvaluationError;
use scalar::ScalarValue;
use simplify_spec::{Rewrite, SimplifyError};

// The number of a refusal.
pub trait Refusal {
    ghost numbered: { Self → ℕ };

    fn number(&self) -> u8
        ensures { result ≡ numbered self.now };
}

// Where something was refused: the offset of the faulty record in a file, or the operator.
pub trait Placed {
    ghost placed: { Self → ℕ };

    fn place(&self) -> usize
        ensures { result ≡ placed self.now };
}

impl Refusal for ReadError {
    ghost numbered = { λ e. Files.refusal_of (Err e) };

    fn number(&self) -> u8 {
        match self {
            ReadError::Short(_) => 1,
            ReadError::Unknown(_) => 2,
            ReadError::Room(_) => 3,
            ReadError::Handle(_) => 4,
            ReadError::ScannedTwice(_) => 5,
        }
    }
}

impl Placed for ReadError {
    ghost placed = { λ e. Files.place_of (Err e) };

    fn place(&self) -> usize {
        match self {
            ReadError::Short(at)
            | ReadError::Unknown(at)
            | ReadError::Room(at)
            | ReadError::Handle(at)
            | ReadError::ScannedTwice(at) => *at,
        }
    }
}

impl Refusal for DeriveError {
    ghost numbered = { λ e. Deriving.refusal_of (Err e) };

    fn number(&self) -> u8 {
        match self {
            DeriveError::UnsupportedKey(_) => 6,
            DeriveError::Residuals(_) => 7,
            DeriveError::NoSuch(_) => 8,
        }
    }
}

impl Placed for DeriveError {
    ghost placed = { λ e. Deriving.refuser_of (Err e) };

    fn place(&self) -> usize {
        match self {
            DeriveError::UnsupportedKey(o) | DeriveError::Residuals(o) | DeriveError::NoSuch(o) =>
                usize::from(o.0),
        }
    }
}

impl Refusal for FactsError {
    ghost numbered = { λ e. Applying.refusal_of (Err e) };

    fn number(&self) -> u8 {
        match self {
            FactsError::Residuals => 7,
            FactsError::NoSuch => 8,
        }
    }
}

impl Refusal for SimplifyError {
    ghost numbered = { λ e. Simplifying.refusal_of (Err e) };

    fn number(&self) -> u8 {
        match self {
            SimplifyError::Room => 3,
            SimplifyError::NoSuch => 8,
        }
    }
}

impl Refusal for EvaluationError {
    ghost numbered = { λ e. Evaluating.refusal_of (Err e) };

    fn number(&self) -> u8 {
        match self {
            EvaluationError::NoSuch => 8,
            EvaluationError::Untyped => 9,
            EvaluationError::BadRow => 10,
        }
    }
}

// The number of an answer, 0 where it is no refusal.
pub fn number<T, E: Refusal>(r: &Result<T, E>) -> u8
    ensures { result ≡ number_of E.numbered r.now }
{
    match r {
        Ok(_) => 0,
        Err(e) => e.number(),
    }
}

// Where an answer was refused, 0 where it is no refusal.
pub fn place<T, E: Placed>(r: &Result<T, E>) -> usize
    ensures { result ≡ number_of E.placed r.now }
{
    match r {
        Ok(_) => 0,
        Err(e) => e.place(),
    }
}

// 0 where the operator stays or is refused, else one more than the operator that stands for it.
pub fn standing(r: &Result<Rewrite, SimplifyError>) -> u32
    ensures { result ≡ standing_of r.now }
{
    match r {
        Ok(Rewrite::Replace(o)) => u32::from(o.0) + 1,
        _ => 0,
    }
}

pub fn truth_found(r: &Result<ScalarValue, EvaluationError>) -> u8
    ensures { result ≡ truth_found r.now }
{
    match r {
        Ok(v) => rows::truth_of(*v),
        Err(_) => 0,
    }
}

// The last operator of a plan, and 0, which no plan without operators has.
pub fn last_operator(p: &Plan) -> u16
    ensures { result ≡ last_of p.now }
{
    p.operators.count.saturating_sub(1)
}
