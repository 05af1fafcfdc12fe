// What is known of the rows of an operator of a plan file, ready to be listed, or the refusal: the way from bytes over a plan to facts, which the program
// and the boundary share.
#![tactic(auto)]

ghost use Rattle.std.specs.Prelude.{◌≡◌};
ghost use Rattle.plan_file.specs.Steps.{read_of};
ghost use Rattle.refusals.specs.Numbers.{last_of};
ghost use Rattle.plan_identities.specs.Identities.{identities_of};
ghost use Rattle.file_facts.specs.Known.{plan_known, answer_known, handed_back, known_as, known_of};

use apply_spec::LogicalFacts;
use derive_spec::DeriveError;
use plan::{Operator, Plan};
use plan_file::ReadError;
use plan_identities::Identities;
use refusals::{Placed as _, Refusal as _};

// The operator, and what its listing is made of.
#[derive(Clone, Copy)]
pub struct Known {
    pub operator: u16,
    pub identities: Identities,
    pub facts: LogicalFacts,
}

// The number of the refusal in the rules (docs/FORMAT.md), and its place: where the faulty record starts, or the operator that refused.
#[derive(Clone, Copy, PartialEq, Eq)]
pub struct Refusal {
    pub number: u8,
    pub place: usize,
}

impl From<ReadError> for Refusal {
    ghost use Rattle.file_facts.specs.Known.{read_refusal};

    ghost from_gives = { λ e r. r ≡ read_refusal e };

    fn from(e: ReadError) -> Refusal {
        Refusal {
            number: e.number(),
            place: e.place(),
        }
    }
}

impl From<DeriveError> for Refusal {
    ghost use Rattle.file_facts.specs.Known.{derive_refusal};

    ghost from_gives = { λ e r. r ≡ derive_refusal e };

    fn from(e: DeriveError) -> Refusal {
        Refusal {
            number: e.number(),
            place: e.place(),
        }
    }
}

// Of the operator h of a plan.
#[tactic(auto, using(crate::proofs::Knowing::plan_refused), unfolding(crate::specs::Known::plan_known, crate::specs::Known::handed_back))]
pub fn of_plan(p: &Plan, h: u16) -> Result<Known, Refusal>
    ensures handed { result ≡ handed_back (plan_known h p.now) }
    ensures whole { known_as h (identities_of p.now) result ≡ plan_known h p.now }
{
    let n = derive_logical_facts::derive_numbered(p, Operator(h));
    Ok(Known {
        operator: h,
        identities: n.identities,
        facts: n.answer?,
    })
}

// Of an operator of a file.
#[tactic(auto, using(crate::proofs::Knowing::file_ways), unfolding(crate::specs::Known::answer_known))]
pub fn of_operator(file: &[u8], operator: u16) -> Result<Known, Refusal>
    ensures handed { result ≡ handed_back (answer_known operator (read_of file.now)) }
    ensures whole { known_of operator (read_of file.now) result ≡ answer_known operator (read_of file.now) }
{
    let p = plan_file::read(file)?;
    of_plan(&p, operator)
}

// Of the last operator of a file.
#[tactic(auto, using(crate::proofs::Knowing::file_ways), unfolding(crate::specs::Known::answer_known))]
pub fn of_last(file: &[u8]) -> Result<Known, Refusal>
    ensures handed { result ≡ handed_back (answer_known (last_of (read_of file.now).plan) (read_of file.now)) }
    ensures whole { known_of (last_of (read_of file.now).plan) (read_of file.now) result
        ≡ answer_known (last_of (read_of file.now).plan) (read_of file.now) }
{
    let p = plan_file::read(file)?;
    of_plan(&p, refusals::last_operator(&p))
}
