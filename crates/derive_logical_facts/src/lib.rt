// Deriving, after the Rust's `derive_logical_facts`: the facts of an operator from the facts of its inputs, operators in handle order. The table
// of answers is over 1 MiB, so it stays where it is: a step is lent the two entries that it needs.
#![tactic(auto)]

ghost use Rattle.std.specs.Prelude.{◌≡◌, ◌<◌, min};
ghost use Rattle.plan_identities.specs.Identities.{identities_of};
ghost use Rattle.derive_spec.specs.Answers.{derived};
ghost use Rattle.derive_spec.specs.Deriving.{answer_of, derive_of};
ghost use Rattle.derive_logical_facts.specs.Table.{Holds};

use apply_spec::LogicalFacts;
use derive_spec::DeriveError;
use plan::{Operator, Plan};
use plan_identities::Identities;

// The answer for an operator, and the identities of its plan's values, by which it is listed: numbering them takes a pass over all operators.
#[derive(Clone, Copy)]
pub struct Numbered {
    pub answer: Result<LogicalFacts, DeriveError>,
    pub identities: Identities,
}

// The place of an input, or of the operator h itself where the input does not stand before it.
fn earlier(i: u16, h: u16) -> usize
    ensures { result ≡ min i h }
{
    usize::from(i.min(h))
}

// The answer of the operator k, where the table has the answers of those before it; its own entry is still a refusal.
#[tactic(auto, using(crate::proofs::Holding::holds_answer))]
fn answer(
    p: &Plan,
    ids: &Identities,
    table: &[Result<LogicalFacts, DeriveError>; 128],
    k: u16,
) -> Result<LogicalFacts, DeriveError>
    requires k_bound { k < 128 }
    requires ids_value { ids.now ≡ identities_of p.now }
    requires table_value { Holds p.now k table.now }
    ensures { derived result ≡ answer_of p.now k }
{
    let op = plan_data::operator_at(&p.operators, usize::from(k));
    let l = &table[earlier(derive_operator::outer_of(op), k)];
    let r = &table[earlier(derive_operator::inner_of(op), k)];
    derive_operator::step(p, ids, Operator(k), op, l, r)
}

// The operators up to h, which is among the plan's.
#[tactic(auto, using(crate::proofs::Holding::holds_loop))]
fn derive_to(p: &Plan, ids: &Identities, h: u16) -> Result<LogicalFacts, DeriveError>
    requires h_bound { h < 128 }
    requires ids_value { ids.now ≡ identities_of p.now }
    ensures { derived result ≡ answer_of p.now h }
{
    let mut table = [Err(DeriveError::NoSuch(Operator(0))); 128];
    for k in 0..=h {
        table[usize::from(k)] = answer(p, ids, &table, k);
    }
    table[usize::from(h)]
}

// The facts of an operator of the plan, with the plan's identities; a refusal where the plan breaks the rules or has no such operator.
pub fn derive_numbered(p: &Plan, o: Operator) -> Numbered
    ensures answer_value { derived result.answer ≡ derive_of p.now o.0 }
    ensures identities_value { result.identities ≡ identities_of p.now }
{
    let identities = plan_identities::identities_of(p);
    let answer = derive_with(p, &identities, o);
    Numbered { answer, identities }
}

#[tactic(auto, using(crate::proofs::Holding::few_rules), unfolding(derive_spec::specs::Deriving::derive_of))]
fn derive_with(p: &Plan, ids: &Identities, o: Operator) -> Result<LogicalFacts, DeriveError>
    requires { ids.now ≡ identities_of p.now }
    ensures { derived result ≡ derive_of p.now o.0 }
{
    if !plan_rules::plan_ok(p) || p.operators.count <= o.0 {
        return Err(DeriveError::NoSuch(o));
    }
    derive_to(p, ids, o.0)
}

// The facts of an operator of the plan.
pub fn derive_logical_facts(p: &Plan, o: Operator) -> Result<LogicalFacts, DeriveError>
    ensures { derived result ≡ derive_of p.now o.0 }
{
    derive_numbered(p, o).answer
}
