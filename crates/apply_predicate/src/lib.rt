// Applying a predicate to facts, after the Rust's `apply_predicate`: its conjuncts are collected some at a time, or all of them without those that repeat,
// and then applied to the set where it lies.
#![tactic(auto)]

ghost use Rattle.std.specs.Prelude.{◌≡◌, ◌++◌, ◌<◌, ◌≤◌, true, take};
ghost use Rattle.constraint_spec.specs.Answers.{applied};
ghost use Rattle.constraint_spec.specs.Sets.{done};
ghost use Rattle.plan_data.specs.Nodes.{node_from, node_at};
ghost use Rattle.apply_spec.specs.Conjuncts.{conjuncts_of};
ghost use Rattle.apply_spec.specs.Apply.{conjunct_applied, all_applied};
ghost use Rattle.apply_spec.specs.Entries.{predicate_applied, applied_to, apply_predicate};
ghost use Rattle.apply_spec.specs.Told.{told};
ghost use Rattle.apply_walk.specs.Walks.{and_in};
ghost use Rattle.apply_walk.specs.Rests.{Good, rest_of, steps_left};
ghost use Rattle.apply_shared_laws.specs.Given.{or_given};

use apply_spec::{FactsError, LogicalFacts};
use apply_walk::{Move, Walk};
use constraint_spec::{ConstraintError, ConstraintSet};
use plan::{Expr, Expressions, Items, Plan};

const TURNS: usize = 1024;

// The first `count` handles are the conjuncts that a walk found in at most 1,024 turns.
#[derive(Clone, Copy)]
struct Found {
    handles: [u16; TURNS],
    count: usize,
}

impl Found {
    fn handles(&self) -> &[u16]
        ensures { result.now ≡ take self.now.count self.now.handles }
    {
        &self.handles[..self.count.min(TURNS)]
    }
}

// The walk goes on in its place until it ends or 1,024 turns are done: Ands that hold nothing, shared, could take any number of turns.
fn next_conjuncts(exprs: &Expressions, items: &Items, walk: &mut Walk) -> Found
    requires good { Good walk.old }
    ensures good { Good walk.new }
    ensures few { result.count ≤ 1024 }
    ensures to_come { rest_of (node_from exprs.now) items.now.a walk.old
        ≡ take result.count result.handles ++ rest_of (node_from exprs.now) items.now.a walk.new }
    ensures less { 0 < walk.old.depth → steps_left exprs.now items.now.a walk.new < steps_left exprs.now items.now.a walk.old }
{
    let mut found = Found {
        handles: [0; TURNS],
        count: 0,
    };
    for turn in 0..TURNS {
        if walk.depth == 0 {
            return found;
        }
        match walk.turn(exprs, items) {
            Move::Pop | Move::Skip => {}
            Move::Enter(e) => walk.enter(exprs, e),
            Move::Found(e) => {
                found.handles[found.count] = e;
                found.count += 1;
            }
        }
    }
    found
}

// The walk over the operands of the And e.
fn walk_of(exprs: &Expressions, items: &Items, e: u16) -> Walk
    requires is_and { and_in exprs.now e ≡ true }
    requires within { e < 1024 }
    ensures good { Good result }
    ensures whole { rest_of (node_from exprs.now) items.now.a result ≡ conjuncts_of (node_from exprs.now) items.now.a e }
{
    let mut walk = Walk::empty();
    walk.enter(exprs, e);
    walk
}

// What is to come in a walk.
fn apply_walk(
    exprs: &Expressions,
    items: &Items,
    lineage: &[u8; 64],
    walk: &mut Walk,
    s: &mut ConstraintSet,
) -> Result<(), ConstraintError>
    requires good { Good walk.old }
    ensures { applied s.new result ≡ all_applied (conjunct_applied lineage.now (node_from exprs.now))
        (rest_of (node_from exprs.now) items.now.a walk.old) (done s.old) }
{
    // It ends by the steps that are left of the walk: a `for` would need a bound of turns.
    while 0 < walk.depth {
        let found = next_conjuncts(exprs, items, walk);
        apply_conjuncts::apply_handles(exprs, lineage, s, found.handles())?;
    }
    Ok(())
}

// An And whose walk takes more than 1,024 turns. Of 1,024 conjuncts or more some repeat, as no other than 1,023 expressions can be among them; it
// may also be an And of few conjuncts, or none, that lie deep or are reached by many paths. In a ready set those between two of the same are left
// out. A refusal may then leave another set, so the answer is only told up to what is given back.
fn apply_many(
    exprs: &Expressions,
    items: &Items,
    lineage: &[u8; 64],
    s: &mut ConstraintSet,
    e: u16,
) -> Result<(), ConstraintError>
    requires is_and { and_in exprs.now e ≡ true }
    requires within { e < 1024 }
    ensures { or_given s.old (applied s.new result) ≡ or_given s.old
        (all_applied (conjunct_applied lineage.now (node_from exprs.now)) (conjuncts_of (node_from exprs.now) items.now.a e) (done s.old)) }
{
    if constraint_normal::is_ready(s) {
        if let Some(thin) = apply_shared::thinned_conjuncts(exprs, items, e) {
            return apply_conjuncts::apply_handles(exprs, lineage, s, thin.kept());
        }
    }
    apply_walk(exprs, items, lineage, &mut walk_of(exprs, items, e), s)
}

// An And's conjuncts. Where the walk is short, nothing else is looked at.
fn apply_and(
    exprs: &Expressions,
    items: &Items,
    lineage: &[u8; 64],
    s: &mut ConstraintSet,
    e: u16,
) -> Result<(), ConstraintError>
    requires is_and { and_in exprs.now e ≡ true }
    requires within { e < 1024 }
    ensures { or_given s.old (applied s.new result) ≡ or_given s.old
        (all_applied (conjunct_applied lineage.now (node_from exprs.now)) (conjuncts_of (node_from exprs.now) items.now.a e) (done s.old)) }
{
    let mut walk = walk_of(exprs, items, e);
    let found = next_conjuncts(exprs, items, &mut walk);
    if 0 < walk.depth {
        apply_many(exprs, items, lineage, s, e)
    } else {
        apply_conjuncts::apply_handles(exprs, lineage, s, found.handles())
    }
}

// All conjuncts of the expression e.
fn apply_any(
    exprs: &Expressions,
    items: &Items,
    lineage: &[u8; 64],
    s: &mut ConstraintSet,
    e: u16,
) -> Result<(), ConstraintError>
    ensures { or_given s.old (applied s.new result) ≡ or_given s.old
        (all_applied (conjunct_applied lineage.now (node_from exprs.now)) (conjuncts_of (node_from exprs.now) items.now.a e) (done s.old)) }
{
    if apply_walk::is_and(exprs, e) {
        apply_and(exprs, items, lineage, s, e)
    } else {
        apply_conjuncts::apply_one(exprs, lineage, s, e)
    }
}

// The same, but a refusal leaves the set as it was.
fn apply_to(
    exprs: &Expressions,
    items: &Items,
    lineage: &[u8; 64],
    s: &mut ConstraintSet,
    e: u16,
) -> Result<(), ConstraintError>
    ensures { applied s.new result ≡ or_given s.old
        (all_applied (conjunct_applied lineage.now (node_from exprs.now)) (conjuncts_of (node_from exprs.now) items.now.a e) (done s.old)) }
{
    let given = *s;
    let answer = apply_any(exprs, items, lineage, s, e);
    if answer.is_err() {
        *s = given;
    }
    answer
}

// All conjuncts of an expression of the plan, applied to facts that keep the rules of facts. A refusal leaves the facts as they were.
#[tactic(auto, using(crate::proofs::Answering::facts_in, crate::proofs::Answering::facts_back), unfolding(apply_spec::specs::Entries::predicate_applied))]
pub fn apply_to_facts(p: &Plan, f: &mut LogicalFacts, e: Expr) -> Result<(), FactsError>
    ensures { told f.new result ≡ applied_to p.now f.old e }
{
    apply_to(
        &p.expressions,
        &p.items,
        &f.lineage,
        &mut f.constraints,
        e.0,
    )?;
    Ok(())
}

// The same for a plan, a handle and facts from outside, which are tested first.
#[tactic(auto, unfolding(apply_spec::specs::Entries::apply_predicate))]
pub fn apply_predicate(p: &Plan, f: &mut LogicalFacts, e: Expr) -> Result<(), FactsError>
    ensures { told f.new result ≡ apply_predicate p.now f.old e }
{
    if !plan_rules::plan_ok(p) || p.expressions.count <= e.0 || !logical_facts::facts_ok(p, f) {
        return Err(FactsError::NoSuch);
    }
    apply_to_facts(p, f, e)
}
