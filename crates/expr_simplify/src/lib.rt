// Simplifying the expressions of one operator of a plan, after the Rust's ExprSimplify.
#![tactic(auto)]

ghost use Rattle.std.specs.Prelude.{◌≡◌, ◌+◌, ◌<◌, ◌≤◌, ℕ, true, false, get_or, leb, MatchResult};
ghost use Rattle.plan_append.specs.Appending.{item_record};
ghost use Rattle.plan_data.specs.Nodes.{operator_data, record_of_operator};
ghost use Rattle.simplify_spec.specs.OneOperator.{held_of, held_count, held_at, each_to, item_count, item_first, item_second};
ghost use Rattle.simplify_spec.specs.OneOperator.{with_list, rebuilt_of, answered, add_operator, each_of, rewrite_of, simplify_of};

use plan::{AppendError, Expr, Items, Operator, Plan};
use plan_data::OperatorData;
use plan_kinds::Record;
use simplify_spec::{Held, Rewrite, SimplifyError, Tables};

// Where an operator has its expressions. Their lists are taken from its record, whose numbers have 16 bits, so that their lengths are known to be small.
#[tactic(auto, using(crate::proofs::OperatorLaws::held_record))]
fn held_of(x: Record, start: u16) -> Held
    ensures { result ≡ held_of (operator_data x start) }
{
    match plan_data::operator_data(x, start) {
        OperatorData::Selection { predicate, .. } => Held::One(predicate),
        OperatorData::Join { on, .. } => Held::One(on),
        OperatorData::Map { .. } => Held::Seconds { start, count: x.b },
        OperatorData::Aggregation { .. } => Held::Firsts {
            start,
            count: x.b,
            more: x.c,
        },
        OperatorData::Sort { .. } => Held::Firsts {
            start,
            count: x.b,
            more: 0,
        },
        _ => Held::Nothing,
    }
}

fn held_count(held: Held) -> u16
    ensures { result ≡ held_count held }
{
    match held {
        Held::Nothing => 0,
        Held::One(_) => 1,
        Held::Seconds { count, .. } | Held::Firsts { count, .. } => count,
    }
}

// The k-th of the expressions.
fn held_at(items: &Items, held: Held, k: u16) -> u16
    ensures { result ≡ held_at items.now held k }
{
    match held {
        Held::Nothing => 0,
        Held::One(e) => e.0,
        Held::Seconds { start, .. } => lists::at(&items.b, usize::from(start) + usize::from(k), 0),
        Held::Firsts { start, .. } => lists::at(&items.a, usize::from(start) + usize::from(k), 0),
    }
}

// Simplifies them one after the other, in a plan of n expressions, and says what each became.
#[tactic(auto, unfolding(simplify_spec::specs::OneOperator::each_to))]
fn each(t: &mut Tables, items: &Items, held: Held, n: u16) -> Result<[u16; 2048], AppendError>
    ensures { let all = each_to n (held_at items.now held) t.old (held_count held)
        in MatchResult result (λ ats. record { st = t.new; ok = true; ats = ats } ≡ all) (λ e. all.ok ≡ false) }
{
    let mut ats = [0; 2048];
    for k in 0..held_count(held) {
        let e = held_at(items, held, k);
        let at = simplify_expr::simplify_in(t, e, n)?;
        lists::put(&mut ats, usize::from(k), at);
    }
    Ok(ats)
}

// How many items the new operator has.
fn item_count(held: Held) -> usize
    ensures count { result ≡ item_count held }
    ensures small { result < 131072 }
{
    match held {
        Held::Nothing | Held::One(_) => 0,
        Held::Seconds { count, .. } => usize::from(count),
        Held::Firsts { count, more, .. } => usize::from(count) + usize::from(more),
    }
}

// The k-th of them: a number of the old operator's item, and what an expression became.
fn item_of(old: &Items, ats: &[u16; 2048], held: Held, k: usize) -> Record
    requires { k < 131072 }
    ensures { let at : ℕ → ℕ = λ j. get_or ats.now j 0 in result ≡ item_record (item_first old.now held at k) (item_second held at k) }
{
    let (a, b) = match held {
        Held::Nothing | Held::One(_) => (0, 0),
        Held::Seconds { start, .. } => (
            lists::at(&old.a, usize::from(start) + k, 0),
            lists::at(ats, k, 0),
        ),
        Held::Firsts { count, .. } if k < usize::from(count) => (lists::at(ats, k, 0), 0),
        Held::Firsts { start, .. } => (lists::at(&old.a, usize::from(start) + k, 0), 0),
    };
    Record {
        kind: 0,
        code: 0,
        a,
        b,
        c: 0,
        d: 0,
        bits: 0,
    }
}

// Appends all of them, where there is room.
#[tactic(auto, using(crate::proofs::OperatorLaws::list_more), unfolding(simplify_spec::specs::OneOperator::write_all))]
fn add_items(t: &mut Items, old: &Items, ats: &[u16; 2048], held: Held) -> Result<(), AppendError>
    ensures { let at : ℕ → ℕ = λ j. get_or ats.now j 0
        in MatchResult result (λ done. t.old.count + item_count held ≤ 2048 × t.new
        ≡ with_list t.old (item_count held) (item_first old.now held at) (item_second held at)) (λ e. 2048 < t.old.count + item_count held) }
{
    let n = item_count(held);
    if usize::from(Plan::ITEMS) < usize::from(t.count) + n {
        return Err(AppendError::Room);
    }
    for k in 0..n {
        t.push(item_of(old, ats, held, k));
    }
    Ok(())
}

// The record of the operator with e in the place of its one expression, if it has one. Where its lists start is no part of a record.
fn new_record(d: OperatorData, e: Expr) -> Record
    ensures { (start : ℕ) (at : ℕ → ℕ) → at 0 ≡ e.0 → result ≡ record_of_operator (rebuilt_of d start at) }
{
    let rebuilt = match d {
        OperatorData::Selection { input, .. } => OperatorData::Selection {
            predicate: e,
            input,
        },
        OperatorData::Join {
            join_type,
            outer,
            inner,
            ..
        } => OperatorData::Join {
            join_type,
            on: e,
            outer,
            inner,
        },
        _ => d,
    };
    Record::from(rebuilt)
}

// The plan with the new operator and what was appended to the tables, or no room for the operator or its items.
#[tactic(auto, unfolding(plan_append::specs::Appending::operator_added))]
fn add_operator(
    p: &mut Plan,
    t: &mut Tables,
    d: OperatorData,
    held: Held,
    ats: &[u16; 2048],
) -> Result<Rewrite, SimplifyError>
    ensures { answered p.new result ≡ add_operator p.old t.old d held (λ (j : ℕ). get_or ats.now j 0) }
{
    let start = t.items.count;
    add_items(&mut t.items, &p.items, ats, held)?;
    let x = new_record(d, Expr(ats[0]));
    let o = plan_append::add_operator(&mut p.operators, x, start)?;
    p.expressions = t.exprs;
    p.items = t.items;
    Ok(Rewrite::Replace(Operator(o)))
}

// The answer for an operator of a plan that keeps the rules. The tables are copied, so that the plan stays as it is where there is no room.
#[tactic(auto, unfolding(simplify_spec::specs::OneOperator::rewrite_of))]
fn rewrite(p: &mut Plan, x: Record, start: u16) -> Result<Rewrite, SimplifyError>
    ensures { answered p.new result ≡ rewrite_of p.old (operator_data x start) (each_of p.old (operator_data x start)) }
{
    let held = held_of(x, start);
    let mut t = Tables {
        exprs: p.expressions,
        items: p.items,
        changed: false,
    };
    let ats = each(&mut t, &p.items, held, p.expressions.count)?;
    if !t.changed {
        return Ok(Rewrite::Keep);
    }
    let shape = simplify_shape::shape_at(&t.exprs, usize::from(ats[0]));
    match plan_data::operator_data(x, start) {
        // Selection(true, input) is replaced by its input.
        OperatorData::Selection { input, .. } if simplify_shape::is_literal(shape, true) => {
            p.expressions = t.exprs;
            p.items = t.items;
            Ok(Rewrite::Replace(input))
        }
        d => add_operator(p, &mut t, d, held, &ats),
    }
}

// Simplifies the expressions of the operator o: it stays, or another stands for it in the plan with what was appended. The plan stays as it is where the
// answer is a refusal.
#[tactic(auto, unfolding(simplify_spec::specs::OneOperator::simplify_of))]
pub fn simplify(p: &mut Plan, o: Operator) -> Result<Rewrite, SimplifyError>
    ensures { answered p.new result ≡ simplify_of p.old o }
{
    if !plan_rules::plan_ok(p) || p.operators.count <= o.0 {
        return Err(SimplifyError::NoSuch);
    }
    let i = usize::from(o.0);
    let x = p.operators.record(i);
    let start = p.operators.start(i);
    rewrite(p, x, start)
}
