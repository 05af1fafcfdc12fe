// Whether a plan keeps the rules. What is passed in from outside is tested here once; the reader's plans always pass.
#![tactic(auto)]

ghost use Rattle.std.specs.Prelude.{◌≡◌, ℕ, ◌+◌, ◌<◌, ◌≤◌, eqb, get_or};
ghost use Rattle.lists.specs.Ranges.{all_from, any_from, count_from};
ghost use Rattle.plan_kinds.specs.Coding.{sort_code};
ghost use Rattle.plan_rules.specs.Rules.{record_ok, item_ok, lists_ok, column_ok, expr_ok, operator_ok, scans_in, scanned_once, counts_ok, plan_ok};

use plan::{Items, Operators, Plan};
use plan_kinds::{Before, Record, Sort};

// A record of the sort keeps to its row, with so many records before it.
#[tactic(auto, unfolding(crate::specs::Rules::record_ok))]
fn record_ok(sort: Sort, x: Record, before: Before) -> bool
    ensures { result ≡ record_ok (sort_code sort) x before.columns before.expressions before.operators }
{
    let row = plan_kinds::row_of(x.kind);
    row.sort == sort
        && plan_kinds::code_ok(row, x)
        && plan_kinds::bits_ok(row, x)
        && plan_kinds::handles_ok(row, x, before)
}

// The item at j, of a list of the kind, has handles of earlier records.
#[tactic(auto, unfolding(crate::specs::Rules::item_ok))]
fn item_ok(items: &Items, kind: u8, before: Before, j: usize) -> bool
    ensures { result ≡ item_ok items.now.a items.now.b kind before.columns before.expressions before.operators j }
{
    plan_kinds::handles_ok(plan_kinds::row_of(kind), items.record(j), before)
}

// So have the n items from `from` on.
#[tactic(auto, using(lists::proofs::RangeLaws::all_loop))]
fn items_ok(items: &Items, kind: u8, before: Before, from: usize, n: usize) -> bool
    requires { from + n ≤ 1000000 }
    ensures { result ≡ all_from (item_ok items.now.a items.now.b kind before.columns before.expressions before.operators) from n }
{
    for j in from..from + n {
        if !item_ok(items, kind, before, j) {
            return false;
        }
    }
    true
}

// The lists of a record, from `start` on, are among the items, and each item is right.
#[tactic(auto, unfolding(crate::specs::Rules::lists_ok))]
fn lists_ok(items: &Items, x: Record, start: u16, before: Before) -> bool
    ensures { result ≡ lists_ok items.now.a items.now.b items.now.count x start before.columns before.expressions before.operators }
{
    let row = plan_kinds::row_of(x.kind);
    let st = usize::from(start);
    let first = usize::from(plan_kinds::count_of(row, x));
    let more = usize::from(plan_kinds::more_of(row, x));
    st + (first + more) <= usize::from(items.count)
        && items_ok(items, row.item, before, st, first)
        && items_ok(items, 0x40, before, st + first, more)
}

// Column i has a listed kind.
fn column_ok(p: &Plan, i: u16) -> bool
    ensures { result ≡ column_ok p.now i }
{
    let kind = p.columns.record(usize::from(i)).code;
    1 <= kind && kind <= 5
}

// So has every column.
#[tactic(auto, using(lists::proofs::RangeLaws::all_loop))]
fn columns_ok(p: &Plan) -> bool
    ensures { result ≡ all_from (column_ok p.now) 0 p.now.columns.count }
{
    for i in 0..p.columns.count {
        if !column_ok(p, i) {
            return false;
        }
    }
    true
}

// Expression i keeps to its row, with its list.
#[tactic(auto, unfolding(crate::specs::Rules::expr_ok_of))]
fn expr_ok(p: &Plan, i: u16) -> bool
    requires { i < 65535 }
    ensures { result ≡ expr_ok p.now i }
{
    let x = p.expressions.record(usize::from(i));
    let start = p.expressions.start(usize::from(i));
    let before = Before {
        columns: p.columns.count,
        expressions: i,
        operators: p.operators.count,
    };
    record_ok(Sort::Expressions, x, before)
        && lists_ok(
            &p.items,
            x,
            start,
            Before {
                expressions: i + 1,
                ..before
            },
        )
}

// So does every expression.
#[tactic(auto, using(lists::proofs::RangeLaws::all_loop))]
fn exprs_ok(p: &Plan) -> bool
    ensures { result ≡ all_from (expr_ok p.now) 0 p.now.expressions.count }
{
    for i in 0..p.expressions.count {
        if !expr_ok(p, i) {
            return false;
        }
    }
    true
}

// Operator i keeps to its row, with its lists.
#[tactic(auto, unfolding(crate::specs::Rules::operator_ok_of))]
fn operator_ok(p: &Plan, i: u16) -> bool
    ensures { result ≡ operator_ok p.now i }
{
    let x = p.operators.record(usize::from(i));
    let start = p.operators.start(usize::from(i));
    let before = Before {
        columns: p.columns.count,
        expressions: p.expressions.count,
        operators: i,
    };
    record_ok(Sort::Operators, x, before) && lists_ok(&p.items, x, start, before)
}

// So does every operator.
#[tactic(auto, using(lists::proofs::RangeLaws::all_loop))]
fn operators_ok(p: &Plan) -> bool
    ensures { result ≡ all_from (operator_ok p.now) 0 p.now.operators.count }
{
    for i in 0..p.operators.count {
        if !operator_ok(p, i) {
            return false;
        }
    }
    true
}

// Whether column c is among the n items from `from` on.
#[tactic(auto, using(lists::proofs::RangeLaws::any_loop))]
fn lists_column(items: &Items, c: u16, from: usize, n: usize) -> bool
    requires { from + n ≤ 1000000 }
    ensures { result ≡ any_from (λ (j : ℕ). eqb (get_or items.now.a j 0) c) from n }
{
    for j in from..from + n {
        if items.record(j).a == c {
            return true;
        }
    }
    false
}

// Whether operator i is a Scan that lists column c.
#[tactic(auto, unfolding(crate::specs::Rules::scans_of))]
pub fn scan_lists(operators: &Operators, items: &Items, c: u16, i: usize) -> bool
    ensures { result ≡ scans_in operators.now items.now c i }
{
    let x = operators.record(i);
    x.kind == 0x30 && lists_column(items, c, usize::from(operators.start(i)), usize::from(x.b))
}

// How many operators are Scans that list column c.
#[tactic(auto, using(lists::proofs::RangeLaws::count_loop))]
fn scan_count(operators: &Operators, items: &Items, c: u16) -> usize
    ensures { result ≡ count_from (scans_in operators.now items.now c) 0 operators.now.count }
{
    let mut found = 0;
    for i in 0..usize::from(operators.count) {
        if scan_lists(operators, items, c, i) {
            found += 1;
        }
    }
    found
}

// Every column belongs to at most one Scan.
#[tactic(auto, using(lists::proofs::RangeLaws::all_loop))]
fn scanned_once(p: &Plan) -> bool
    ensures { result ≡ all_from (scanned_once p.now) 0 p.now.columns.count }
{
    for c in 0..p.columns.count {
        if scan_count(&p.operators, &p.items, c) > 1 {
            return false;
        }
    }
    true
}

// Whether the counts are within the sizes.
#[tactic(auto, unfolding(crate::specs::Rules::counts_within))]
fn counts_ok(p: &Plan) -> bool
    ensures { result ≡ counts_ok p.now }
{
    p.columns.count <= Plan::COLUMNS
        && p.expressions.count <= Plan::EXPRESSIONS
        && p.operators.count <= Plan::OPERATORS
        && p.items.count <= Plan::ITEMS
}

// Whether the plan keeps the rules.
#[tactic(auto, unfolding(crate::specs::Rules::plan_ok))]
pub fn plan_ok(p: &Plan) -> bool
    ensures { result ≡ plan_ok p.now }
{
    counts_ok(p) && columns_ok(p) && exprs_ok(p) && operators_ok(p) && scanned_once(p)
}
