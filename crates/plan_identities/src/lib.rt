// The identities of a plan's values, numbered so that the smaller number is the smaller identity: 0 to 63 are Base, 64 to 127 Derived.
#![tactic(auto)]

ghost use Rattle.std.specs.Prelude.{◌≡◌, ℕ, ◌≤◌, eqb, get_or};
ghost use Rattle.plan_identities.specs.Places.{first_from, filled};
ghost use Rattle.plan_identities.specs.Identities.{table_of, before_in, rank_in, size_of, identities_of, number_in, value_in};

use plan::{Column, Plan};

// Where a value comes from: a scanned column, or a column that the plan makes. A column belongs to at most one Scan, so that it says
// the table too.
#[derive(Clone, Copy)]
pub enum ValueId {
    Base(Column),
    Derived(Column),
}

// The number of each Base identity by its column, and how many columns there are.
#[derive(Clone, Copy)]
pub struct Identities {
    pub base: [u8; 64],
    pub columns: usize,
}

// The table of the first operator that is a Scan of column c; past every table where none is.
#[tactic(auto, unfolding(crate::specs::Identities::table_in), using(crate::proofs::PlaceLaws::first_loop))]
fn table_of(p: &Plan, c: u16) -> u32
    ensures { result ≡ table_of p.now c }
{
    for i in 0..usize::from(p.operators.count) {
        if plan_rules::scan_lists(&p.operators, &p.items, c, i) {
            return u32::from(p.operators.record(i).a);
        }
    }
    65536
}

// The tables of the first n columns.
#[tactic(auto, using(crate::proofs::PlaceLaws::fill_loop))]
fn tables(p: &Plan, n: u16) -> [u32; 64]
    requires { n ≤ 64 }
    ensures { result ≡ filled (table_of p.now) n }
{
    let mut t = [0; 64];
    for c in 0..n {
        t[usize::from(c)] = table_of(p, c);
    }
    t
}

// Whether column a comes before column b: by table, then name, then column number.
#[tactic(auto, unfolding(crate::specs::Identities::by_key))]
fn before(tables: &[u32], names: &[u16], a: usize, b: usize) -> bool
    ensures { result ≡ before_in tables.now names.now a b }
{
    (lists::at(tables, a, 0), lists::at(names, a, 0), a)
        < (lists::at(tables, b, 0), lists::at(names, b, 0), b)
}

// How many of the first n columns come before column c.
#[tactic(auto, unfolding(crate::specs::Identities::rank_in), using(lists::proofs::RangeLaws::count_loop))]
fn rank(tables: &[u32], names: &[u16], n: usize, c: usize) -> u8
    requires { n ≤ 64 }
    ensures { result ≡ rank_in tables.now names.now n c }
{
    let mut found = 0;
    for b in 0..n {
        if before(tables, names, b, c) {
            found += 1;
        }
    }
    found
}

// The ranks of the first n columns.
#[tactic(auto, using(crate::proofs::PlaceLaws::fill_loop))]
fn ranks(tables: &[u32], names: &[u16], n: usize) -> [u8; 64]
    requires { n ≤ 64 }
    ensures { result ≡ filled (rank_in tables.now names.now n) n }
{
    let mut t = [0; 64];
    for c in 0..n {
        t[c] = rank(tables, names, n, c);
    }
    t
}

// The numbers of a plan's identities.
#[tactic(auto, using(crate::proofs::RankAnswers::all_numbered))]
pub fn identities_of(p: &Plan) -> Identities
    ensures { result ≡ identities_of p.now }
{
    let n = p.columns.count.min(64);
    let columns = usize::from(n);
    let tables = tables(p, n);
    Identities {
        base: ranks(&tables, &p.columns.name, columns),
        columns,
    }
}

// The number of an identity; 128, past every number, for a column that is not there.
#[tactic(auto, unfolding(crate::specs::Identities::number_by))]
pub fn number_of(ids: &Identities, v: ValueId) -> u8
    ensures { result ≡ number_in ids.now v }
{
    match v {
        ValueId::Base(c) if usize::from(c.0) < ids.columns.min(64) => ids.base[usize::from(c.0)],
        ValueId::Derived(c) if c.0 < 64 => 64 + c.0 as u8,
        _ => 128,
    }
}

// The identity that has the number: Base of the first column whose number it is, and of column 0 where there is none; from 64 on Derived.
#[tactic(auto, unfolding(crate::specs::Identities::value_by), using(crate::proofs::PlaceLaws::first_loop))]
pub fn value_id(ids: &Identities, n: u8) -> ValueId
    ensures { result ≡ value_in ids.now n }
{
    if 64 <= n {
        return ValueId::Derived(Column(u16::from(n - 64)));
    }
    ValueId::Base(Column(column_of(ids, n)))
}

// The first column whose Base identity has the number, and column 0 where none has.
#[tactic(auto, using(crate::proofs::PlaceLaws::first_loop))]
fn column_of(ids: &Identities, number: u8) -> u16
    ensures { result ≡ first_from (λ (c : ℕ). eqb (get_or ids.now.base c 0) number) (λ (c : ℕ). c) 0 0 (size_of ids.now.columns) }
{
    for c in 0..ids.columns.min(64) as u16 {
        if ids.base[usize::from(c)] == number {
            return c;
        }
    }
    0
}
