// What each kind of operator makes of lineage and definitions, from its lists. Only what stands by column goes through the loops: facts as a whole
// are some fifty times as large.
#![tactic(auto)]

ghost use Rattle.std.specs.Prelude.{◌≡◌};
ghost use Rattle.plan_data.specs.Nodes.{node_from};
ghost use Rattle.derive_spec.specs.Columns.{item_at, lineage_entry, definition_entry, base_column, derived_column, carried, value_for_expr};
ghost use Rattle.derive_spec.specs.Columns.{computed, key_column, keyed, is_column_ref, scanned, derived_columns, projected, renamed, mapped, keys_ok, keys_of};

use derive_spec::ColumnFacts;
use plan::{Column, Expressions};
use plan_data::{ExprData, Run};
use plan_identities::{Identities, ValueId};

// The k-th item of a list, 0 past the end of the table.
fn item(items: &[u16], r: Run, k: usize) -> u16
    ensures { result ≡ item_at items.now r k }
{
    match r.start.checked_add(k) {
        Some(i) => lists::at(items, i, 0),
        None => 0,
    }
}

// ---- entries

#[tactic(auto, unfolding(derive_spec::specs::Columns::lineage_entry))]
fn lineage_entry(ids: &Identities, v: ValueId) -> u8
    ensures { result ≡ lineage_entry ids.now v }
{
    let n = plan_identities::number_of(ids, v);
    if n < 128 { n + 1 } else { 0 }
}

#[tactic(auto, unfolding(derive_spec::specs::Columns::definition_entry))]
fn definition_entry(e: u16) -> u16
    ensures { result ≡ definition_entry e }
{
    if e < 1024 { e + 1 } else { 0 }
}

// ---- one column; a column past the last is left alone

#[tactic(auto, unfolding(derive_spec::specs::Columns::assigned))]
fn base_column(ids: &Identities, t: &mut ColumnFacts, c: u16)
    ensures { t.new ≡ base_column ids.now t.old c }
{
    let v = lineage_entry(ids, ValueId::Base(Column(c)));
    lists::put(&mut t.lineage, usize::from(c), v);
}

#[tactic(auto, unfolding(derive_spec::specs::Columns::assigned))]
pub fn derived_column(ids: &Identities, t: &mut ColumnFacts, c: u16)
    ensures { t.new ≡ derived_column ids.now t.old c }
{
    let v = lineage_entry(ids, ValueId::Derived(Column(c)));
    lists::put(&mut t.lineage, usize::from(c), v);
}

// What g has of the column `original`, put to the column `renamed`.
#[tactic(auto, unfolding(derive_spec::specs::Columns::carried))]
fn carry(g: &ColumnFacts, t: &mut ColumnFacts, renamed: u16, original: u16)
    ensures { t.new ≡ carried g.now t.old renamed original }
{
    let v = lists::at(&g.lineage, usize::from(original), 0);
    if v != 0 {
        lists::put(&mut t.lineage, usize::from(renamed), v);
    }
    let e = lists::at(&g.definitions, usize::from(original), 0);
    if e != 0 {
        lists::put(&mut t.definitions, usize::from(renamed), e);
    }
}

fn value_for_expr(t: &ColumnFacts, x: ExprData) -> u8
    ensures { result ≡ value_for_expr t.now.lineage x }
{
    match x {
        ExprData::ColumnRef(c) => lists::at(&t.lineage, usize::from(c.0), 0),
        _ => 0,
    }
}

// One computation of a Map.
#[tactic(auto, unfolding(derive_spec::specs::Columns::computed, derive_spec::specs::Columns::assigned, derive_spec::specs::Columns::defined))]
fn compute(ids: &Identities, t: &mut ColumnFacts, c: u16, e: u16, x: ExprData)
    ensures { t.new ≡ computed ids.now t.old c e x }
{
    let v = value_for_expr(t, x);
    if v == 0 {
        derived_column(ids, t, c);
        lists::put(&mut t.definitions, usize::from(c), definition_entry(e));
    } else {
        lists::put(&mut t.lineage, usize::from(c), v);
    }
}

#[tactic(auto, unfolding(derive_spec::specs::Columns::key_column))]
fn key_column(g: &ColumnFacts, t: &mut ColumnFacts, c: u16)
    ensures { t.new ≡ key_column g.now t.old c }
{
    let v = lists::at(&g.lineage, usize::from(c), 0);
    if v != 0 {
        lists::put(&mut t.lineage, usize::from(c), v);
    }
}

// One key of an Aggregation.
fn key(g: &ColumnFacts, t: &mut ColumnFacts, x: ExprData)
    ensures { t.new ≡ keyed g.now t.old x }
{
    if let ExprData::ColumnRef(c) = x {
        key_column(g, t, c.0);
    }
}

fn is_column_ref(x: ExprData) -> bool
    ensures { result ≡ is_column_ref x }
{
    matches!(x, ExprData::ColumnRef(_))
}

// ---- lists

#[tactic(auto, using(crate::proofs::ColumnLoops::steps_loop), unfolding(derive_spec::specs::Columns::scanned))]
pub fn scan_columns(ids: &Identities, items: &[u16], r: Run) -> ColumnFacts
    ensures { result ≡ scanned ids.now items.now r }
{
    let mut t = ColumnFacts::empty();
    for k in 0..r.count {
        base_column(ids, &mut t, item(items, r, k));
    }
    t
}

#[tactic(auto, using(crate::proofs::ColumnLoops::steps_loop), unfolding(derive_spec::specs::Columns::derived_columns))]
pub fn derived_columns(ids: &Identities, items: &[u16], r: Run, t: &mut ColumnFacts)
    ensures { t.new ≡ derived_columns ids.now items.now r t.old }
{
    for k in 0..r.count {
        derived_column(ids, t, item(items, r, k));
    }
}

#[tactic(auto, using(crate::proofs::ColumnLoops::steps_loop), unfolding(derive_spec::specs::Columns::projected))]
pub fn project_columns(g: &ColumnFacts, items: &[u16], r: Run) -> ColumnFacts
    ensures { result ≡ projected g.now items.now r }
{
    let mut t = ColumnFacts::empty();
    for k in 0..r.count {
        let c = item(items, r, k);
        carry(g, &mut t, c, c);
    }
    t
}

#[tactic(auto, using(crate::proofs::ColumnLoops::steps_loop), unfolding(derive_spec::specs::Columns::renamed))]
pub fn rename_columns(g: &ColumnFacts, items: &[u16], originals: &[u16], r: Run) -> ColumnFacts
    ensures { result ≡ renamed g.now items.now originals.now r }
{
    let mut t = ColumnFacts::empty();
    for k in 0..r.count {
        let renamed = item(items, r, k);
        let original = item(originals, r, k);
        carry(g, &mut t, renamed, original);
    }
    t
}

#[tactic(auto, using(crate::proofs::ColumnLoops::steps_loop), unfolding(derive_spec::specs::Columns::mapped))]
pub fn map_columns(
    ids: &Identities,
    nodes: &Expressions,
    items: &[u16],
    exprs: &[u16],
    r: Run,
    t: &mut ColumnFacts,
)
    ensures { t.new ≡ mapped ids.now (node_from nodes.now) items.now exprs.now r t.old }
{
    for k in 0..r.count {
        let c = item(items, r, k);
        let e = item(exprs, r, k);
        compute(ids, t, c, e, plan_data::node_at(nodes, usize::from(e)));
    }
}

// The expression that is the k-th key.
fn key_at(nodes: &Expressions, items: &[u16], r: Run, k: usize) -> ExprData
    ensures { result ≡ node_from nodes.now (item_at items.now r k) }
{
    plan_data::node_at(nodes, usize::from(item(items, r, k)))
}

// Every key is a column reference.
#[tactic(auto, using(lists::proofs::RangeLaws::all_loop), unfolding(derive_spec::specs::Columns::keys_ok))]
pub fn keys_ok(nodes: &Expressions, items: &[u16], r: Run) -> bool
    ensures { result ≡ keys_ok (node_from nodes.now) items.now r }
{
    for k in 0..r.count {
        if !is_column_ref(key_at(nodes, items, r, k)) {
            return false;
        }
    }
    true
}

// The lineage of the keys, without definitions.
#[tactic(auto, using(crate::proofs::ColumnLoops::steps_loop), unfolding(derive_spec::specs::Columns::keys_of))]
pub fn key_columns(nodes: &Expressions, g: &ColumnFacts, items: &[u16], r: Run) -> ColumnFacts
    ensures { result ≡ keys_of (node_from nodes.now) g.now items.now r }
{
    let mut t = ColumnFacts::empty();
    for k in 0..r.count {
        key(g, &mut t, key_at(nodes, items, r, k));
    }
    t
}
