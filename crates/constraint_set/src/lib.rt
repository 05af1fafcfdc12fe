// What is done with a constraint set, after the methods of the Rust's ConstraintSet: a set is lent and changed in place.
// Nothing is asked of a set or of a number that comes in: what happens to one that breaks the rules is defined too.
#![tactic(auto)]

ghost use Rattle.std.specs.Prelude.{◌≡◌, true, cond, ◌<◌, Some};
ghost use Rattle.lists.specs.Ranges.{any_from};
ghost use Rattle.value_classes.specs.Classes.{same_class};
ghost use Rattle.constraint_spec.specs.Answers.{applied};
ghost use Rattle.constraint_spec.specs.Sets.{held, set_ok, canonical_at, entry_of, clashes, range_in, tighten_by, outside, crossed};
ghost use Rattle.constraint_spec.specs.Sets.{crossed_at, cross_check, non_nulls_moved, literals_moved, ranges_moved};
ghost use Rattle.constraint_spec.specs.Sets.{normalized, put_literal, lay_range, put_range};
ghost use Rattle.constraint_spec.specs.Sets.{union_values, add_literal, bounds_by, merge_literals, add_residual};
ghost use Rattle.constraint_set.specs.Checked.{Checked};
ghost use Rattle.constraint_set.specs.Settled.{null_on, literal_on, literal_bad, range_on, range_bad, place_of, united_roots, union_settled};

use comparison::BinaryOp;
use constraint_spec::{ConstraintError, ConstraintSet, Entry, Holder};
use scalar::ScalarValue;
use value_range::ValueRange;

// The literal and the range of two representatives that become one, and whether they contradict.
#[derive(Clone, Copy)]
pub struct Place {
    pub literal: Holder,
    pub entry: Entry,
    pub bad: bool,
}

#[tactic(auto, unfolding(constraint_spec::specs::Sets::set_ok))]
pub fn set_ok(s: &ConstraintSet) -> bool
    ensures { result ≡ set_ok s.now }
{
    s.equivalence_classes.parents_ok() && s.residuals <= ConstraintSet::RESIDUALS
}

pub fn canonical(s: &ConstraintSet, value: usize) -> usize
    ensures value { result ≡ canonical_at s.now value }
    ensures small { value < 128 → result < 128 }
{
    s.equivalence_classes.canonical(value)
}

pub fn equivalent(s: &ConstraintSet, left: usize, right: usize) -> bool
    ensures { result ≡ same_class s.now.equivalence_classes left right }
{
    s.equivalence_classes.equivalent(left, right)
}

// ---- one literal, one range

pub fn literal_clashes(old: Holder, l: ScalarValue) -> bool
    ensures { result ≡ clashes old l }
{
    old.present && !scalar::equal(old.value, l)
}

// A literal that differs from the one that is there is left out.
pub fn literal_kept(clash: bool, old: Holder, l: ScalarValue) -> Holder
    ensures { result ≡ cond clash old (held l) }
{
    if clash {
        old
    } else {
        Holder {
            present: true,
            value: l,
        }
    }
}

pub fn range_in(e: Entry) -> ValueRange
    ensures { result ≡ range_in e }
{
    if e.present {
        e.range
    } else {
        ValueRange::unbounded()
    }
}

// The range of an entry, or the one without bounds, with the bounds of another.
pub fn tightened(e: Entry, new: ValueRange) -> ValueRange
    ensures { result ≡ tighten_by (range_in e) new }
{
    let mut range = range_in(e);
    if new.lower.present {
        range = range.tighten_lower(new.lower.value, new.lower.inclusive);
    }
    if new.upper.present {
        range = range.tighten_upper(new.upper.value, new.upper.inclusive);
    }
    range
}

pub fn entry_of(range: ValueRange) -> Entry
    ensures { result ≡ entry_of range }
{
    Entry {
        present: true,
        range,
    }
}

pub fn bounds_by(op: BinaryOp, x: f64) -> ValueRange
    ensures { result ≡ bounds_by op x }
{
    let unbounded = ValueRange::unbounded();
    match op {
        BinaryOp::Lt => unbounded.tighten_upper(x, false),
        BinaryOp::LtEq => unbounded.tighten_upper(x, true),
        BinaryOp::Gt => unbounded.tighten_lower(x, false),
        BinaryOp::GtEq => unbounded.tighten_lower(x, true),
        BinaryOp::Eq | BinaryOp::NotEq | BinaryOp::IsNotDistinctFrom => unbounded,
    }
}

// ---- literals against ranges

fn is_outside(x: f64, r: ValueRange) -> bool
    ensures { result ≡ outside (Some x) r }
{
    let ValueRange { lower, upper } = r;
    let below = lower.present && (x < lower.value || (x == lower.value && !lower.inclusive));
    let above = upper.present && (x > upper.value || (x == upper.value && !upper.inclusive));
    below || above
}

pub fn is_crossed(h: Holder, e: Entry) -> bool
    ensures { result ≡ crossed h e }
{
    h.present && e.present && scalar::scalar_to_f64(h.value).is_some_and(|x| is_outside(x, e.range))
}

#[tactic(auto, using(lists::proofs::RangeLaws::any_loop))]
fn any_crossed(s: &ConstraintSet) -> bool
    ensures { result ≡ any_from (crossed_at s.now) 0 128 }
{
    for i in 0..ConstraintSet::IDENTITIES {
        if is_crossed(s.literal_equalities[i], s.ranges[i]) {
            return true;
        }
    }
    false
}

#[tactic(auto, unfolding(constraint_spec::specs::Sets::cross_check))]
pub fn cross_check_literals_and_ranges(s: &mut ConstraintSet)
    ensures { s.new ≡ cross_check s.old }
{
    s.contradictory = s.contradictory || any_crossed(s);
}

// ---- one thing more at a representative

// A literal that differs from the one that is there sets the flag and is left out.
#[tactic(auto, unfolding(constraint_spec::specs::Sets::put_literal))]
fn put_literal(s: &mut ConstraintSet, root: usize, literal: ScalarValue)
    requires { root < 128 }
    ensures { s.new ≡ put_literal s.old root literal }
{
    if literal_clashes(s.literal_equalities[root], literal) {
        s.contradictory = true;
    } else {
        s.literal_equalities[root] = Holder {
            present: true,
            value: literal,
        };
    }
}

// A place past the identities has no range, and nothing changes.
#[tactic(auto, using(crate::proofs::SetLists::range_laid))]
pub fn lay_range(s: &mut ConstraintSet, root: usize, range: ValueRange)
    ensures { s.new ≡ lay_range s.old root range }
{
    let old = lists::at(&s.ranges, root, Entry::empty());
    lists::put(&mut s.ranges, root, entry_of(tightened(old, range)));
}

// The same with a test whether no number is left.
#[tactic(auto, unfolding(constraint_spec::specs::Sets::lay_range, constraint_spec::specs::Sets::put_range))]
fn put_range(s: &mut ConstraintSet, root: usize, range: ValueRange)
    requires { root < 128 }
    ensures { s.new ≡ put_range s.old root range }
{
    lay_range(s, root, range);
    s.contradictory |= s.ranges[root].range.is_empty();
}

// ---- everything to the representatives, in three passes

#[tactic(auto, using(crate::proofs::Loops::null_loop))]
fn move_non_nulls(s: &mut ConstraintSet)
    ensures { s.new ≡ non_nulls_moved s.old }
{
    let old = s.non_null_values;
    s.non_null_values = [false; 128];
    for (i, non_null) in old.iter().enumerate() {
        if *non_null {
            let root = canonical(s, i);
            s.non_null_values[root] = true;
        }
    }
}

#[tactic(auto, using(crate::proofs::Loops::literal_loop))]
fn move_literals(s: &mut ConstraintSet)
    ensures { s.new ≡ literals_moved s.old }
{
    let old = s.literal_equalities;
    s.literal_equalities = [Holder::empty(); 128];
    for (i, holder) in old.iter().enumerate() {
        if holder.present {
            let root = canonical(s, i);
            put_literal(s, root, holder.value);
        }
    }
}

#[tactic(auto, using(crate::proofs::Loops::range_loop))]
fn move_ranges(s: &mut ConstraintSet)
    ensures { s.new ≡ ranges_moved s.old }
{
    let old = s.ranges;
    s.ranges = [Entry::empty(); 128];
    for (i, entry) in old.iter().enumerate() {
        if entry.present {
            let root = canonical(s, i);
            put_range(s, root, entry.range);
        }
    }
}

#[tactic(auto, unfolding(constraint_spec::specs::Sets::normalized))]
pub fn normalize(s: &mut ConstraintSet)
    ensures { s.new ≡ normalized s.old }
{
    move_non_nulls(s);
    move_literals(s);
    move_ranges(s);
    cross_check_literals_and_ranges(s);
}

// ---- the operations

pub fn union_values(s: &mut ConstraintSet, left: usize, right: usize)
    ensures { s.new ≡ union_values s.old left right }
{
    if s.equivalence_classes.union(left, right) {
        normalize(s);
    }
}

// A literal of an identity. Where the set is known to be checked, only one place can have come to be crossed.
#[tactic(auto, unfolding(constraint_spec::specs::Sets::put_non_null), using(crate::proofs::Checking::literal_laid))]
fn lay_literal(s: &mut ConstraintSet, value: usize, literal: ScalarValue, checked: bool)
    requires value_bound { value < 128 }
    requires checked { checked ≡ true → Checked s.old }
    ensures { s.new ≡ add_literal s.old value literal }
{
    if literal.is_null() {
        s.contradictory = true;
        return;
    }
    let root = canonical(s, value);
    s.non_null_values[root] = true;
    put_literal(s, root, literal);
    if checked {
        s.contradictory |= is_crossed(s.literal_equalities[root], s.ranges[root]);
    } else {
        cross_check_literals_and_ranges(s);
    }
}

#[tactic(auto, using(crate::proofs::Checking::past_literal))]
pub fn add_literal(s: &mut ConstraintSet, value: usize, literal: ScalarValue)
    ensures { s.new ≡ add_literal s.old value literal }
{
    if value < ConstraintSet::IDENTITIES {
        lay_literal(s, value, literal, false);
    }
}

// The literals of another set, one after the other: the first checks all places, each later one its own.
#[tactic(auto, using(crate::proofs::Loops::laid_loop, crate::proofs::Checking::checked_loop))]
pub fn merge_literals(s: &mut ConstraintSet, others: &[Holder; 128])
    ensures { s.new ≡ merge_literals s.old others.now }
{
    let mut checked = false;
    for (i, other) in others.iter().enumerate() {
        if other.present {
            lay_literal(s, i, other.value, checked);
            checked = true;
        }
    }
}

// A residual at the end, once for each handle.
#[tactic(auto, using(crate::proofs::Residuals::residual_cases))]
pub fn add_residual(s: &mut ConstraintSet, h: u16) -> Result<(), ConstraintError>
    ensures { applied s.new result ≡ add_residual s.old h }
{
    let count = s.residuals.min(ConstraintSet::RESIDUALS);
    if s.residual_predicates[..count].contains(&h) {
        return Ok(());
    }
    if ConstraintSet::RESIDUALS <= s.residuals {
        return Err(ConstraintError::Residuals);
    }
    s.residual_predicates[s.residuals] = h;
    s.residuals += 1;
    Ok(())
}

// ---- two classes of a set in which everything stands at the representatives: only one place changes

#[tactic(auto, unfolding(crate::specs::Settled::literal_on))]
fn literal_on(old: Holder, new: Holder) -> Holder
    ensures { result ≡ literal_on old new }
{
    if new.present {
        literal_kept(literal_clashes(old, new.value), old, new.value)
    } else {
        old
    }
}

#[tactic(auto, unfolding(crate::specs::Settled::literal_bad))]
fn literal_bad(old: Holder, new: Holder) -> bool
    ensures { result ≡ literal_bad old new }
{
    new.present && literal_clashes(old, new.value)
}

#[tactic(auto, unfolding(crate::specs::Settled::range_on))]
fn range_on(old: Entry, new: Entry) -> Entry
    ensures { result ≡ range_on old new }
{
    if new.present {
        entry_of(tightened(old, new.range))
    } else {
        old
    }
}

#[tactic(auto, unfolding(crate::specs::Settled::range_bad))]
fn range_bad(old: Entry, new: Entry) -> bool
    ensures { result ≡ range_bad old new }
{
    new.present && tightened(old, new.range).is_empty()
}

#[tactic(auto, unfolding(crate::specs::Settled::place_of))]
pub fn place_of(h1: Holder, h2: Holder, e1: Entry, e2: Entry) -> Place
    ensures { result ≡ place_of h1 h2 e1 e2 }
{
    let literal = literal_on(h1, h2);
    let entry = range_on(e1, e2);
    Place {
        literal,
        entry,
        bad: literal_bad(h1, h2) || range_bad(e1, e2) || is_crossed(literal, entry),
    }
}

// Two representatives made one: what stands at the higher comes to the lower.
#[tactic(auto, unfolding(crate::specs::Settled::united_roots, crate::specs::Settled::null_on))]
fn unite_roots(s: &mut ConstraintSet, low: usize, high: usize)
    requires order { low < high }
    requires high_bound { high < 128 }
    ensures { s.new ≡ united_roots s.old low high }
{
    let place = place_of(
        s.literal_equalities[low],
        s.literal_equalities[high],
        s.ranges[low],
        s.ranges[high],
    );
    s.equivalence_classes.join_roots(low, high);
    s.non_null_values[low] |= s.non_null_values[high];
    s.non_null_values[high] = false;
    s.literal_equalities[low] = place.literal;
    s.literal_equalities[high] = Holder::empty();
    s.ranges[low] = place.entry;
    s.ranges[high] = Entry::empty();
    s.contradictory |= place.bad;
}

// The union of a set in which everything stands at the representatives (`settled_is_union` of proofs/RootJoins). Of any other set too, the two
// representatives are made one, and no more.
#[tactic(auto, unfolding(crate::specs::Settled::union_settled))]
pub fn union_settled(s: &mut ConstraintSet, left: usize, right: usize)
    ensures { s.new ≡ union_settled s.old left right }
{
    if ConstraintSet::IDENTITIES <= left || ConstraintSet::IDENTITIES <= right {
        return;
    }
    let left_root = canonical(s, left);
    let right_root = canonical(s, right);
    if left_root != right_root {
        unite_roots(s, left_root.min(right_root), left_root.max(right_root));
    }
}
