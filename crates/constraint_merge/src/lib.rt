// What two constraint sets say together, after the Rust's merge_from: the classes of the one joined in the other, then its literals, its ranges,
// the values that are not NULL and its residuals laid into it.
#![tactic(auto)]

ghost use Rattle.std.specs.Prelude.{◌≡◌, true, false, not, ◌<◌, min};
ghost use Rattle.constraint_spec.specs.Answers.{is_refused, applied};
ghost use Rattle.constraint_spec.specs.Sets.{merge_classes, merge_ranges, merge_non_nulls, merge_residuals, room_to, merge_from};
ghost use Rattle.constraint_set.specs.Settled.{Settled};
ghost use Rattle.constraint_merge.specs.Chained.{join_chain};
ghost use Rattle.constraint_merge.specs.Joined.{values_joined, settled_then};

use constraint_spec::{ConstraintError, ConstraintSet, Entry};
use value_classes::{Members, ValueEquivalenceClasses};

// ---- the classes

// Two identities joined. The first union that joins two classes moves everything to the representatives; from then on it stands there, if no
// parent is above its child: that is what `settled` says of the set, and what the answer says of it afterwards. Where `settled` is right, so is the
// answer, and the two are united (`joined_is_union` of proofs/Uniting).
#[tactic(auto, unfolding(crate::specs::Joined::values_joined, crate::specs::Joined::settled_then))]
pub fn join_values(s: &mut ConstraintSet, left: usize, right: usize, settled: bool) -> bool
    ensures joined { s.new ≡ values_joined settled s.old left right }
    ensures told { result ≡ settled_then settled s.old left right }
    ensures settled { (settled ≡ true → Settled s.old) → result ≡ true → Settled s.new }
{
    if settled {
        constraint_set::union_settled(s, left, right);
        return true;
    }
    if !s.equivalence_classes.union(left, right) {
        return false;
    }
    let in_order = s.equivalence_classes.parents_ok();
    constraint_set::normalize(s);
    in_order
}

// The members of a class, each joined with its representative.
#[tactic(auto, using(crate::proofs::Merging::members_loop))]
fn join_class(s: &mut ConstraintSet, members: &Members, root: usize, settled: bool) -> bool
    requires root_bound { root < 128 }
    requires settled { settled ≡ true → Settled s.old }
    ensures whole { s.new ≡ join_chain members.now root s.old }
    ensures settled { result ≡ true → Settled s.new }
{
    let first = usize::from(members.first[root]);
    let mut member = if first == root {
        usize::from(members.next[root])
    } else {
        first
    };
    let mut settled = settled;
    for _ in 0..ConstraintSet::IDENTITIES {
        if ConstraintSet::IDENTITIES <= member {
            return settled;
        }
        settled = join_values(s, root, member, settled);
        member = usize::from(members.next[member]);
    }
    settled
}

#[tactic(auto, using(crate::proofs::Merging::classes_loop))]
fn merge_classes(s: &mut ConstraintSet, classes: &ValueEquivalenceClasses)
    ensures { s.new ≡ merge_classes s.old classes.now }
{
    let members = classes.members();
    let mut settled = false;
    for root in 0..ConstraintSet::IDENTITIES {
        settled = join_class(s, &members, root, settled);
    }
}

// ---- what is recorded

#[tactic(auto, using(crate::proofs::Merging::ranges_loop))]
fn merge_ranges(s: &mut ConstraintSet, others: &[Entry; 128])
    ensures { s.new ≡ merge_ranges s.old others.now }
{
    for (i, other) in others.iter().enumerate() {
        if other.present {
            let root = constraint_set::canonical(s, i);
            constraint_set::lay_range(s, root, other.range);
        }
    }
}

#[tactic(auto, using(crate::proofs::Merging::nulls_loop))]
fn merge_non_nulls(s: &mut ConstraintSet, others: &[bool; 128])
    ensures { s.new ≡ merge_non_nulls s.old others.now }
{
    for (i, other) in others.iter().enumerate() {
        s.non_null_values[i] |= *other;
    }
}

// Where one does not find room, those before it stay.
#[tactic(auto, using(crate::proofs::Merging::handles_loop))]
fn merge_residuals(s: &mut ConstraintSet, other: &ConstraintSet) -> Result<(), ConstraintError>
    ensures room { is_refused result ≡ not (room_to s.old other.now.residual_predicates (min other.now.residuals 64)) }
    ensures whole { is_refused result ≡ false → s.new ≡ merge_residuals s.old other.now.residual_predicates other.now.residuals }
{
    let count = other.residuals.min(ConstraintSet::RESIDUALS);
    for handle in &other.residual_predicates[..count] {
        constraint_set::add_residual(s, *handle)?;
    }
    Ok(())
}

// What both say, or an error where there is no room for the residuals of b. The sets are joined in a copy, so that a then is as it was.
#[tactic(auto, using(crate::proofs::Merging::merge_told))]
pub fn merge_from(a: &mut ConstraintSet, b: &ConstraintSet) -> Result<(), ConstraintError>
    ensures { applied a.new result ≡ merge_from a.old b.now }
{
    let mut both = *a;
    both.contradictory |= b.contradictory;
    merge_classes(&mut both, &b.equivalence_classes);
    constraint_set::merge_literals(&mut both, &b.literal_equalities);
    merge_ranges(&mut both, &b.ranges);
    merge_non_nulls(&mut both, &b.non_null_values);
    merge_residuals(&mut both, b)?;
    constraint_set::normalize(&mut both);
    *a = both;
    Ok(())
}
