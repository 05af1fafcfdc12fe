// Whether everything in a set stands at the representatives and every bound can be compared: then the conjuncts between two of the same may be
// left out. Nothing is asked of the set, so that whoever applies can ask.
#![tactic(auto)]

ghost use Rattle.std.specs.Prelude.{◌≡◌, ◌<◌, true};
ghost use Rattle.constraint_spec.specs.Sets.{non_null_at, literal_at, entry_at};
ghost use Rattle.constraint_normal.specs.Held.{FitsEntry, HeldAt};
ghost use Rattle.constraint_normal.specs.Ready.{Ready};
ghost use Rattle.constraint_normal.specs.ReadyPlaces.{blank_scalar, ready_holder, blank_bound, ready_bound, ready_entry, quiet_place, ready_place, ready_of};

use constraint_spec::{ConstraintSet, Entry, Holder};
use scalar::{Kind, ScalarValue};
use value_range::Bound;

#[tactic(auto, unfolding(crate::specs::ReadyPlaces::blank_scalar))]
fn is_blank_scalar(v: ScalarValue) -> bool
    ensures { result ≡ blank_scalar v }
{
    matches!(v, ScalarValue::Null(Kind::Boolean))
}

#[tactic(auto, unfolding(crate::specs::ReadyPlaces::ready_holder))]
fn is_ready_holder(root: bool, h: Holder) -> bool
    ensures { result ≡ ready_holder root h }
{
    if h.present {
        return root;
    }
    is_blank_scalar(h.value)
}

// The bits are looked at, since -0.0 is no empty bound and equals 0.0.
#[tactic(auto, unfolding(crate::specs::ReadyPlaces::blank_bound))]
fn is_blank_bound(b: Bound) -> bool
    ensures { result ≡ blank_bound b }
{
    !b.present && !b.inclusive && scalar::bits_of_float(b.value) == 0
}

#[tactic(auto, unfolding(crate::specs::ReadyPlaces::ready_bound))]
fn is_ready_bound(b: Bound) -> bool
    ensures { result ≡ ready_bound b }
{
    if b.present {
        !b.value.is_nan()
    } else {
        is_blank_bound(b)
    }
}

// That the bounds are floats of 64 bits is said for those who have the entry only as part of a set.
#[tactic(auto, unfolding(crate::specs::ReadyPlaces::ready_entry))]
fn is_ready_entry(root: bool, e: Entry) -> bool
    ensures value { result ≡ ready_entry root e }
    ensures fit { FitsEntry e }
{
    if e.present {
        root && is_ready_bound(e.range.lower) && is_ready_bound(e.range.upper)
    } else {
        is_blank_bound(e.range.lower) && is_blank_bound(e.range.upper)
    }
}

#[tactic(auto, unfolding(crate::specs::ReadyPlaces::quiet_place))]
fn is_quiet_place(h: Holder, e: Entry) -> bool
    ensures { result ≡ quiet_place h e }
{
    !(e.present && e.range.is_empty()) && !constraint_set::is_crossed(h, e)
}

#[tactic(auto, unfolding(crate::specs::ReadyPlaces::ready_place))]
fn is_ready_place(s: &ConstraintSet, i: usize, root: bool) -> bool
    requires { i < 128 }
    ensures value { result ≡ ready_place root s.now.contradictory (non_null_at s.now i) (literal_at s.now i) (entry_at s.now i) }
    ensures held { HeldAt s.now i }
{
    let holder = s.literal_equalities[i];
    let entry = s.ranges[i];
    // first and always, so that what the entry's type says is known whatever is found
    let ready = is_ready_entry(root, entry);
    ready
        && is_ready_holder(root, holder)
        && (root || !s.non_null_values[i])
        && (s.contradictory || is_quiet_place(holder, entry))
}

#[tactic(auto, unfolding(crate::specs::ReadyPlaces::ready_of), using(lists::proofs::RangeLaws::all_loop, crate::proofs::PlaceAnswers::place_here))]
pub fn is_ready(s: &ConstraintSet) -> bool
    ensures value { result ≡ ready_of s.now }
    ensures ready { result ≡ true → Ready s.now }
{
    if !s.equivalence_classes.parents_ok() {
        return false;
    }
    let roots = s.equivalence_classes.roots();
    for i in 0..ConstraintSet::IDENTITIES {
        if !is_ready_place(s, i, usize::from(roots.of[i]) == i) {
            return false;
        }
    }
    true
}
