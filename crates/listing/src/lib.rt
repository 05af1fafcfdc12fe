// The listing of facts, written by the caller's writer; 16,384 bytes hold every listing.
#![tactic(auto)]

ghost use Rattle.std.specs.Prelude.{◌≡◌, ℕ, ◌≤◌, ◌<◌, eqb, get_or, length};
ghost use Rattle.lists.specs.Ranges.{count_from};
ghost use Rattle.writing.specs.Writers.{written};
ghost use Rattle.scalar.specs.Scalars.{Typed};
ghost use Rattle.value_classes.specs.Classes.{canonical_of};
ghost use Rattle.constraint_spec.specs.Sets.{none, handle_at, literal_at};
ghost use Rattle.listing.specs.Listing.{column_lines, define_lines, members_in, members_text, class_line, class_lines, nonnull_lines, literal_lines};
ghost use Rattle.listing.specs.Listing.{range_lines, residual_lines, set_text, listing_text, refused_line};

use apply_spec::LogicalFacts;
use constraint_spec::{ConstraintSet, Entry, Holder};
use plan_identities::Identities;
use value_classes::ValueEquivalenceClasses;
use writing::Writer;

#[tactic(auto, using(crate::proofs::Loops::line_loop), unfolding(crate::specs::Listing::column_lines))]
fn column_lines(w: &mut Writer, ids: &Identities, lineage: &[u8; 64])
    ensures wrote { w.new ≡ written w.old (column_lines ids.now lineage.now) }
    ensures fit { (c : ℕ) → get_or lineage.now c 0 < 256 }
{
    for (c, v) in lineage.iter().enumerate() {
        listing_lines::column_line(w, ids, c, *v);
    }
}

#[tactic(auto, using(crate::proofs::Loops::line_loop), unfolding(crate::specs::Listing::define_lines))]
fn define_lines(w: &mut Writer, definitions: &[u16; 64])
    ensures wrote { w.new ≡ written w.old (define_lines definitions.now) }
    ensures fit { (c : ℕ) → get_or definitions.now c 0 < 65536 }
{
    for (c, d) in definitions.iter().enumerate() {
        listing_lines::define_line(w, c, *d);
    }
}

// Counted by a loop: with a chain of filter and count a whole listing takes twice the work.
#[tactic(auto, using(lists::proofs::RangeLaws::count_loop), unfolding(crate::specs::Listing::members_in))]
fn members_in(roots: &[u8; 128], r: u8) -> usize
    ensures { result ≡ members_in (λ (i : ℕ). get_or roots.now i 0) r }
{
    let mut found = 0;
    for i in 0..128 {
        if roots[i] == r {
            found += 1;
        }
    }
    found
}

#[tactic(auto, using(crate::proofs::Loops::line_loop), unfolding(crate::specs::Listing::members_text))]
fn members(w: &mut Writer, ids: &Identities, roots: &[u8; 128], r: u8)
    ensures { w.new ≡ written w.old (members_text ids.now (λ (i : ℕ). get_or roots.now i 0) r) }
{
    for (i, root) in roots.iter().enumerate() {
        listing_lines::member(w, ids, *root, r, i as u8);
    }
}

#[tactic(auto, using(writing::proofs::Writings::line_steps), unfolding(crate::specs::Listing::class_line))]
fn class_line(w: &mut Writer, ids: &Identities, roots: &[u8; 128], r: u8)
    ensures { w.new ≡ written w.old (class_line ids.now (λ (i : ℕ). get_or roots.now i 0) r) }
{
    if 2 <= members_in(roots, r) {
        w.text(b"class");
        members(w, ids, roots, r);
        w.byte(b'\n');
    }
}

#[tactic(auto, using(crate::proofs::Loops::line_loop), unfolding(crate::specs::Listing::class_lines))]
fn class_lines(w: &mut Writer, ids: &Identities, classes: &ValueEquivalenceClasses)
    ensures { w.new ≡ written w.old (class_lines ids.now (canonical_of classes.now)) }
{
    let roots = classes.roots();
    for r in 0..128 {
        class_line(w, ids, &roots.of, r);
    }
}

#[tactic(auto, using(crate::proofs::Loops::line_loop), unfolding(crate::specs::Listing::nonnull_lines))]
fn nonnull_lines(w: &mut Writer, ids: &Identities, flags: &[bool; 128])
    ensures { w.new ≡ written w.old (nonnull_lines ids.now flags.now) }
{
    for (i, flag) in flags.iter().enumerate() {
        listing_lines::nonnull_line(w, ids, i as u8, *flag);
    }
}

#[tactic(auto, using(crate::proofs::Loops::line_loop), unfolding(crate::specs::Listing::literal_lines))]
fn literal_lines(w: &mut Writer, ids: &Identities, held: &[Holder; 128])
    ensures wrote { w.new ≡ written w.old (literal_lines ids.now held.now) }
    ensures typed { (i : ℕ) → Typed (get_or held.now i none).value }
{
    for (i, h) in held.iter().enumerate() {
        listing_lines::literal_line(w, ids, i as u8, *h);
    }
}

#[tactic(auto, using(crate::proofs::Loops::line_loop), unfolding(crate::specs::Listing::range_lines))]
fn range_lines(w: &mut Writer, ids: &Identities, ranges: &[Entry; 128])
    ensures { w.new ≡ written w.old (range_lines ids.now ranges.now) }
{
    for (i, e) in ranges.iter().enumerate() {
        listing_lines::range_line(w, ids, i as u8, *e);
    }
}

#[tactic(auto, using(crate::proofs::Loops::part_loop), unfolding(crate::specs::Listing::residual_lines))]
fn residual_lines(w: &mut Writer, list: &[u16; 64], n: usize)
    ensures wrote { w.new ≡ written w.old (residual_lines list.now n) }
    ensures fit { (k : ℕ) → get_or list.now k 0 < 65536 }
{
    for e in &list[..n.min(64)] {
        listing_lines::residual_line(w, *e);
    }
}

#[tactic(auto, using(writing::proofs::Writings::steps), unfolding(crate::specs::Listing::set_text))]
fn set(w: &mut Writer, ids: &Identities, s: &ConstraintSet)
    ensures wrote { w.new ≡ written w.old (set_text ids.now s.now) }
    ensures handles { (k : ℕ) → handle_at s.now k < 65536 }
    ensures literals { (i : ℕ) → Typed (literal_at s.now i).value }
{
    class_lines(w, ids, &s.equivalence_classes);
    nonnull_lines(w, ids, &s.non_null_values);
    literal_lines(w, ids, &s.literal_equalities);
    range_lines(w, ids, &s.ranges);
    residual_lines(w, &s.residual_predicates, s.residuals);
}

// The listing of the facts f of operator h. No listing is longer than 16,157 bytes, and none of facts over a plan than 15,948 (proofs/Lengths).
#[tactic(auto, using(writing::proofs::Writings::steps), unfolding(crate::specs::Listing::listing_text))]
pub fn listing(w: &mut Writer, h: usize, ids: &Identities, f: &LogicalFacts)
    ensures wrote { w.new ≡ written w.old (listing_text h ids.now f.now) }
    ensures short { length (listing_text h ids.now f.now) ≤ 16157 }
{
    listing_lines::header(w, h, f.constraints.contradictory);
    column_lines(w, ids, &f.lineage);
    define_lines(w, &f.definitions);
    set(w, ids, &f.constraints);
}

// The line of a refusal with its number and place.
#[tactic(auto, using(writing::proofs::Writings::steps), unfolding(crate::specs::Listing::refused_line))]
pub fn refused(w: &mut Writer, n: usize, p: usize)
    ensures { w.new ≡ written w.old (refused_line n p) }
{
    w.text(b"refused ");
    w.decimal(n as u64);
    w.byte(b' ');
    w.decimal(p as u64);
    w.byte(b'\n');
}
