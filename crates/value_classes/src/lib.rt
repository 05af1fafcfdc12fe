// Which values are known to be the same, after the Rust's map of parents: an array over the identities, each its own parent at first.
#![tactic(auto)]

ghost use Rattle.std.specs.Prelude.{◌≡◌, ◌<◌, cond, ◌&&◌, ltb};
ghost use Rattle.value_classes.specs.Parents.{parent_in};
ghost use Rattle.value_classes.specs.Classes.{Whole, classes_ok, empty_classes, canonical_of, same_class, roots_joined, union_of};
ghost use Rattle.value_classes.specs.Answers.{united};
ghost use Rattle.value_classes.specs.Listed.{roots_of, members_of};

#[derive(Clone, Copy)]
pub struct ValueEquivalenceClasses {
    pub parents: [u8; 128],
}

// Each class as a chain: the first member by representative, then the next after each member. A chain ends at 128, the place past the identities:
// an Option would be no plainer, as whoever follows a chain only asks whether its next place is an identity.
#[derive(Clone, Copy)]
pub struct Members {
    pub first: [u8; 128],
    pub next: [u8; 128],
}

// The representative of each identity.
#[derive(Clone, Copy)]
pub struct Roots {
    pub of: [u8; 128],
}

impl ValueEquivalenceClasses {
    pub const IDENTITIES: usize = 128;

    #[tactic(auto, unfolding(crate::specs::Parents::each, crate::specs::Classes::empty_classes), using(crate::proofs::RootLaws::each_loop))]
    pub fn empty() -> Self
        ensures { result ≡ empty_classes }
    {
        let mut parents = [0u8; 128];
        for i in 0..128u8 {
            parents[usize::from(i)] = i;
        }
        ValueEquivalenceClasses { parents }
    }

    // Whether no parent is above its child. That there is a parent for each identity is said for those who have the classes only as part of a set.
    #[tactic(auto, unfolding(crate::specs::Parents::parents_ok), using(lists::proofs::RangeLaws::all_loop))]
    pub fn parents_ok(&self) -> bool
        ensures value { result ≡ classes_ok self.now }
        ensures whole { Whole self.now }
    {
        for i in 0..Self::IDENTITIES {
            if i < usize::from(self.parents[i]) {
                return false;
            }
        }
        true
    }

    // A parent that is no identity, and one past the identities, count for nothing.
    #[tactic(auto, unfolding(crate::specs::Parents::parent_in))]
    fn parent(&self, value: usize) -> usize
        ensures { result ≡ parent_in self.now.parents value }
    {
        if value < Self::IDENTITIES && usize::from(self.parents[value]) < Self::IDENTITIES {
            usize::from(self.parents[value])
        } else {
            value
        }
    }

    // The walk is bounded, so that a chain in a circle ends too.
    #[tactic(auto, unfolding(crate::specs::Parents::root_of), using(crate::proofs::RootLaws::climb_loop))]
    pub fn canonical(&self, value: usize) -> usize
        ensures value { result ≡ canonical_of self.now value }
        ensures small { value < 128 → result < 128 }
    {
        let mut current = value;
        for _ in 0..Self::IDENTITIES {
            let parent = self.parent(current);
            if parent == current {
                return current;
            }
            current = parent;
        }
        current
    }

    pub fn equivalent(&self, left: usize, right: usize) -> bool
        ensures { result ≡ same_class self.now left right }
    {
        self.canonical(left) == self.canonical(right)
    }

    // Of two representatives the higher one gets the lower one as its parent. Nothing changes where one of the numbers is no identity.
    pub fn join_roots(&mut self, low: usize, high: usize)
        ensures { self.new ≡ cond (ltb low 128 && ltb high 128) (roots_joined self.old low high) self.old }
    {
        if low < Self::IDENTITIES && high < Self::IDENTITIES {
            self.parents[high] = low as u8;
        }
    }

    // Whether two classes became one. The smaller root stays. A number past the identities is joined to nothing.
    #[tactic(auto, unfolding(crate::specs::Classes::union_of, crate::specs::Parents::joined), using(crate::proofs::RootLaws::root_below))]
    pub fn union(&mut self, left: usize, right: usize) -> bool
        ensures { united self.new result ≡ union_of self.old left right }
    {
        if Self::IDENTITIES <= left || Self::IDENTITIES <= right {
            return false;
        }
        let left_root = self.canonical(left);
        let right_root = self.canonical(right);
        if left_root == right_root {
            return false;
        }
        self.join_roots(left_root.min(right_root), left_root.max(right_root));
        true
    }

    // Where parents are in order, the parent's representative is known when the child's turn comes, and no chain is walked.
    #[tactic(auto, unfolding(crate::specs::Parents::each, crate::specs::Listed::roots_of), using(crate::proofs::MemberLaws::roots_loop))]
    pub fn roots(&self) -> Roots
        ensures value { result ≡ roots_of self.now }
        ensures whole { Whole self.now }
    {
        let in_order = self.parents_ok();
        let mut of = [0u8; 128];
        for i in 0..Self::IDENTITIES {
            let parent = usize::from(self.parents[i]);
            of[i] = if in_order & (parent < i) {
                of[parent]
            } else {
                self.canonical(i) as u8
            };
        }
        Roots { of }
    }

    // The classes, their members in order. From the last identity to the first, so that each finds the member after it.
    #[tactic(auto, unfolding(crate::specs::Listed::members_of), using(crate::proofs::MemberLaws::members_loop))]
    pub fn members(&self) -> Members
        ensures { result ≡ members_of self.now }
    {
        let mut first = [128u8; 128];
        let mut next = [128u8; 128];
        for i in (0..Self::IDENTITIES).rev() {
            let root = self.canonical(i);
            next[i] = first[root];
            first[root] = i as u8;
        }
        Members { first, next }
    }
}
