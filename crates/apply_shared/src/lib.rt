// The conjuncts of a predicate, without some of those that stand both before and after. An And that several paths reach is walked through at
// its first and at its last visit: its conjuncts with their repeats can be exponentially many, while the steps taken here are at most two for
// each frame and operand of the tables.
#![tactic(auto)]

ghost use Rattle.std.specs.Prelude.{◌≡◌, true, false, List, [], ℕ, ◌<◌, ◌≤◌, get_or, set, take, IfSome};
ghost use Rattle.plan_data.specs.Nodes.{node_of, node_from};
ghost use Rattle.apply_spec.specs.Conjuncts.{conjuncts_of};
ghost use Rattle.apply_walk.specs.Walks.{and_in};
ghost use Rattle.apply_walk.specs.Rests.{Good};
ghost use Rattle.apply_shared.specs.Thinned.{Thinned};
ghost use Rattle.apply_shared.specs.Turns.{mark_at, with_mark, GoesOn};

use apply_walk::{Frame, Move, Walk};
use plan::{Expressions, Items};

// The first `count` handles are the conjuncts kept.
#[derive(Clone, Copy)]
pub struct Thin {
    pub handles: [u16; 2048],
    pub count: usize,
}

// Where an expression is an operand: of which And, and at which place among the items.
#[derive(Clone, Copy, PartialEq, Eq)]
struct Place {
    owner: u16,
    at: u16,
}

// The operands of an And that are still to be gone through backward: from the place `first` on, up to `end`.
#[derive(Clone, Copy)]
struct Span {
    owner: u16,
    first: u16,
    end: u16,
}

// An expression is seen when all of its conjuncts are kept: another conjunct once it is found, an And once its frame is done. What is seen may
// be passed over; it is owed then, until it comes again.
#[derive(Clone, Copy)]
struct Mark {
    seen: bool,
    owed: bool,
}

// A walk with what was kept and passed over on it: whether each frame is the last visit to its And, and a mark for each handle.
#[derive(Clone, Copy)]
struct Thinner {
    walk: Walk,
    last: [bool; 1024],
    marks: [Mark; 1024],
    thin: Thin,
}

impl Thin {
    pub fn kept(&self) -> &[u16]
        ensures { result.now ≡ take self.now.count self.now.handles }
    {
        &self.handles[..self.count.min(2048)]
    }
}

impl Span {
    fn of(exprs: &Expressions, e: u16) -> Span {
        let first = exprs.start(usize::from(e));
        let count = lists::at(&exprs.a, usize::from(e), 0);
        Span {
            owner: e,
            first,
            end: first.saturating_add(count).min(2048),
        }
    }
}

// By handle, where it stands for the last time in the And e, gone through backward: what is met first stands last. Each And is entered once, so
// that the turns are at most one for each And and each operand of it: the bound is more than that, and only says that the loop ends. Nothing is
// promised of the places: an operand passed over that does not come again is found out by the walk itself.
fn last_places(exprs: &Expressions, items: &Items, e: u16) -> [Option<Place>; 1024] {
    let mut lasts = [None; 1024];
    let mut spans = [Span::of(exprs, e); 1024];
    let mut depth: usize = 1;
    for _ in 0..2_200_000u32 {
        if depth == 0 {
            break;
        }
        let k = depth - 1;
        let Span { owner, first, end } = spans[k];
        if end <= first {
            depth = k;
            continue;
        }
        let at = end - 1;
        spans[k].end = at;
        let h = lists::at(&items.a, usize::from(at), 0);
        if h < owner && h < 1024 && lasts[usize::from(h)].is_none() {
            lasts[usize::from(h)] = Some(Place { owner, at });
            if depth < 1024 && apply_walk::is_and(exprs, h) {
                spans[depth] = Span::of(exprs, h);
                depth += 1;
            }
        }
    }
    lasts
}

// Whether the operand x of a frame stands there for the last time in its And.
fn stands_last(lasts: &[Option<Place>; 1024], x: u16, frame: Frame) -> bool {
    let place = Place {
        owner: frame.owner,
        at: frame.at,
    };
    lists::at(lasts, usize::from(x), None) == Some(place)
}

impl Thinner {
    // Whether x is passed over, here where it stands for the last time or not.
    fn passes_over(&mut self, x: u16, last: bool) -> bool
        requires { x < 1024 }
        ensures marked { self.new ≡ with_mark self.old x result }
        ensures seen { result ≡ true → (mark_at self.old.marks x).seen ≡ true }
    {
        let mark = &mut self.marks[usize::from(x)];
        let over = !last && mark.seen;
        mark.owed = over;
        over
    }

    // One turn of the walk.
    #[tactic(auto, using(crate::proofs::Thinning::frame_within))]
    fn turn(&mut self, exprs: &Expressions, items: &Items, lasts: &[Option<Place>; 1024])
        requires good { Good self.old.walk }
        requires some { 0 < self.old.walk.depth }
        requires room { self.old.thin.count < 2048 }
        ensures { GoesOn exprs.now items.now.a self.old self.new }
    {
        let k = self.walk.depth - 1;
        let frame = self.walk.frames[k];
        let last_visit = self.last[k];
        let turn = self.walk.turn(exprs, items);
        match turn {
            Move::Pop => self.marks[usize::from(frame.owner)].seen = true,
            Move::Skip => {}
            Move::Enter(x) => {
                let last = last_visit && stands_last(lasts, x, frame);
                if !self.passes_over(x, last) {
                    self.last[k + 1] = last;
                    self.walk.enter(exprs, x);
                }
            }
            Move::Found(x) => {
                let last = last_visit && stands_last(lasts, x, frame);
                if !self.passes_over(x, last) {
                    self.marks[usize::from(x)].seen = true;
                    self.thin.handles[self.thin.count] = x;
                    self.thin.count += 1;
                }
            }
        }
    }

    fn none_owed(&self) -> bool
        ensures { result ≡ true → (h : ℕ) → (mark_at self.now.marks h).owed ≡ false }
    {
        !self.marks.iter().any(|mark| mark.owed)
    }
}

// The conjuncts of the And e, by the places where each handle stands for the last time.
#[tactic(auto, using(crate::proofs::Thinning::ended))]
fn of_and(exprs: &Expressions, items: &Items, lasts: &[Option<Place>; 1024], e: u16) -> Option<Thin>
    requires is_and { and_in exprs.now e ≡ true }
    requires within { e < 1024 }
    ensures count_bound { IfSome result (λ t. t.count ≤ 2048) }
    ensures thinned { IfSome result (λ t. Thinned []
        (conjuncts_of (node_from exprs.now) items.now.a e) (take t.count t.handles)) }
{
    let mark = Mark {
        seen: false,
        owed: false,
    };
    let mut thinner = Thinner {
        walk: Walk::empty(),
        last: [true; 1024],
        marks: [mark; 1024],
        thin: Thin {
            handles: [0; 2048],
            count: 0,
        },
    };
    thinner.walk.enter(exprs, e);
    // It ends by the steps that are left of the walk: a `for` would need a bound of turns.
    while 0 < thinner.walk.depth && thinner.thin.count < 2048 {
        thinner.turn(exprs, items, lasts);
    }
    if thinner.walk.depth == 0 && thinner.none_owed() {
        Some(thinner.thin)
    } else {
        None
    }
}

// The conjuncts of the And or other expression e: each at its first and its last place, and maybe at some between. None where the walk did not
// come to its end, or passed over what did not come again. Second operands and literals are not read.
pub fn thinned_conjuncts(exprs: &Expressions, items: &Items, e: u16) -> Option<Thin>
    ensures count_bound { IfSome result (λ t. t.count ≤ 2048) }
    ensures thinned { IfSome result (λ t. Thinned []
        (conjuncts_of (node_from exprs.now) items.now.a e) (take t.count t.handles)) }
    ensures unread { (b bits : List ℕ) → IfSome result (λ t. Thinned []
        (conjuncts_of (node_of exprs.now.kind exprs.now.code exprs.now.a b bits exprs.now.start) items.now.a e) (take t.count t.handles)) }
{
    if apply_walk::is_and(exprs, e) {
        of_and(exprs, items, &last_places(exprs, items, e), e)
    } else {
        Some(Thin {
            handles: [e; 2048],
            count: 1,
        })
    }
}
