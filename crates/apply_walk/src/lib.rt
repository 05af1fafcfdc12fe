// The conjuncts of a predicate, one after the other. An And may stand within an And some 1,000 deep, so nothing recurses here: a walk keeps a
// frame for each And that it is within.
#![tactic(auto)]

ghost use Rattle.std.specs.Prelude.{◌≡◌, ◌<◌, true, length};
ghost use Rattle.apply_walk.specs.Walks.{and_in, no_frame, frame_of, empty_walk, entered, top_frame, frame_turn, moved};

use plan::{Expressions, Items};

// An And, the place of its next operand in the item table, and how many operands are left.
#[derive(Clone, Copy)]
pub struct Frame {
    pub owner: u16,
    pub at: u16,
    pub left: u16,
}

#[derive(Clone, Copy)]
pub struct Walk {
    pub frames: [Frame; 1024],
    pub depth: usize,
}

// What a frame does next: it is done; its operand counts for nothing, or is an And to enter, or is a conjunct.
#[derive(Clone, Copy)]
pub enum Move {
    Pop,
    Skip,
    Enter(u16),
    Found(u16),
}

// Whether the expression e is an And; one that is stands in the table.
#[tactic(auto, using(crate::proofs::Guards::and_within))]
pub fn is_and(exprs: &Expressions, e: u16) -> bool
    ensures told { result ≡ and_in exprs.now e }
    ensures within { result ≡ true → e < 1024 }
{
    let i = usize::from(e);
    lists::at(&exprs.kind, i, 0) == 0x23 && lists::at(&exprs.code, i, 0) == 0
}

impl Frame {
    // No And, of which nothing is left.
    fn none() -> Frame
        ensures { result ≡ no_frame }
    {
        Frame {
            owner: 0,
            at: 0,
            left: 0,
        }
    }

    // All operands of the And e.
    pub fn of(exprs: &Expressions, e: u16) -> Frame
        ensures { result ≡ frame_of exprs.now e }
    {
        let i = usize::from(e);
        Frame {
            owner: e,
            at: exprs.start(i),
            left: lists::at(&exprs.a, i, 0),
        }
    }

    // What it does next.
    #[tactic(auto, unfolding(crate::specs::Walks::turn_of))]
    pub fn turn(self, exprs: &Expressions, items: &Items) -> Move
        ensures told { result ≡ frame_turn exprs.now items.now.a self }
        ensures long { length items.now.a ≡ 2048 }
    {
        if self.left == 0 || 2048 <= self.at {
            return Move::Pop;
        }
        let e = lists::at(&items.a, usize::from(self.at), 0);
        if self.owner <= e {
            return Move::Skip;
        }
        if is_and(exprs, e) {
            Move::Enter(e)
        } else {
            Move::Found(e)
        }
    }
}

impl Walk {
    pub const FRAMES: usize = 1024;

    #[tactic(auto, unfolding(crate::specs::Walks::empty_walk))]
    pub fn empty() -> Walk
        ensures { result ≡ empty_walk }
    {
        Walk {
            frames: [Frame::none(); 1024],
            depth: 0,
        }
    }

    // All operands of the And e are to come. A walk that has no room for its frame stays as it was.
    #[tactic(auto, unfolding(crate::specs::Walks::pushed, crate::specs::Walks::entered))]
    pub fn enter(&mut self, exprs: &Expressions, e: u16)
        ensures { self.new ≡ entered exprs.now self.old e }
    {
        if self.depth < Walk::FRAMES {
            self.frames[self.depth] = Frame::of(exprs, e);
            self.depth += 1;
        }
    }

    // The frame on top; none where there is no frame.
    fn top(&self) -> Frame
        ensures { result ≡ top_frame self.now }
    {
        match self.depth {
            0 => Frame::none(),
            depth => lists::at(&self.frames, depth - 1, Frame::none()),
        }
    }

    // What the frame on top does next, which is then done, but for an And: whether it is entered is for the caller to say. A walk with no frame is
    // done and stays so.
    #[tactic(auto, using(crate::proofs::WalkTurns::has_operand), unfolding(crate::specs::Walks::passed))]
    pub fn turn(&mut self, exprs: &Expressions, items: &Items) -> Move
        ensures told { result ≡ frame_turn exprs.now items.now.a (top_frame self.old) }
        ensures done { self.new ≡ moved self.old result }
        ensures long { length items.now.a ≡ 2048 }
    {
        let k = self.depth.saturating_sub(1);
        let frame = self.top();
        let turn = frame.turn(exprs, items);
        match turn {
            Move::Pop => self.depth = k,
            _ => lists::put(
                &mut self.frames,
                k,
                Frame {
                    at: frame.at + 1,
                    left: frame.left - 1,
                    ..frame
                },
            ),
        }
        turn
    }
}
