// What programs in other languages call: bytes of a plan file and numbers in, a reply as bytes out. A reply is the number of the refusal, 0 for
// none; a number of eight bytes, high byte first; and what is handed back. Each function writes as much of its reply as `out` has room for and
// answers where that ended. Every input has a reply.
#![tactic(auto)]

ghost use Rattle.std.specs.Prelude.{◌≡◌};
ghost use Rattle.plan_file.specs.Steps.{read_of};
ghost use Rattle.writing.specs.Text.{Wrote};
ghost use Rattle.writing.specs.Writers.{written};
ghost use Rattle.boundary.specs.Replies.{head_of, read_reply, on_plan, known_reply, derive_reply, facts_reply, turned, in_turn, turn_reply, apply_reply};
ghost use Rattle.boundary.specs.Replies.{simplify_reply, evaluate_reply, row_in};

use apply_spec::{FactsError, LogicalFacts};
use file_facts::{Known, Refusal};
use plan::{Expr, Operator, Plan};
use plan_identities::Identities;
use refusals::Refusal as _;
use rows_spec::{Cell, Row};
use writing::Writer;

// The first predicate of a run that was refused, and why.
#[derive(Clone, Copy)]
struct Turned {
    place: usize,
    error: FactsError,
}

// ---- replies

#[tactic(auto, using(writing::proofs::Writings::steps), unfolding(crate::specs::Replies::head_of))]
fn head(w: &mut Writer, number: u8, place: u64)
    ensures { w.new ≡ written w.old (head_of number place) }
{
    w.byte(number);
    plan_file_write::put8(w, place);
}

// A refusal, with nothing handed back.
fn refused(w: &mut Writer, refusal: Refusal)
    ensures { w.new ≡ written w.old (head_of refusal.number refusal.place) }
{
    head(w, refusal.number, refusal.place as u64);
}

// The listing, or the refusal.
#[tactic(auto, using(writing::proofs::Writings::steps))]
fn known_reply(w: &mut Writer, k: &Result<Known, Refusal>)
    ensures { w.new ≡ written w.old (known_reply k.now) }
{
    match k {
        Ok(known) => {
            head(w, 0, 0);
            listing::listing(
                w,
                usize::from(known.operator),
                &known.identities,
                &known.facts,
            );
        }
        Err(refusal) => refused(w, *refusal),
    }
}

// Predicates applied to the facts f one after the other; the first that is refused ends it.
#[tactic(auto, using(crate::proofs::ReplyLaws::turn_loop))]
fn in_turn(p: &Plan, f: &mut LogicalFacts, predicates: &[u16]) -> Result<(), Turned>
    ensures { turned f.new result ≡ in_turn p.now f.old predicates.now 0 }
{
    for (place, e) in predicates.iter().enumerate() {
        if let Err(error) = apply_predicate::apply_predicate(p, f, Expr(*e)) {
            return Err(Turned { place, error });
        }
    }
    Ok(())
}

#[tactic(auto, using(writing::proofs::Writings::steps), unfolding(crate::specs::Replies::turn_reply))]
fn turn_reply(w: &mut Writer, ids: &Identities, h: u16, f: &LogicalFacts, turn: Result<(), Turned>)
    ensures { w.new ≡ written w.old (turn_reply ids.now h (turned f.now turn)) }
{
    match turn {
        Ok(()) => head(w, 0, 0),
        Err(refused) => head(w, refused.error.number(), refused.place as u64),
    }
    listing::listing(w, usize::from(h), ids, f);
}

#[tactic(auto, using(crate::proofs::ReplyLaws::apply_steps))]
fn apply(w: &mut Writer, p: &Plan, h: u16, predicates: &[u16])
    ensures { w.new ≡ written w.old (apply_reply h predicates.now p.now) }
{
    match &mut file_facts::of_plan(p, h) {
        Ok(known) => {
            let turn = in_turn(p, &mut known.facts, predicates);
            turn_reply(w, &known.identities, h, &known.facts, turn);
        }
        Err(refusal) => refused(w, *refusal),
    }
}

#[tactic(auto, using(crate::proofs::ReplyLaws::simplify_steps), unfolding(crate::specs::Replies::simplify_reply, crate::specs::Replies::rewrite_reply))]
fn simplify(w: &mut Writer, p: &mut Plan, o: u16)
    ensures { w.new ≡ written w.old (simplify_reply o p.old) }
{
    let rewrite = expr_simplify::simplify(p, Operator(o));
    head(
        w,
        refusals::number(&rewrite),
        u64::from(refusals::standing(&rewrite)),
    );
    plan_file_write::write(w, p);
}

#[tactic(auto, using(crate::proofs::ReplyLaws::evaluate_steps), unfolding(crate::specs::Replies::evaluate_reply))]
fn evaluate(w: &mut Writer, p: &Plan, e: u16, row: &Row)
    ensures { w.new ≡ written w.old (evaluate_reply e row.now p.now) }
{
    let value = rows::evaluate(p, Expr(e), row);
    head(
        w,
        refusals::number(&value),
        u64::from(refusals::truth_found(&value)),
    );
}

// A row out of three runs of numbers; a cell that is not given is of the case 0, which no literal has.
#[tactic(auto, using(crate::proofs::ReplyLaws::cells_loop))]
fn row_in(case: &[u8], code: &[u8], bits: &[u64]) -> Row
    ensures { result ≡ row_in case.now code.now bits.now }
{
    let mut cells = [Cell {
        case: 0,
        code: 0,
        bits: 0,
    }; 64];
    for c in 0..64 {
        cells[c] = Cell {
            case: lists::at(case, c, 0),
            code: lists::at(code, c, 0),
            bits: lists::at(bits, c, 0),
        };
    }
    Row { cells }
}

// ---- from the bytes of a file on

#[tactic(auto, using(crate::proofs::ReplyLaws::read_steps))]
fn read(w: &mut Writer, file: &[u8])
    ensures { w.new ≡ written w.old (read_reply (read_of file.now)) }
{
    match &plan_file::read(file) {
        Ok(p) => {
            head(w, 0, 0);
            plan_file_write::write(w, p);
        }
        Err(e) => refused(w, Refusal::from(*e)),
    }
}

#[tactic(auto, using(crate::proofs::ReplyLaws::plan_steps))]
fn read_and_apply(w: &mut Writer, file: &[u8], operator: u16, predicates: &[u16])
    ensures { w.new ≡ written w.old (on_plan (apply_reply operator predicates.now) (read_of file.now)) }
{
    match &plan_file::read(file) {
        Ok(p) => apply(w, p, operator, predicates),
        Err(e) => refused(w, Refusal::from(*e)),
    }
}

#[tactic(auto, using(crate::proofs::ReplyLaws::plan_steps))]
fn read_and_simplify(w: &mut Writer, file: &[u8], operator: u16)
    ensures { w.new ≡ written w.old (on_plan (simplify_reply operator) (read_of file.now)) }
{
    match &mut plan_file::read(file) {
        Ok(p) => simplify(w, p, operator),
        Err(e) => refused(w, Refusal::from(*e)),
    }
}

#[tactic(auto, using(crate::proofs::ReplyLaws::plan_steps))]
fn read_and_evaluate(w: &mut Writer, file: &[u8], expr: u16, row: &Row)
    ensures { w.new ≡ written w.old (on_plan (evaluate_reply expr row.now) (read_of file.now)) }
{
    match &plan_file::read(file) {
        Ok(p) => evaluate(w, p, expr, row),
        Err(e) => refused(w, Refusal::from(*e)),
    }
}

// ---- the functions that are called from outside

// Reads a plan file: the refusal and its place, or the plan's bytes, columns first, then expressions, then operators.
pub fn mossladder_read(file: &[u8], out: &mut [u8]) -> usize
    ensures { Wrote out.old 0 out.new result (read_reply (read_of file.now)) }
{
    let mut w = Writer::new(out);
    read(&mut w, file);
    w.at
}

// Lists the facts of an operator of a plan file.
pub fn mossladder_derive(file: &[u8], operator: u16, out: &mut [u8]) -> usize
    ensures { Wrote out.old 0 out.new result (on_plan (derive_reply operator) (read_of file.now)) }
{
    let mut w = Writer::new(out);
    known_reply(&mut w, &file_facts::of_operator(file, operator));
    w.at
}

// Lists the facts of the last operator of a plan file.
pub fn mossladder_facts(file: &[u8], out: &mut [u8]) -> usize
    ensures { Wrote out.old 0 out.new result (on_plan facts_reply (read_of file.now)) }
{
    let mut w = Writer::new(out);
    known_reply(&mut w, &file_facts::of_last(file));
    w.at
}

// Applies predicates, one after the other, to the facts of an operator, and lists what is then known.
pub fn mossladder_apply(file: &[u8], operator: u16, predicates: &[u16], out: &mut [u8]) -> usize
    ensures { Wrote out.old 0 out.new result (on_plan (apply_reply operator predicates.now) (read_of file.now)) }
{
    let mut w = Writer::new(out);
    read_and_apply(&mut w, file, operator, predicates);
    w.at
}

// Simplifies the expressions of an operator, and hands back the plan with what was appended.
pub fn mossladder_simplify(file: &[u8], operator: u16, out: &mut [u8]) -> usize
    ensures { Wrote out.old 0 out.new result (on_plan (simplify_reply operator) (read_of file.now)) }
{
    let mut w = Writer::new(out);
    read_and_simplify(&mut w, file, operator);
    w.at
}

// The truth value of an expression on a row, of which the three runs have a literal's case, code and payload for each column.
pub fn mossladder_evaluate(
    file: &[u8],
    expr: u16,
    case: &[u8],
    code: &[u8],
    bits: &[u64],
    out: &mut [u8],
) -> usize
    ensures { Wrote out.old 0 out.new result (on_plan (evaluate_reply expr (row_in case.now code.now bits.now))
        (read_of file.now)) }
{
    let mut w = Writer::new(out);
    read_and_evaluate(&mut w, file, expr, &row_in(case, code, bits));
    w.at
}
