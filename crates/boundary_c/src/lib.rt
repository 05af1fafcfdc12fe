// The library's functions as C calls them: each export calls the function of its name and promises the same.
#![tactic(auto)]

ghost use Rattle.std.specs.Prelude.{◌≡◌};
ghost use Rattle.plan_file.specs.Steps.{read_of};
ghost use Rattle.writing.specs.Text.{Wrote};
ghost use Rattle.boundary.specs.Replies.{read_reply, on_plan, derive_reply, facts_reply, apply_reply, simplify_reply, evaluate_reply, row_in};

// Reads a plan file: the refusal and its place, or the plan's bytes, columns first, then expressions, then operators.
#[unsafe(no_mangle)]
pub extern "C" fn mossladder_read(file: &[u8], out: &mut [u8]) -> usize
    ensures { Wrote out.old 0 out.new result (read_reply (read_of file.now)) }
{
    boundary::mossladder_read(file, out)
}

// Lists the facts of an operator of a plan file.
#[unsafe(no_mangle)]
pub extern "C" fn mossladder_derive(file: &[u8], operator: u16, out: &mut [u8]) -> usize
    ensures { Wrote out.old 0 out.new result (on_plan (derive_reply operator) (read_of file.now)) }
{
    boundary::mossladder_derive(file, operator, out)
}

// Lists the facts of the last operator of a plan file.
#[unsafe(no_mangle)]
pub extern "C" fn mossladder_facts(file: &[u8], out: &mut [u8]) -> usize
    ensures { Wrote out.old 0 out.new result (on_plan facts_reply (read_of file.now)) }
{
    boundary::mossladder_facts(file, out)
}

// Applies predicates, one after the other, to the facts of an operator, and lists what is then known.
#[unsafe(no_mangle)]
pub extern "C" fn mossladder_apply(
    file: &[u8],
    operator: u16,
    predicates: &[u16],
    out: &mut [u8],
) -> usize
    ensures { Wrote out.old 0 out.new result (on_plan (apply_reply operator predicates.now) (read_of file.now)) }
{
    boundary::mossladder_apply(file, operator, predicates, out)
}

// Simplifies the expressions of an operator, and hands back the plan with what was appended.
#[unsafe(no_mangle)]
pub extern "C" fn mossladder_simplify(file: &[u8], operator: u16, out: &mut [u8]) -> usize
    ensures { Wrote out.old 0 out.new result (on_plan (simplify_reply operator) (read_of file.now)) }
{
    boundary::mossladder_simplify(file, operator, out)
}

// The truth value of an expression on a row, of which the three runs have a literal's case, code and payload for each column.
#[unsafe(no_mangle)]
pub extern "C" fn mossladder_evaluate(
    file: &[u8],
    expr: u16,
    case: &[u8],
    code: &[u8],
    bits: &[u64],
    out: &mut [u8],
) -> usize
    ensures { Wrote out.old 0 out.new result (on_plan (evaluate_reply expr (row_in case.now code.now bits.now))
        (read_of file.now)) }
{
    boundary::mossladder_evaluate(file, expr, case, code, bits, out)
}
