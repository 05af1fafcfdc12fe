// Appending to one table of a plan: what recurses over a plan, or appends much, is lent the tables that it grows, each apart from the others. Each answers
// the handle of what it appended, or that there is no room, and then nothing is changed.
#![tactic(auto)]

ghost use Rattle.std.specs.Prelude.{◌≡◌};
ghost use Rattle.plan_data.specs.Nodes.{record_of_expr, record_of_operator};
ghost use Rattle.plan_append.specs.Appending.{grown_to, expr_added, item_added, operator_added};

use plan::{AppendError, Expressions, Items, Operators, Plan};
use plan_data::{ExprData, OperatorData};
use plan_kinds::Record;

// Appends the record of an expression whose list starts at `first`.
#[tactic(auto, unfolding(crate::specs::Appending::expr_added))]
pub fn add_expr(t: &mut Expressions, x: Record, first: u16) -> Result<u16, AppendError>
    ensures { grown_to t.new result ≡ expr_added t.old x first }
{
    let n = t.count;
    if Plan::EXPRESSIONS <= n {
        return Err(AppendError::Room);
    }
    t.push(x, first);
    Ok(n)
}

// The same of a node. A Nary's list starts at `first`; for any other node that is the number of items there are.
pub fn add_node(t: &mut Expressions, node: ExprData, first: u16) -> Result<u16, AppendError>
    ensures { grown_to t.new result ≡ expr_added t.old (record_of_expr node) first }
{
    add_expr(t, Record::from(node), first)
}

// Appends an item of two numbers.
#[tactic(auto, unfolding(crate::specs::Appending::item_added))]
pub fn add_item(t: &mut Items, x: u16, y: u16) -> Result<u16, AppendError>
    ensures { grown_to t.new result ≡ item_added t.old x y }
{
    let n = t.count;
    if Plan::ITEMS <= n {
        return Err(AppendError::Room);
    }
    t.push(Record {
        kind: 0,
        code: 0,
        a: x,
        b: y,
        c: 0,
        d: 0,
        bits: 0,
    });
    Ok(n)
}

// Appends the record of an operator whose lists start at `first`.
#[tactic(auto, unfolding(crate::specs::Appending::operator_added))]
pub fn add_operator(t: &mut Operators, x: Record, first: u16) -> Result<u16, AppendError>
    ensures { grown_to t.new result ≡ operator_added t.old x first }
{
    let n = t.count;
    if Plan::OPERATORS <= n {
        return Err(AppendError::Room);
    }
    t.push(x, first);
    Ok(n)
}

// The same of an operator as the Rust has it.
pub fn add_operator_node(
    t: &mut Operators,
    node: OperatorData,
    first: u16,
) -> Result<u16, AppendError>
    ensures { grown_to t.new result ≡ operator_added t.old (record_of_operator node) first }
{
    add_operator(t, Record::from(node), first)
}
