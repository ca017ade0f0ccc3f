// Backward: what a node's value is to lie in is passed on to its children, down to the variables.
#![tactic(auto, using(crate::proofs::Choices::choices, crate::proofs::Choices::back_empty), unfolding(crate::specs::Narrowing::left_of, crate::specs::Narrowing::fixed_at, crate::specs::Narrowing::narrow_var, crate::specs::Narrowing::demand, crate::specs::Narrowing::backward, crate::specs::Narrowing::ask_both, crate::specs::Aiming::common_of))]

ghost use Rattle.std.specs.Prelude.{◌≡◌};
ghost use Rattle.tree.specs.Views.{the_tree};
ghost use Rattle.record.specs.Leaving.{◌leaving◌};
ghost use Rattle.record.specs.Views.{old, final};
ghost use Rattle.narrow.specs.Narrowing.{left_of, ask as ask_of, ask_both, fixed_at, narrow_var, backward};
ghost use Rattle.narrow.specs.Aiming.{common_of};

use crate::PropResult;
use crate::forward::{Children, Pair, eml_children};
use interval::Interval;
use settings::Settings;
use tree::{EmlTree, Node};

// The common part of two intervals, or Conflict.
fn common(i: Interval, j: Interval) -> Result<Interval, PropResult>
    ensures { result ≡ common_of i j }
{
    let both = i.intersect(j);
    if both.is_empty() {
        return Err(PropResult::Conflict);
    }
    Ok(both)
}

// Where exp(left) is to lie in `range`, what left, which lies in l, is to lie in.
fn left_of(l: Interval, range: Interval) -> Interval
    ensures { result ≡ left_of l range }
{
    if range.lo > 0.0 {
        return l.intersect(range.exp_inv());
    }
    l
}

// What an Eml that is to lie in out asks of its children, or answers at once: out = exp(left) - ln(right).
#[tactic(auto, using(crate::proofs::Choices::choices), unfolding(crate::specs::Narrowing::ask, crate::specs::Aiming::common_of))]
#[inline(always)]
pub fn ask(out: Interval, c: Children) -> Result<Pair, PropResult>
    ensures { result ≡ ask_of out c }
{
    let out_c = common(out, c.exp_left.minus(c.ln_right))?;
    let exp_c = common(c.exp_left, out_c.plus(c.ln_right))?;
    let ln_c = common(c.ln_right, c.exp_left.minus(out_c))?;
    Ok(Pair {
        left: left_of(c.left, exp_c),
        right: c.right.intersect(ln_c.ln_inv()),
    })
}

// A node of the one value v is to lie in out.
fn fixed_at(v: f64, out: Interval) -> PropResult
    ensures { result ≡ fixed_at v out }
{
    if out.contains(v) {
        return PropResult::Stable;
    }
    PropResult::Conflict
}

// Variable i is to lie in out.
fn narrow_var(i: usize, settings: Settings, out: Interval, boxes: &mut [Interval]) -> PropResult
    ensures { (result leaving final boxes) ≡ narrow_var settings i out (old boxes) }
{
    let old = interval::box_at(boxes, i);
    let new = old.intersect(out);
    if new.is_empty() {
        return PropResult::Conflict;
    }
    if !old.moves(new, settings.slack) {
        return PropResult::Stable;
    }
    // beyond the list there is nothing to write
    if i < boxes.len() {
        boxes[i] = new;
    }
    PropResult::Changed
}

// The tree is to lie in out.
#[cycle(backward)]
pub fn backward_propagate(
    tree: EmlTree,
    settings: Settings,
    out: Interval,
    boxes: &mut [Interval],
) -> PropResult
    ensures { (result leaving final boxes) ≡ backward settings (the_tree tree.entry) out (old boxes) }
{
    if out.is_empty() {
        return PropResult::Conflict;
    }
    match tree.node() {
        Node::One => fixed_at(1.0, out),
        Node::Const(v) => fixed_at(v, out),
        Node::Var(i) => narrow_var(i, settings, out, boxes),
        Node::Eml(left, right) => {
            let demand = eml_children(left, right, boxes).and_then(|c| ask(out, c));
            backward_both(left, right, settings, demand, boxes)
        }
    }
}

// Passes on what an Eml asks of its children. Right is asked what was computed before left wrote, also after left's Conflict.
#[cycle(backward)]
pub fn backward_both(
    left: EmlTree,
    right: EmlTree,
    settings: Settings,
    demand: Result<Pair, PropResult>,
    boxes: &mut [Interval],
) -> PropResult
    ensures { (result leaving final boxes) ≡ ask_both demand (backward settings (the_tree left.entry)) (backward settings (the_tree right.entry)) (old boxes) }
{
    match demand {
        Ok(asked) => {
            let first = backward_propagate(left, settings, asked.left, boxes);
            let second = backward_propagate(right, settings, asked.right, boxes);
            first.max(second)
        }
        Err(result) => result,
    }
}
