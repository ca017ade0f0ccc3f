// Forward: the interval of a tree's values, where real arithmetic can tell.
#![tactic(auto, using(crate::proofs::Choices::choices), unfolding(crate::specs::Narrowing::eval_interval, crate::specs::Narrowing::forward, crate::specs::Narrowing::children))]

ghost use Rattle.std.specs.Prelude.{◌≡◌};
ghost use Rattle.tree.specs.Views.{the_tree};
ghost use Rattle.narrow.specs.Narrowing.{eml_interval, forward, eval_interval, children};

use crate::PropResult;
use interval::Interval;
use tree::{EmlTree, Node};

// An interval for each child of an Eml.
#[derive(Clone, Copy)]
pub struct Pair {
    pub left: Interval,
    pub right: Interval,
}

// exp(l) - ln(r), where real arithmetic can tell
#[tactic(auto, using(crate::proofs::Choices::choices), unfolding(crate::specs::Narrowing::eml_interval))]
fn eml_interval(l: Interval, r: Interval) -> Option<Interval>
    ensures { result ≡ eml_interval l r }
{
    if l.is_empty() | r.is_empty() {
        return Some(Interval::new(f64::INFINITY, f64::NEG_INFINITY));
    }
    if r.has_ln() {
        return Some(l.exp().minus(r.ln()));
    }
    None
}

// The interval of the tree's values, where real arithmetic can tell. A leaf, which half of the nodes are, costs no call.
#[inline(always)]
#[cycle(forward)]
pub fn eval_interval(tree: EmlTree, boxes: &[Interval]) -> Option<Interval>
    ensures { result ≡ eval_interval boxes.now (the_tree tree.entry) }
{
    match tree.node() {
        Node::One => Some(Interval::point(1.0)),
        Node::Const(v) => Some(Interval::point(v)),
        Node::Var(i) => Some(interval::box_at(boxes, i)),
        Node::Eml(left, right) => eval_eml(left, right, boxes),
    }
}

// An Eml's, by those of its children.
#[cycle(forward)]
fn eval_eml(left: EmlTree, right: EmlTree, boxes: &[Interval]) -> Option<Interval>
    ensures { result ≡ forward (eval_interval boxes.now (the_tree left.entry)) (eval_interval boxes.now (the_tree right.entry)) }
{
    let l = eval_interval(left, boxes)?;
    let r = eval_interval(right, boxes)?;
    eml_interval(l, r)
}

// An Eml's children, and what is computed of them forward.
#[derive(Clone, Copy)]
pub struct Children {
    pub left: Interval,
    pub right: Interval,
    pub exp_left: Interval,
    pub ln_right: Interval,
}

// Those of an Eml of two trees, or what it answers at once: an `Err` is such an answer and no failure, and `?` hands it on. (Inlined, as `ask` and
// `of_sound_ends`: an answer of several intervals is else written to memory and read again.)
#[inline(always)]
pub fn eml_children(
    left: EmlTree,
    right: EmlTree,
    boxes: &[Interval],
) -> Result<Children, PropResult>
    ensures { result ≡ children (eval_interval boxes.now (the_tree left.entry)) (eval_interval boxes.now (the_tree right.entry)) }
{
    let left = eval_interval(left, boxes).ok_or(PropResult::Stable)?;
    let right = eval_interval(right, boxes).ok_or(PropResult::Stable)?;
    if left.is_empty() | right.is_empty() {
        return Err(PropResult::Conflict);
    }
    if !right.has_ln() {
        return Err(PropResult::Stable);
    }
    Ok(Children {
        left,
        right,
        exp_left: left.exp(),
        ln_right: right.ln(),
    })
}
