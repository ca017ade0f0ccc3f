// One atom: what its tree is to lie in.
#![tactic(auto, using(crate::proofs::Choices::choices), unfolding(crate::specs::Narrowing::fails, crate::specs::Narrowing::target_of, crate::specs::Narrowing::nudge_var, crate::specs::Narrowing::narrow_atom, crate::specs::Narrowing::narrow_to, crate::specs::Narrowing::aim, crate::specs::Aiming::aimed, crate::specs::Aiming::aimed_to, crate::specs::Aiming::aim_at))]

ghost use Rattle.std.specs.Prelude.{◌≡◌};
ghost use Rattle.tree.specs.Views.{the_tree};
ghost use Rattle.record.specs.Leaving.{◌leaving◌};
ghost use Rattle.record.specs.Views.{old, final};
ghost use Rattle.narrow.specs.Narrowing.{eval_interval, fails, target_of, nudge_var, nudge_tree, narrow_atom};
ghost use Rattle.narrow.specs.Aiming.{aimed, aim_at};

use crate::PropResult;
use crate::backward::{ask, backward_both, backward_propagate};
use crate::forward::{Children, Pair, eml_children, eval_interval};
use constraint::Relation;
use interval::Interval;
use settings::Settings;
use tree::{EmlTree, Node};

// four times the f64 epsilon
const EPS: f64 = 8.881784197001252e-16;

// Whether no value in v compares with zero as the relation says.
fn fails(settings: Settings, relation: Relation, v: Interval) -> bool
    ensures { result ≡ fails settings relation v }
{
    match relation {
        Relation::EqZero => (v.lo > 0.0) | (v.hi < 0.0),
        Relation::GtZero => v.hi <= 0.0,
        Relation::GeZero => v.hi < 0.0,
        Relation::LtZero => v.lo >= 0.0,
        Relation::LeZero => v.lo > 0.0,
        Relation::NeZero => { (v.width() < settings.slack) & (number::abs(v.lo) < settings.slack) }
    }
}

// What a tree in v is to lie in. NeZero says nothing of it, but moves an end of a bare variable off zero.
fn target_of(relation: Relation, v: Interval) -> Option<Interval>
    ensures { result ≡ target_of relation v }
{
    match relation {
        Relation::EqZero => Some(Interval::point(0.0)),
        Relation::GtZero => Some(Interval::new(number::max(v.lo, EPS), v.hi)),
        Relation::GeZero => Some(Interval::new(number::max(v.lo, 0.0), v.hi)),
        Relation::LtZero => Some(Interval::new(v.lo, number::min(v.hi, -EPS))),
        Relation::LeZero => Some(Interval::new(v.lo, number::min(v.hi, 0.0))),
        Relation::NeZero => None,
    }
}

// The box of variable i is moved off zero.
fn nudge_var(i: usize, boxes: &mut [Interval]) -> PropResult
    ensures { (result leaving final boxes) ≡ nudge_var i (old boxes) }
{
    if boxes.len() <= i {
        return PropResult::Stable;
    }
    let v = boxes[i];
    if (v.lo == 0.0) & (v.hi > 0.0) {
        boxes[i] = Interval::new(number::next_up(0.0), v.hi);
        return PropResult::Changed;
    }
    if (v.hi == 0.0) & (v.lo < 0.0) {
        boxes[i] = Interval::new(v.lo, number::next_down(0.0));
        return PropResult::Changed;
    }
    PropResult::Stable
}

#[tactic(auto, using(crate::proofs::Choices::choices), unfolding(crate::specs::Narrowing::nudge_tree))]
fn nudge(tree: EmlTree, boxes: &mut [Interval]) -> PropResult
    ensures { (result leaving final boxes) ≡ nudge_tree (the_tree tree.entry) (old boxes) }
{
    let Node::Var(i) = tree.node() else {
        return PropResult::Stable;
    };
    nudge_var(i, boxes)
}

// What an Eml that is to compare with zero as the relation says asks of its children. What is computed of them forward is used backward.
fn aim(settings: Settings, relation: Relation, c: Children) -> Result<Pair, PropResult>
    ensures { result ≡ aimed settings relation c }
{
    let v = c.exp_left.minus(c.ln_right);
    if v.is_empty() || fails(settings, relation, v) {
        return Err(PropResult::Conflict);
    }
    let out = target_of(relation, v).ok_or(PropResult::Stable)?;
    if out.is_empty() {
        return Err(PropResult::Conflict);
    }
    ask(out, c)
}

// From the children. A function of its own, since the law that an Eml may be aimed at is said of what this gives.
fn aim_at(
    left: EmlTree,
    right: EmlTree,
    settings: Settings,
    relation: Relation,
    boxes: &[Interval],
) -> Result<Pair, PropResult>
    ensures { result ≡ aim_at settings relation (eval_interval boxes.now (the_tree left.entry)) (eval_interval boxes.now (the_tree right.entry)) }
{
    aim(settings, relation, eml_children(left, right, boxes)?)
}

// The tree is to compare with zero as the relation says.
fn narrow_other(
    tree: EmlTree,
    settings: Settings,
    relation: Relation,
    boxes: &mut [Interval],
) -> PropResult
    ensures { (result leaving final boxes) ≡ narrow_atom settings relation (the_tree tree.entry) (old boxes) }
{
    let Some(v) = eval_interval(tree, boxes) else {
        return PropResult::Stable;
    };
    if v.is_empty() || fails(settings, relation, v) {
        return PropResult::Conflict;
    }
    match target_of(relation, v) {
        Some(out) => backward_propagate(tree, settings, out, boxes),
        None => nudge(tree, boxes),
    }
}

// The same, with an Eml's children computed once.
#[tactic(auto, using(crate::specs::Aiming::eml_aimed))]
pub fn narrow_atom(
    tree: EmlTree,
    settings: Settings,
    relation: Relation,
    boxes: &mut [Interval],
) -> PropResult
    ensures { (result leaving final boxes) ≡ narrow_atom settings relation (the_tree tree.entry) (old boxes) }
{
    let Node::Eml(left, right) = tree.node() else {
        return narrow_other(tree, settings, relation, boxes);
    };
    let demand = aim_at(left, right, settings, relation, boxes);
    backward_both(left, right, settings, demand, boxes)
}
