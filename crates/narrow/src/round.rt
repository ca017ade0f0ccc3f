// One round: a constraint's atoms narrow in their order, and an Or goes on with what its branches leave.
#![tactic(auto, using(crate::proofs::Choices::choices), unfolding(crate::specs::Narrowing::survive, crate::specs::Narrowing::hull_with, crate::specs::Narrowing::tightened, crate::specs::Narrowing::adopt_survivors))]

ghost use Rattle.std.specs.Prelude.{◌≡◌, ◌≤◌, length, None, option_map};
ghost use Rattle.interval.specs.Views.{intervals_of};
ghost use Rattle.tree.specs.Views.{the_tree};
ghost use Rattle.record.specs.Leaving.{◌leaving◌};
ghost use Rattle.record.specs.Views.{old, final};
ghost use Rattle.constraint.specs.Records.{gather};
ghost use Rattle.constraint.specs.Views.{meaning, meanings};
ghost use Rattle.narrow.specs.Narrowing.{hulls, survive as survive_of, tightened, adopt as adopt_of, adopt_survivors};
ghost use Rattle.narrow.specs.Modes.{under_not, relation_in, pass, pass_all, pass_any, pass_or};

use crate::PropResult;
use crate::atom::narrow_atom;
use constraint::{EmlConstraint, Operands, Relation, Shape};
use interval::{Count, Domain, Interval};
use settings::Settings;

// ---- the branches of an Or

// The hull of each pair of boxes. By number, as in `adopt`: of what is written through an adapter of `iter_mut` the checker knows nothing.
#[tactic(auto, using(std::proofs::lemmas::Grind::common_steps, crate::proofs::Branches::hulls_length))]
fn hull_boxes(a: Domain, b: Domain) -> Domain
    ensures { intervals_of result ≡ hulls (intervals_of a) (intervals_of b) }
{
    let left = a.as_slice();
    let right = b.as_slice();
    let count = Count {
        n: left.len().min(right.len()),
    };
    let mut boxes = a.boxes;
    for i in 0..count.n {
        boxes[i] = left[i].hull(right[i]);
    }
    Domain { boxes, count }
}

// The hull of the branches that survived so far, after one more, which answered `res` and left b. (Lent: as values the boxes stood on the stack
// once more for each branch.)
fn survive(so_far: &mut Option<Domain>, res: PropResult, b: &Domain)
    ensures { option_map intervals_of (final so_far) ≡ survive_of (option_map intervals_of (old so_far)) (res leaving intervals_of b.now) }
{
    if res == PropResult::Conflict {
        return;
    }
    let hull = match so_far {
        Some(hull) => hull_boxes(*hull, *b),
        None => *b,
    };
    *so_far = Some(hull);
}

// A box after an Or goes to its part inside the hull, where that is not empty and an end moves.
fn tighten(settings: Settings, hull: Interval, b: &mut Interval) -> PropResult
    ensures { (result leaving final b) ≡ tightened settings hull (old b) }
{
    let new = hull.intersect(*b);
    if !new.is_empty() & b.moves(new, settings.slack) {
        *b = new;
        return PropResult::Changed;
    }
    PropResult::Stable
}

#[tactic(auto, using(crate::proofs::Branches::adopting))]
fn adopt(settings: Settings, hull: &[Interval], boxes: &mut [Interval]) -> PropResult
    ensures { (result leaving final boxes) ≡ adopt_of settings hull.now (old boxes) }
{
    let mut result = PropResult::Stable;
    for i in 0..hull.len().min(boxes.len()) {
        result = result.max(tighten(settings, hull[i], &mut boxes[i]));
    }
    result
}

fn adopt_survivors(
    settings: Settings,
    survivors: &Option<Domain>,
    boxes: &mut [Interval],
) -> PropResult
    ensures { (result leaving final boxes) ≡ adopt_survivors settings (option_map intervals_of survivors.now) (old boxes) }
{
    match survivors {
        Some(hull) => adopt(settings, hull.as_slice(), boxes),
        None => PropResult::Conflict,
    }
}

// ---- constraints

// How a constraint is taken: as it is written, its normal form, its negation.
#[derive(Clone, Copy)]
pub enum Mode {
    Written,
    Normal,
    Negated,
}

impl Mode {
    // How what is inside a Not is taken.
    fn under_not(self) -> Mode
        ensures { result ≡ under_not self }
    {
        match self {
            Mode::Written | Mode::Negated => Mode::Normal,
            Mode::Normal => Mode::Negated,
        }
    }

    fn relation(self, relation: Relation) -> Relation
        ensures { result ≡ relation_in self relation }
    {
        match self {
            Mode::Written | Mode::Normal => relation,
            Mode::Negated => normal::opposite(relation),
        }
    }
}

// How boxes are narrowed by a constraint: by the settings, and in which mode it is taken.
#[derive(Clone, Copy)]
pub struct Propagator {
    pub settings: Settings,
    pub mode: Mode,
}

// Of at most 16 boxes: each branch of an Or is a copy by value.
impl Propagator {
    // A round. Under a Not the Rust narrows by the normal form of what is inside: the mode says so, and nothing is built.
    #[tactic(auto, unfolding(crate::specs::Modes::pass))]
    #[cycle(round)]
    pub fn propagate_once(self, c: EmlConstraint, boxes: &mut [Interval]) -> PropResult
        requires { length boxes.old ≤ 16 }
        ensures { (result leaving final boxes) ≡ pass self.settings self.mode (meaning c.entry) (old boxes) }
    {
        match c.shape() {
            Shape::Atom(relation, tree) => {
                narrow_atom(tree, self.settings, self.mode.relation(relation), boxes)
            }
            Shape::Not(inside) => {
                let under = Propagator {
                    mode: self.mode.under_not(),
                    ..self
                };
                under.propagate_once(inside, boxes)
            }
            Shape::And(cs) => match self.mode {
                Mode::Written | Mode::Normal => self.narrow_all(cs, boxes),
                Mode::Negated => self.narrow_any(cs, boxes),
            },
            Shape::Or(cs) => match self.mode {
                Mode::Written | Mode::Normal => self.narrow_any(cs, boxes),
                Mode::Negated => self.narrow_all(cs, boxes),
            },
            Shape::ForAll(_, _, _, _) | Shape::Exists(_, _, _, _) => PropResult::Stable,
        }
    }

    // All of them, oldest first, up to a Conflict.
    #[tactic(auto, using(crate::proofs::Passes::several))]
    #[cycle(round)]
    fn narrow_all(self, cs: Operands, boxes: &mut [Interval]) -> PropResult
        requires { length boxes.old ≤ 16 }
        ensures { (result leaving final boxes) ≡ pass_all self.settings self.mode (gather (meanings cs.entry)) (old boxes) }
    {
        let Some((last, others)) = cs.split_last() else {
            return PropResult::Stable;
        };
        let before = self.narrow_all(others, boxes);
        if before == PropResult::Conflict {
            return before;
        }
        before.max(self.propagate_once(last, boxes))
    }

    // One of them is to hold: the hull of those that survive is adopted.
    #[cycle(round)]
    fn narrow_any(self, cs: Operands, boxes: &mut [Interval]) -> PropResult
        requires { length boxes.old ≤ 16 }
        ensures { (result leaving final boxes) ≡ pass_or self.settings self.mode (gather (meanings cs.entry)) (old boxes) }
    {
        let mut survivors = None;
        self.survivors_of(cs, boxes, &mut survivors);
        adopt_survivors(self.settings, &survivors, boxes)
    }

    // The hull of those that survive, each narrowed from the same boxes.
    #[tactic(auto, using(crate::proofs::Passes::several))]
    #[cycle(round)]
    fn survivors_of(self, cs: Operands, boxes: &[Interval], hull: &mut Option<Domain>)
        requires { length boxes.now ≤ 16 }
        ensures { option_map intervals_of (final hull) ≡ pass_any self.settings self.mode (gather (meanings cs.entry)) boxes.now (option_map intervals_of (old hull)) }
    {
        let Some((last, others)) = cs.split_last() else {
            return;
        };
        self.survivors_of(others, boxes, hull);
        let mut branch = Domain::of_list(boxes);
        let result = self.narrow_branch(last, &mut branch);
        survive(hull, result, &branch);
    }

    // A round on a branch's copy.
    #[cycle(round)]
    fn narrow_branch(self, c: EmlConstraint, branch: &mut Domain) -> PropResult
        ensures { (result leaving intervals_of (final branch)) ≡ pass self.settings self.mode (meaning c.entry) (intervals_of (old branch)) }
    {
        let n = branch.count.n;
        self.propagate_once(c, &mut branch.boxes[..n])
    }
}
