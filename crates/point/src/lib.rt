// Testing a point (document 01): a tree's value, the check and the residual of a constraint, on records given without a file.
#![tactic(auto)]

mod checking;
pub mod eval; // eval.rs: a tree's value
pub mod helpers; // helpers.rs: the check and the residual
mod shortfalls;
pub mod stack;

ghost use Rattle.std.specs.Prelude.{◌≡◌, IfOk};
ghost use Rattle.interval.specs.Views.{values_of};
ghost use Rattle.tree.specs.Nodes.{tree_at};
ghost use Rattle.tree.specs.Views.{the_tree};
ghost use Rattle.file.specs.Code.{Holds};
ghost use Rattle.record.specs.Refused.{refusal_of, numbered};
ghost use Rattle.point.specs.Answer.{eval_refusal, eval_answer, point_refusal, answer_of, check_answer, residual_answer};

use constraint::Records;
use eval::EvalError;
use helpers::Measure;
use interval::Point;
use record::Refusal;
use settings::Settings;
use stack::Stack;
use tree::EmlTree;

// The tests of eval_real, and the node's tree.
#[tactic(auto, using(tree::specs::NodeLaws::list_valid), unfolding(crate::specs::Answer::eval_refusal, crate::specs::Answer::root_refusal))]
fn test_node<'a>(
    nodes: &'a [u8],
    k: usize,
    point: &[f64],
    settings: Settings,
) -> Result<EmlTree<'a>, Refusal>
    ensures refusal { refusal_of result ≡ eval_refusal settings nodes.now k point.now }
    ensures tree { IfOk result (λ t. the_tree t ≡ tree_at nodes.now k) }
{
    if nodes.len() % 16 != 0 {
        return Err(Refusal::Counts);
    }
    let count = nodes.len() / 16;
    tree::test_list(nodes, count)?;
    if count <= k {
        return Err(Refusal::Node);
    }
    settings.test()?;
    if 16 < point.len() {
        return Err(Refusal::Boxes);
    }
    Ok(EmlTree { nodes, root: k })
}

// The value of a node's tree at the point.
#[tactic(auto, unfolding(crate::specs::Answer::eval_answer))]
pub fn eval_real(
    nodes: &[u8],
    node: usize,
    point: &[f64],
    settings: Settings,
) -> Result<Result<f64, EvalError>, Refusal>
    ensures { numbered result ≡ eval_answer settings nodes.now node point.now }
{
    let tree = test_node(nodes, node, point, settings)?;
    Ok(eval::eval_real(tree, settings, point, &mut Stack::new()))
}

// The tests of records, of the settings and of a point.
#[tactic(auto, unfolding(crate::specs::Answer::point_refusal))]
fn test_point<'a>(
    nodes: &'a [u8],
    constraints: &'a [u8],
    point: &[f64],
    settings: Settings,
) -> Result<(Records<'a>, Point), Refusal>
    ensures refusal { refusal_of result ≡ point_refusal settings nodes.now constraints.now point.now }
    ensures value { IfOk result (λ p. Holds nodes.now constraints.now p.0 × (values_of p.1 ≡ point.now)) }
{
    let records = file::read_given(nodes, constraints)?;
    settings.test()?;
    let point = Point::new(point)?;
    Ok((records, point))
}

// The measure of the constraint that the records leave.
fn answer<M: Measure>(
    nodes: &[u8],
    constraints: &[u8],
    point: &[f64],
    settings: Settings,
) -> Result<M, Refusal>
    ensures { numbered result ≡ answer_of M.measure settings nodes.now constraints.now point.now }
{
    let (records, point) = test_point(nodes, constraints, point, settings)?;
    let c = records.constraint();
    Ok(helpers::measured(c, settings, &point, &mut Stack::new()))
}

// Whether the point passes the check of the constraint.
#[tactic(auto, unfolding(crate::specs::Answer::check_answer))]
pub fn check_constraint(
    nodes: &[u8],
    constraints: &[u8],
    point: &[f64],
    settings: Settings,
) -> Result<bool, Refusal>
    ensures { numbered result ≡ check_answer settings nodes.now constraints.now point.now }
{
    answer(nodes, constraints, point, settings)
}

// How far the point is from meeting the constraint.
#[tactic(auto, unfolding(crate::specs::Answer::residual_answer))]
pub fn residual(
    nodes: &[u8],
    constraints: &[u8],
    point: &[f64],
    settings: Settings,
) -> Result<f64, Refusal>
    ensures { numbered result ≡ residual_answer settings nodes.now constraints.now point.now }
{
    answer(nodes, constraints, point, settings)
}
