// A tree's value at a point (eval.rs): its instructions in postorder, on a stack of complex numbers.
#![tactic(auto, unfolding(crate::specs::Eval::clamped, crate::specs::Eval::beyond, crate::specs::Eval::eml_complex, crate::specs::Eval::numeric, crate::specs::Eval::variable, crate::specs::Eval::real_part, crate::specs::Eval::eval_real, number::specs::Computing::computing))]

ghost use Rattle.std.specs.Prelude.{◌≡◌, ◌≤◌, ◌+◌, length};
ghost use Rattle.tree.specs.Tree.{Tree, depth};
ghost use Rattle.point.specs.Eval.{real as real_of, clamped, beyond, eml_complex, variable as variable_of, eval_complex, real_part, eval_real};
ghost use Rattle.point.specs.Machine.{postorder, pushed, reduced, step as stepped, run as running, height, ran};
ghost use Rattle.tree.specs.Views.{the_tree};

use super::stack::Stack;
use maths::Complex;
use settings::Settings;
use tree::{EmlTree, Node};

// As document 01 asks ("an instruction that pushes a constant carries it as a float").
#[derive(Clone, Copy)]
pub enum Instruction {
    PushOne,
    PushConst(f64),
    PushVar(usize),
    Eml,
}

// What stops an evaluation: a variable that the point lacks, and how many values the point has; a NaN; the magnitude of an
// imaginary part that is not negligible; in strict mode, a real part beyond the clamp.
#[derive(Clone, Copy)]
pub enum EvalError {
    VarOutOfBounds(usize, usize),
    NanEncountered,
    ComplexResult(f64),
    ExpOverflow(f64),
}

// The library's `clamp` requires its ends in order, and the settings may hold any number.
fn clamp(most: f64, x: f64) -> f64
    ensures { result ≡ clamped most x }
{
    if x > most {
        return most;
    }
    if x < -most {
        return -most;
    }
    x
}

fn is_beyond(most: f64, x: f64) -> bool
    ensures { result ≡ beyond most x }
{
    (x > most) | (x < -most)
}

// exp(left) - ln(right)
fn eml_complex(settings: Settings, left: Complex, right: Complex) -> Result<Complex, EvalError>
    ensures { result ≡ eml_complex settings left right }
{
    if settings.strict & is_beyond(settings.clamp, left.re) {
        return Err(EvalError::ExpOverflow(left.re));
    }
    let e = maths::complex_exp(Complex {
        re: clamp(settings.clamp, left.re),
        im: left.im,
    });
    let n = maths::complex_ln(right);
    // Each part has its own test: both in one step would wait longer for the parts.
    let re = e.re - n.re;
    if re.is_nan() {
        return Err(EvalError::NanEncountered);
    }
    let im = e.im - n.im;
    if im.is_nan() {
        return Err(EvalError::NanEncountered);
    }
    Ok(Complex { re, im })
}

fn real(x: f64) -> Complex
    ensures { result ≡ real_of x }
{
    Complex { re: x, im: 0.0 }
}

fn variable(i: usize, point: &[f64]) -> Result<Complex, EvalError>
    ensures { result ≡ variable_of point.now i }
{
    if point.len() <= i {
        return Err(EvalError::VarOutOfBounds(i, point.len()));
    }
    Ok(real(point[i]))
}

// ---- settings, a point and a stack side by side: a quantifier alters the point alone, and only the stack is written

// An Eml of the two values on top of the stack, which are taken from it. (Not inlined: what it computes with would be kept at each level of a tree.)
#[inline(never)]
fn reduce(settings: &Settings, stack: &mut Stack) -> Result<Complex, EvalError>
    ensures { pushed result stack.new ≡ reduced settings.now stack.old }
{
    let right = stack.pop().ok_or(EvalError::NanEncountered)?;
    let left = stack.pop().ok_or(EvalError::NanEncountered)?;
    eml_complex(*settings, left, right)
}

#[inline(always)]
#[tactic(auto, unfolding(crate::specs::Machine::step, number::specs::Computing::computing))]
fn step(
    instruction: Instruction,
    settings: &Settings,
    point: &[f64],
    stack: &mut Stack,
) -> Result<(), EvalError>
    requires { height (length stack.old) instruction ≤ 128 }
    ensures { ran result stack.new ≡ stepped settings.now point.now instruction stack.old }
{
    let value = match instruction {
        Instruction::PushOne => Ok(real(1.0)),
        Instruction::PushConst(v) => Ok(real(v)),
        Instruction::PushVar(i) => variable(i, point),
        Instruction::Eml => reduce(settings, stack),
    };
    stack.push(value?);
    Ok(())
}

// Runs the tree's instructions in postorder. A leaf, which half of the nodes are, costs no call.
#[inline(always)]
#[cycle(run)]
#[tactic(auto, using(crate::proofs::Machine::run_means), unfolding(crate::specs::Eval::eval_complex, crate::specs::Machine::step, tree::specs::Tree::depth))]
fn run(
    tree: EmlTree,
    settings: &Settings,
    point: &[f64],
    stack: &mut Stack,
) -> Result<(), EvalError>
    requires { length stack.old + depth (the_tree tree) ≤ 128 }
    ensures { ran result stack.new ≡ running settings.now point.now (postorder (the_tree tree.entry)) stack.old }
{
    match tree.node() {
        Node::One => step(Instruction::PushOne, settings, point, stack),
        Node::Const(v) => step(Instruction::PushConst(v), settings, point, stack),
        Node::Var(i) => step(Instruction::PushVar(i), settings, point, stack),
        Node::Eml(left, right) => run_eml(left, right, settings, point, stack),
    }
}

// An Eml's: those of its children, then its own.
#[cycle(run)]
#[tactic(auto, using(crate::proofs::Machine::run_means), unfolding(crate::specs::Eval::eval_complex, crate::specs::Machine::step, tree::specs::Tree::depth))]
fn run_eml(
    left: EmlTree,
    right: EmlTree,
    settings: &Settings,
    point: &[f64],
    stack: &mut Stack,
) -> Result<(), EvalError>
    requires { length stack.old + depth (Tree.Eml (the_tree left) (the_tree right)) ≤ 128 }
    ensures { ran result stack.new ≡ running settings.now point.now (postorder (Tree.Eml (the_tree left.entry) (the_tree right.entry))) stack.old }
{
    run(left, settings, point, stack)?;
    run(right, settings, point, stack)?;
    step(Instruction::Eml, settings, point, stack)
}

// The stack is lent, so that it is made once for many evaluations.
#[tactic(auto, using(crate::proofs::Machine::run_means, tree::specs::NodeLaws::depth_small))]
pub fn eval_complex(
    tree: EmlTree,
    settings: Settings,
    point: &[f64],
    stack: &mut Stack,
) -> Result<Complex, EvalError>
    ensures { result ≡ eval_complex settings point.now (the_tree tree.entry) }
{
    stack.clear();
    run(tree, &settings, point, stack)?;
    stack.pop().ok_or(EvalError::NanEncountered)
}

fn real_part(z: Complex) -> Result<f64, EvalError>
    ensures { result ≡ real_part z }
{
    let im = number::abs(z.im);
    if im < 1e-12 {
        if z.re.is_nan() {
            return Err(EvalError::NanEncountered);
        }
        return Ok(z.re);
    }
    Err(EvalError::ComplexResult(im))
}

pub fn eval_real(
    tree: EmlTree,
    settings: Settings,
    point: &[f64],
    stack: &mut Stack,
) -> Result<f64, EvalError>
    ensures { result ≡ eval_real settings point.now (the_tree tree.entry) }
{
    real_part(eval_complex(tree, settings, point, stack)?)
}
