//! Evaluating typed expressions.

ghost use Rattle.std.specs.Prelude.{◌≡◌};
ghost use Rattle.cx_thin_judge.specs.Evaluating.{MayEval, Meets, IsThere, chains, gives, joins, loaded, placed};

use crate::judging::ThinJudge;
use crate::steps::{Opening, Seen, Stop, closed, opened, operated, truth};
use cx_base::Span;
use cx_typed::{Program, TExpr, TNode, TPart, TStep};
use cx_types::VarId;

// The value of what an operand gave.
fn load(judge: &ThinJudge, judged: Option<VarId>, operand: Seen, at: Span) -> Result<Seen, Stop>
    ensures { result ≡ loaded judge.now.kept judged operand at }
{
    match operand {
        Seen::Number(_) => Err(Stop::Stuck),
        Seen::Place(variable) => match judge.read(judged, variable) {
            Ok(value) => Ok(Seen::Number(value)),
            Err(rule) => Err(Stop::Broken(rule, at)),
        },
    }
}

fn place(program: &Program, variable: VarId) -> Result<Seen, Stop>
    ensures { result ≡ placed program.now variable }
{
    if (variable.0 as usize) < program.variables().len() {
        Ok(Seen::Place(variable))
    } else {
        Err(Stop::Stuck)
    }
}

/// What an expression gives.
#[cycle(eval)]
#[tactic(auto, using(crate::proofs::Nodes::meets_constant, crate::proofs::Nodes::meets_variable, crate::proofs::Nodes::meets_load, crate::proofs::Nodes::load_stops, crate::proofs::Nodes::meets_unary, crate::proofs::Nodes::unary_stops, crate::proofs::Nodes::meets_second, crate::proofs::Nodes::meets_third, crate::proofs::Nodes::no_condition, crate::proofs::Nodes::condition_stops, crate::proofs::Nodes::chain_first, crate::proofs::Nodes::chain_stops, crate::proofs::Nodes::chain_last, crate::proofs::Nodes::is_there))]
pub fn eval(
    judge: &ThinJudge,
    program: &Program,
    judged: Option<VarId>,
    expr: &TExpr,
) -> Result<Seen, Stop>
    requires { MayEval judge.now program.now judged }
    ensures { Meets judge.now program.now judged (gives judge.now program.now judged expr.now) result }
{
    match &expr.node {
        TNode::Constant(value) => Ok(Seen::Number(*value)),
        TNode::Variable(variable) => place(program, *variable),
        TNode::Load(inner) => match eval(judge, program, judged, inner.get()) {
            Ok(operand) => load(judge, judged, operand, expr.span),
            Err(stop) => Err(stop),
        },
        TNode::Unary(op, inner) => match eval(judge, program, judged, inner.get()) {
            Ok(operand) => operated(*op, operand, expr.span),
            Err(stop) => Err(stop),
        },
        TNode::Chain(first, steps, last) => {
            match eval(judge, program, judged, first.get()) {
                Ok(left) => match chained(judge, program, judged, left, steps.as_slice()) {
                    Ok(left) => joined(judge, program, judged, left, last.get(), expr.span),
                    Err(stop) => Err(stop),
                },
                Err(stop) => Err(stop),
            }
        }
        TNode::Conditional(condition, second, third) => {
            match eval(judge, program, judged, condition.get()) {
                Ok(condition) => match truth(condition) {
                    Some(true) => eval(judge, program, judged, second.get()),
                    Some(false) => eval(judge, program, judged, third.get()),
                    None => Err(Stop::Stuck),
                },
                Err(stop) => Err(stop),
            }
        }
    }
}

// What operations give behind their first operand, from left to right.
#[cycle(eval)]
#[tactic(auto, using(crate::proofs::Nodes::chains_stop, crate::proofs::Nodes::chains_next, crate::proofs::Nodes::chains_end, crate::proofs::Nodes::is_there))]
fn chained(
    judge: &ThinJudge,
    program: &Program,
    judged: Option<VarId>,
    first: Seen,
    steps: &[TStep],
) -> Result<Seen, Stop>
    requires { MayEval judge.now program.now judged }
    ensures { IsThere program.now first → Meets judge.now program.now judged (chains judge.now program.now judged first steps.now) result }
{
    let mut left = first;
    for step in steps {
        left = match joined(judge, program, judged, left, &step.part, step.span) {
            Ok(left) => left,
            Err(stop) => return Err(stop),
        };
    }
    Ok(left)
}

// What an operation gives behind its left operand.
#[cycle(eval)]
#[tactic(auto, using(crate::proofs::Nodes::joins_whole, crate::proofs::Nodes::joins_right, crate::proofs::Nodes::joins_nothing, crate::proofs::Nodes::right_stops))]
fn joined(
    judge: &ThinJudge,
    program: &Program,
    judged: Option<VarId>,
    left: Seen,
    part: &TPart,
    at: Span,
) -> Result<Seen, Stop>
    requires { MayEval judge.now program.now judged }
    ensures { IsThere program.now left → Meets judge.now program.now judged (joins judge.now program.now judged left part.now at) result }
{
    match opened(left, part.left, part.op) {
        Opening::Whole(value) => Ok(value),
        Opening::Right(left) => match eval(judge, program, judged, &part.operand) {
            Ok(right) => closed(part.op, left, right, at),
            Err(stop) => Err(stop),
        },
        Opening::Stuck => Err(Stop::Stuck),
    }
}
