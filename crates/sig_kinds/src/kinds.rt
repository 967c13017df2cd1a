//! The kinds of all expressions of a well-formed program.

ghost use Rattle.std.specs.Prelude.{◌≡◌, ◌++◌, ◌∷◌, [], IfOk, OnOk, map, flat_map, reverse, List};
ghost use Rattle.sig_tree.specs.declared.expr.Name.{Name};
ghost use Rattle.sig_tree.specs.Syntax.{expression_of, equations_of, right_side_of, model_of, program_of, Defines};
ghost use Rattle.sig_tree.specs.Kinds.{kind_of};
ghost use Rattle.sig_scope.specs.Typed.{nodes, expressions_of, kinds_in, kinds_of_model, kinds_of_program, known};
ghost use Rattle.sig_scope.specs.Walked.{bodies_in};

use crate::forms::{binary_form, cell_form, delay_form, unary_form};
use sig_base::Kind;
use sig_scope::{Interface, Processes, Scope, flat_equations};
use sig_tree::{Body, Expr, Program, Right};
use std::alloc::{AllocError, Global};

/// The kind of an expression, which has one in a well-formed program.
fn known(kind: Option<Kind>) -> Kind
    ensures { result ≡ known kind }
{
    match kind {
        Some(kind) => kind,
        None => Kind::Integer,
    }
}

/// Adds the kind of an expression, and gives it back.
fn add(all: &mut Vec<Kind>, kind: Option<Kind>) -> Result<Option<Kind>, AllocError>
    ensures kind { IfOk result (λ same. same ≡ kind) }
    ensures added { OnOk result (all.new.items ≡ all.old.items ++ known kind ∷ []) }
{
    all.push(known(kind))?;
    Ok(kind)
}

/// Adds the kinds of an expression and of those inside it from behind: each behind its operands, the
/// last of which is first. Its kind is given back.
fn add_back(scope: &Scope, e: &Expr, all: &mut Vec<Kind>) -> Result<Option<Kind>, AllocError>
    ensures kind { IfOk result (λ kind. kind ≡ kind_of scope.now (expression_of e.now)) }
    ensures added { OnOk result (all.new.items ≡ all.old.items ++ reverse (map (λ n. known (kind_of scope.now n)) (nodes (expression_of e.now)))) }
{
    match e {
        Expr::Name(name) => add(all, scope.kind(name)),
        Expr::Int(..) => add(all, Some(Kind::Integer)),
        Expr::Bool(..) => add(all, Some(Kind::Boolean)),
        Expr::Unary(op, operand, _) => {
            let kind = add_back(scope, operand, all)?;
            add(all, unary_form(*op).kind_of_one(kind))
        }
        Expr::Binary(op, left, right, _) => {
            let second = add_back(scope, right, all)?;
            let first = add_back(scope, left, all)?;
            add(all, binary_form(*op).kind_of_two(first, second))
        }
        Expr::Delay(operand, _, _) => {
            let kind = add_back(scope, operand, all)?;
            add(all, delay_form().kind_of_one(kind))
        }
        Expr::Cell(operand, held, _, _) => {
            let second = add_back(scope, held, all)?;
            let first = add_back(scope, operand, all)?;
            add(all, cell_form().kind_of_two(first, second))
        }
    }
}

/// Adds the kinds of an expression and of those inside it, each before its operands.
fn add_expression(
    alloc: Global,
    scope: &Scope,
    e: &Expr,
    all: &mut Vec<Kind>,
) -> Result<(), AllocError>
    ensures { OnOk result (all.new.items ≡ all.old.items ++ map (λ n. known (kind_of scope.now n)) (nodes (expression_of e.now))) }
{
    let mut back = Vec::new(alloc);
    add_back(scope, e, &mut back)?;
    while let Some(kind) = back.pop() {
        all.push(kind)?;
    }
    Ok(())
}

/// Adds the kinds of expressions.
fn add_expressions(
    alloc: Global,
    scope: &Scope,
    es: &[Expr],
    all: &mut Vec<Kind>,
) -> Result<(), AllocError>
    ensures { OnOk result (all.new.items ≡ all.old.items ++ map known (kinds_in scope.now (map expression_of es.now))) }
{
    for e in es {
        add_expression(alloc, scope, e, all)?;
    }
    Ok(())
}

/// Adds the kinds of a right side's expressions.
fn add_right(
    alloc: Global,
    scope: &Scope,
    right: &Right,
    all: &mut Vec<Kind>,
) -> Result<(), AllocError>
    ensures { (names : List Name) → OnOk result (all.new.items ≡ all.old.items ++ map known (kinds_in scope.now (expressions_of (Defines names (right_side_of right.now))))) }
{
    match right {
        Right::Value(e) => {
            add_expression(alloc, scope, e, all)?;
            Ok(())
        }
        Right::Call(_, _, arguments) => add_expressions(alloc, scope, arguments, all),
    }
}

/// Adds the kinds of an equation's expressions.
fn add_equation(
    alloc: Global,
    scope: &Scope,
    body: &Body,
    all: &mut Vec<Kind>,
) -> Result<(), AllocError>
    ensures { OnOk result (all.new.items ≡ all.old.items ++ map known (kinds_in scope.now (expressions_of (equations_of body.now)))) }
{
    match body {
        Body::All(_) => Ok(()),
        Body::Def(_, right) => add_right(alloc, scope, right, all),
        Body::Same(operands) => add_expressions(alloc, scope, operands, all),
    }
}

/// Adds the kinds of the expressions of equations.
fn add_equations(
    alloc: Global,
    scope: &Scope,
    equations: &[&Body],
    all: &mut Vec<Kind>,
) -> Result<(), AllocError>
    ensures { OnOk result (all.new.items ≡ all.old.items ++ map known (kinds_in scope.now (flat_map expressions_of (bodies_in equations.now)))) }
{
    for equation in equations {
        add_equation(alloc, scope, *equation, all)?;
    }
    Ok(())
}

/// Adds the kinds of a process's expressions.
fn add_process(alloc: Global, interface: &Interface, all: &mut Vec<Kind>) -> Result<(), AllocError>
    ensures { OnOk result (all.new.items ≡ all.old.items ++ map known (kinds_of_model (model_of interface.now.process.now))) }
{
    let body = flat_equations(alloc, &interface.process.body)?;
    let scope = interface.scope(alloc)?;
    add_equations(alloc, &scope, &body, all)?;
    Ok(())
}

/// The kinds of a program's expressions, each before its operands, and a process's before those of its
/// inner processes.
pub fn kinds_of(alloc: Global, program: &Program) -> Result<Vec<Kind>, AllocError>
    ensures { IfOk result (λ all. all.items ≡ map known (kinds_of_program (program_of program.now))) }
{
    let processes = Processes::new(alloc, program)?;
    let mut all = Vec::new(alloc);
    for interface in processes.as_slice() {
        add_process(alloc, interface, &mut all)?;
    }
    Ok(all)
}
