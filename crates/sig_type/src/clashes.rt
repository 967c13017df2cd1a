//! The rules on kinds.

ghost use Rattle.std.specs.Prelude.{◌≡◌, ◌↔◌, ◌∷◌};
ghost use Rattle.sig_type.specs.Prelude.{[], IsTrue, Some, None, map, Any, zip, option_map, slice_get, expression_of, right_side_of, equations_of, model_of, Defines, each, kind_of, place_of_constant, IsUnfit, clash_of_constant, clash_of_init, clashes_of_expression, DoesNotTake, clash_of_left, clashes_of_results, clashes_of_constants, clashes_of_call, clashes_of_equation, clashes_of_inits, declarations_in, bodies_in, interface_models};
ghost use Rattle.sig_type.specs.inner.Asked.{clashes_in, lefts_given, result_at};
ghost use Rattle.sig_type.specs.inner.Findings.{Finds};

use crate::finding::{Finding, First};
use sig_base::{Kind, Span};
use sig_kinds::{Form, binary_form, cell_form, delay_form, takes, unary_form};
use sig_scope::{Declared, Interface, Processes, Scope};
use sig_tree::{Body, Constant, Expr, Name, Right};

/// The place of a constant.
fn place_of_constant(constant: &Constant) -> Span
    ensures { result ≡ place_of_constant constant.now }
{
    match constant {
        Constant::Int(_, at) | Constant::Bool(_, at) => *at,
        Constant::Param(name) => name.at,
    }
}

/// Whether a constant is a signal's name, or of another kind than the one that is wanted.
fn is_unfit(scope: &Scope, wanted: Option<Kind>, constant: &Constant) -> bool
    ensures { IsTrue result ↔ IsUnfit scope.now wanted constant.now }
{
    match (scope.constant_kind(constant), wanted) {
        (None, _) => true,
        (Some(_), None) => false,
        (Some(kind), Some(wanted)) => kind != wanted,
    }
}

/// A constant of a kind that may be wanted.
fn constant<'a>(scope: &Scope, wanted: Option<Kind>, constant: &'a Constant, first: &mut First<'a>)
    ensures { Finds first.old first.new (clash_of_constant scope.now wanted constant.now ∷ []) }
{
    first.ask(
        is_unfit(scope, wanted, constant),
        Finding::Clash(place_of_constant(constant)),
    );
}

/// An init of what has a kind.
fn init<'a>(scope: &Scope, kind: Option<Kind>, init: &'a Option<Constant>, first: &mut First<'a>)
    ensures { Finds first.old first.new (clash_of_init scope.now kind init.now) }
{
    if let Some(value) = init {
        constant(scope, delay_form().kind_of_one(kind), value, first);
    }
}

/// The operands of an expression, whose kind comes back.
pub fn expression<'a>(scope: &Scope, e: &'a Expr, first: &mut First<'a>) -> Option<Kind>
    ensures kind { result ≡ kind_of scope.now (expression_of e.now) }
    ensures clashes { Finds first.old first.new (clashes_of_expression scope.now (expression_of e.now)) }
{
    match e {
        Expr::Name(name) => scope.kind(name),
        Expr::Int(..) => Some(Kind::Integer),
        Expr::Bool(..) => Some(Kind::Boolean),
        Expr::Unary(op, operand, at) => {
            let form = unary_form(*op);
            let mut inside = First::new();
            let kind = expression(scope, operand, &mut inside);
            first.ask(form.refuses_one(kind), Finding::Clash(*at));
            first.append(inside);
            form.kind_of_one(kind)
        }
        Expr::Binary(op, left, right, at) => {
            let form = binary_form(*op);
            let mut inside = First::new();
            let left_kind = expression(scope, left, first);
            let right_kind = expression(scope, right, &mut inside);
            first.ask(form.refuses_two(left_kind, right_kind), Finding::Clash(*at));
            first.append(inside);
            form.kind_of_two(left_kind, right_kind)
        }
        Expr::Delay(operand, value, _) => {
            let kind = expression(scope, operand, first);
            init(scope, kind, value, first);
            delay_form().kind_of_one(kind)
        }
        Expr::Cell(operand, held, value, at) => {
            let form = cell_form();
            let mut inside = First::new();
            let kind = expression(scope, operand, first);
            let held_kind = expression(scope, held, &mut inside);
            first.ask(form.refuses_two(kind, held_kind), Finding::Clash(*at));
            first.append(inside);
            constant(scope, delay_form().kind_of_one(kind), value, first);
            form.kind_of_two(kind, held_kind)
        }
    }
}

/// The expressions of a clock equation.
fn operands<'a>(scope: &Scope, all: &'a [Expr], first: &mut First<'a>)
    ensures { Finds first.old first.new (each (clashes_of_expression scope.now) (map expression_of all.now)) }
{
    for one in all {
        let _ = expression(scope, one, first);
    }
}

/// Whether both kinds are there, and the one is not taken by the other.
fn does_not_take(wanted: Option<Kind>, given: Option<Kind>) -> bool
    ensures { IsTrue result ↔ DoesNotTake wanted given }
{
    match (wanted, given) {
        (Some(wanted), Some(given)) => !takes(wanted, given),
        _ => false,
    }
}

/// A left side that is given a kind.
fn left_side<'a>(scope: &Scope, given: Option<Kind>, name: &'a Name, first: &mut First<'a>)
    ensures { Finds first.old first.new (clash_of_left scope.now given name.now ∷ []) }
{
    first.ask(
        does_not_take(scope.kind(name), given),
        Finding::Clash(name.at),
    );
}

/// Left sides that are all given one kind.
fn left_sides<'a>(scope: &Scope, given: Option<Kind>, names: &'a [Name], first: &mut First<'a>)
    ensures { Finds first.old first.new (lefts_given scope.now given names.now) }
{
    for name in names {
        left_side(scope, given, name, first);
    }
}

/// The kind of a declaration, where there is one at this place.
fn kind_at(declared: &[Declared], place: usize) -> Option<Kind>
    ensures { result ≡ option_map (λ d. d.kind) (slice_get (declarations_in declared.now) place) }
{
    match declared.get(place) {
        Some(one) => Some(one.kind),
        None => None,
    }
}

/// A left side that takes a result of this kind, where there is one.
fn result_at<'a>(scope: &Scope, name: &'a Name, kind: Option<Kind>, first: &mut First<'a>)
    ensures { Finds first.old first.new (result_at scope.now name.now kind) }
{
    if kind.is_some() {
        left_side(scope, kind, name, first);
    }
}

/// Left sides that take the results of a call, as far as both lists go.
fn results<'a>(scope: &Scope, names: &'a [Name], outputs: &[Declared], first: &mut First<'a>)
    ensures { Finds first.old first.new (clashes_of_results scope.now names.now (declarations_in outputs.now)) }
{
    for (place, name) in names.iter().enumerate() {
        result_at(scope, name, kind_at(outputs, place), first);
    }
}

/// The constants of a call, each with its parameter where there is one.
fn constants<'a>(scope: &Scope, all: &'a [Constant], params: &[Declared], first: &mut First<'a>)
    ensures { Finds first.old first.new (clashes_of_constants scope.now all.now (declarations_in params.now)) }
{
    for (place, one) in all.iter().enumerate() {
        constant(scope, kind_at(params, place), one, first);
    }
}

/// The arguments of a call; whether an input does not take its argument comes back.
fn arguments<'a>(scope: &Scope, all: &'a [Expr], inputs: &[Declared], first: &mut First<'a>) -> bool
    ensures clashes { Finds first.old first.new (each (clashes_of_expression scope.now) (map expression_of all.now)) }
    ensures unfit { IsTrue result ↔ Any (λ both. DoesNotTake (Some both.1.kind) (kind_of scope.now both.0)) (zip (map expression_of all.now) (declarations_in inputs.now)) }
{
    let mut unfit = false;
    for (place, one) in all.iter().enumerate() {
        let given = expression(scope, one, first);
        let refused = does_not_take(kind_at(inputs, place), given);
        unfit = unfit || refused;
    }
    unfit
}

/// A call of a process that is there.
fn call<'a>(
    scope: &Scope,
    called: &Interface,
    names: &'a [Name],
    name: &'a Name,
    values: &'a [Constant],
    inputs: &'a [Expr],
    first: &mut First<'a>,
)
    ensures { Finds first.old first.new (clashes_of_call scope.now names.now name.now values.now (map expression_of inputs.now) (Some (model_of called.now.process.now))) }
{
    results(scope, names, &called.outputs, first);
    let mut inside = First::new();
    let unfit = arguments(scope, inputs, &called.inputs, &mut inside);
    first.ask(unfit, Finding::Clash(name.at));
    constants(scope, values, &called.params, first);
    first.append(inside);
}

/// A right side, with the left sides that it defines.
fn right_side<'a>(
    processes: &Processes,
    scope: &Scope,
    names: &'a [Name],
    right: &'a Right,
    first: &mut First<'a>,
)
    ensures { Finds first.old first.new (clashes_of_equation (interface_models processes.now.interfaces.items) scope.now (Defines names.now (right_side_of right.now))) }
{
    match right {
        Right::Value(e) => {
            let mut inside = First::new();
            let kind = expression(scope, e, &mut inside);
            left_sides(scope, kind, names, first);
            first.append(inside);
        }
        Right::Call(name, values, inputs) => {
            if let Some(called) = processes.get(name.text.as_bytes()) {
                call(scope, called, names, name, values, inputs, first);
            }
        }
    }
}

/// An equation.
fn equation<'a>(processes: &Processes, scope: &Scope, body: &'a Body, first: &mut First<'a>)
    ensures { Finds first.old first.new (clashes_of_equation (interface_models processes.now.interfaces.items) scope.now (equations_of body.now)) }
{
    match body {
        Body::All(_) => {}
        Body::Def(names, right) => right_side(processes, scope, names, right, first),
        Body::Same(all) => operands(scope, all, first),
    }
}

/// The inits of declarations.
fn inits<'a>(scope: &Scope, declared: &[Declared<'a>], first: &mut First<'a>)
    ensures { Finds first.old first.new (clashes_of_inits scope.now (declarations_in declared.now)) }
{
    for one in declared {
        init(scope, Some(one.kind), one.init, first);
    }
}

/// The equations of a process.
fn equations<'a>(processes: &Processes, scope: &Scope, all: &[&'a Body], first: &mut First<'a>)
    ensures { Finds first.old first.new (each (clashes_of_equation (interface_models processes.now.interfaces.items) scope.now) (bodies_in all.now)) }
{
    for one in all {
        equation(processes, scope, *one, first);
    }
}

/// The kinds of a process.
pub fn clashes<'a>(
    processes: &Processes,
    scope: &Scope,
    interface: &Interface<'a>,
    body: &[&'a Body],
    first: &mut First<'a>,
)
    ensures { Finds first.old first.new (clashes_in (interface_models processes.now.interfaces.items) scope.now (declarations_in interface.now.outputs.items) (bodies_in body.now) (declarations_in interface.now.locals.items)) }
{
    inits(scope, &interface.outputs, first);
    equations(processes, scope, body, first);
    inits(scope, &interface.locals, first);
}
