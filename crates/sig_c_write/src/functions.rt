//! The lines of a function of the values of operands.

ghost use Rattle.std.specs.Prelude.{◌≡◌, ◌<◌, suc, ◌^◌, ◌++◌, ◌∷◌, [], OnOk, codes, decimal, if◌then◌else◌, pos};
ghost use Rattle.sig_c.specs.Layout.{expression_text, lines_text, number_text, operand_bytes};
ghost use Rattle.sig_c.specs.Meaning.{truth};
ghost use Rattle.sig_c_step.specs.Translation.{computing, divisor_tested, is_one_signal, operand};
ghost use Rattle.sig_c.specs.SmallC.{none};
ghost use Rattle.sig_c_write.specs.Given.{scope_in};
ghost use Rattle.sig_c_write.specs.inner.Lines.{check_line, joined_bytes, set_line};

use crate::lines::{put_address, put_line_beginning, put_refusal};
use crate::names::StepNames;
use crate::pieces::{put_name, put_number, put_value};
use sig_base::SigId;
use sig_kernel::{FunOp, Operand};
use std::alloc::AllocError;

/// Appends the lines by which a signal takes the value of a function. The first end has this number.
pub(crate) fn put_function(
    text: &mut Vec<u8>,
    margin: &[u8],
    names: &StepNames,
    code: u64,
    y: SigId,
    op: FunOp,
    operands: &[Operand],
) -> Result<(), AllocError>
    requires { code < 2 ^ 32 }
    ensures { OnOk result (text.new.items ≡ text.old.items ++ lines_text margin.now (scope_in names.now) (computing y.0 code op operands.now)) }
{
    let target = y.0 as usize;
    match operands {
        [a] => put_unary(text, margin, names, code, target, op, *a),
        [a, b] => put_binary(text, margin, names, code, target, op, *a, *b),
        _ => Ok(()),
    }
}

/// Appends an operand.
fn put_operand(text: &mut Vec<u8>, names: &StepNames, given: Operand) -> Result<(), AllocError>
    ensures alone { OnOk result (text.new.items ≡ text.old.items ++ expression_text (scope_in names.now) (operand given)) }
    ensures within { OnOk result (text.new.items ≡ text.old.items ++ operand_bytes (scope_in names.now) (operand given)) }
{
    match given {
        Operand::Sig(x) => put_name(text, names.variables.as_slice(), x.0 as usize),
        Operand::Const(value) => put_value(text, value),
    }
}

/// Appends the lines of a function of one operand.
fn put_unary(
    text: &mut Vec<u8>,
    margin: &[u8],
    names: &StepNames,
    code: u64,
    target: usize,
    op: FunOp,
    a: Operand,
) -> Result<(), AllocError>
    ensures { OnOk result (text.new.items ≡ text.old.items ++ lines_text margin.now (scope_in names.now) (computing target code op (a ∷ []))) }
{
    match op {
        FunOp::Id => put_set(text, margin, names, target, b"", a),
        FunOp::Not => put_set(text, margin, names, target, b"!", a),
        FunOp::Neg => {
            let zero = Operand::Const(0);
            put_check(text, margin, names, b"subtract", zero, a, target, code)
        }
        FunOp::And => Ok(()),
        FunOp::Or => Ok(()),
        FunOp::Xor => Ok(()),
        FunOp::Eq => Ok(()),
        FunOp::Ne => Ok(()),
        FunOp::Lt => Ok(()),
        FunOp::Le => Ok(()),
        FunOp::Gt => Ok(()),
        FunOp::Ge => Ok(()),
        FunOp::Add => Ok(()),
        FunOp::Sub => Ok(()),
        FunOp::Mul => Ok(()),
        FunOp::Div => Ok(()),
        FunOp::Mod => Ok(()),
    }
}

/// Appends a line that gives a variable an operand, behind a mark.
fn put_set(
    text: &mut Vec<u8>,
    margin: &[u8],
    names: &StepNames,
    target: usize,
    mark: &[u8],
    a: Operand,
) -> Result<(), AllocError>
    ensures { OnOk result (text.new.items ≡ text.old.items ++ set_line margin.now (scope_in names.now) target (mark.now ++ operand_bytes (scope_in names.now) (operand a))) }
{
    put_line_beginning(text, margin, names, target)?;
    text.extend_from_slice(mark)?;
    put_operand(text, names, a)?;
    text.extend_from_slice(b";\n")
}

/// Appends the lines of a function of two operands.
fn put_binary(
    text: &mut Vec<u8>,
    margin: &[u8],
    names: &StepNames,
    code: u64,
    target: usize,
    op: FunOp,
    a: Operand,
    b: Operand,
) -> Result<(), AllocError>
    requires { code < 2 ^ 32 }
    ensures { OnOk result (text.new.items ≡ text.old.items ++ lines_text margin.now (scope_in names.now) (computing target code op (a ∷ b ∷ []))) }
{
    match op {
        FunOp::And => put_joined(text, margin, names, target, b"&&", a, b),
        FunOp::Or => put_joined(text, margin, names, target, b"||", a, b),
        FunOp::Xor => put_compared(text, margin, names, target, b"!=", false, a, b),
        FunOp::Eq => put_compared(text, margin, names, target, b"==", true, a, b),
        FunOp::Ne => put_compared(text, margin, names, target, b"!=", false, a, b),
        FunOp::Lt => put_compared(text, margin, names, target, b"<", false, a, b),
        FunOp::Le => put_compared(text, margin, names, target, b"<=", true, a, b),
        FunOp::Gt => put_compared(text, margin, names, target, b">", false, a, b),
        FunOp::Ge => put_compared(text, margin, names, target, b">=", true, a, b),
        FunOp::Add => put_check(text, margin, names, b"add", a, b, target, code),
        FunOp::Sub => put_check(text, margin, names, b"subtract", a, b, target, code),
        FunOp::Mul => put_check(text, margin, names, b"multiply", a, b, target, code),
        FunOp::Div => {
            put_divisor_test(text, margin, names, b, code)?;
            put_next_check(text, margin, names, b"divide", a, b, target, code)
        }
        FunOp::Mod => {
            put_divisor_test(text, margin, names, b, code)?;
            put_check(text, margin, names, b"modulo", a, b, target, code)
        }
        FunOp::Id => Ok(()),
        FunOp::Not => Ok(()),
        FunOp::Neg => Ok(()),
    }
}

/// Appends a line that gives a variable what an operator gives.
fn put_joined(
    text: &mut Vec<u8>,
    margin: &[u8],
    names: &StepNames,
    target: usize,
    mark: &[u8],
    a: Operand,
    b: Operand,
) -> Result<(), AllocError>
    ensures { OnOk result (text.new.items ≡ text.old.items ++ set_line margin.now (scope_in names.now) target (joined_bytes (scope_in names.now) mark.now a b)) }
{
    put_line_beginning(text, margin, names, target)?;
    put_operand(text, names, a)?;
    put_operator(text, mark)?;
    put_operand(text, names, b)?;
    text.extend_from_slice(b";\n")?;
    Ok(())
}

/// Appends an operator.
fn put_operator(text: &mut Vec<u8>, mark: &[u8]) -> Result<(), AllocError>
    ensures { OnOk result (text.new.items ≡ text.old.items ++ (codes " " ++ (mark.now ++ codes " "))) }
{
    text.extend_from_slice(b" ")?;
    text.extend_from_slice(mark)?;
    text.extend_from_slice(b" ")
}

/// Whether two operands are one signal.
fn is_one_signal(a: Operand, b: Operand) -> bool
    ensures { result ≡ is_one_signal a b }
{
    match (a, b) {
        (Operand::Sig(x), Operand::Sig(y)) => x.0 == y.0,
        _ => false,
    }
}

/// Appends a line that gives a variable a truth.
fn put_known(
    text: &mut Vec<u8>,
    margin: &[u8],
    names: &StepNames,
    target: usize,
    same: bool,
) -> Result<(), AllocError>
    ensures { OnOk result (text.new.items ≡ text.old.items ++ set_line margin.now (scope_in names.now) target (number_text (truth same))) }
{
    put_line_beginning(text, margin, names, target)?;
    put_truth(text, same)?;
    text.extend_from_slice(b";\n")
}

/// Appends a truth.
fn put_truth(text: &mut Vec<u8>, same: bool) -> Result<(), AllocError>
    ensures { OnOk result (text.new.items ≡ text.old.items ++ number_text (truth same)) }
{
    if same {
        put_value(text, 1)
    } else {
        put_value(text, 0)
    }
}

/// Appends a line that gives a variable what a comparison gives; of a signal with itself it is known.
fn put_compared(
    text: &mut Vec<u8>,
    margin: &[u8],
    names: &StepNames,
    target: usize,
    mark: &[u8],
    same: bool,
    a: Operand,
    b: Operand,
) -> Result<(), AllocError>
    ensures { OnOk result (text.new.items ≡ text.old.items ++ set_line margin.now (scope_in names.now) target (if is_one_signal a b then number_text (truth same) else joined_bytes (scope_in names.now) mark.now a b)) }
{
    if is_one_signal(a, b) {
        put_known(text, margin, names, target, same)
    } else {
        put_joined(text, margin, names, target, mark, a, b)
    }
}

/// Appends the beginning of a line.
fn put_if(text: &mut Vec<u8>, margin: &[u8]) -> Result<(), AllocError>
    ensures { OnOk result (text.new.items ≡ text.old.items ++ (margin.now ++ codes "if (")) }
{
    text.extend_from_slice(margin)?;
    text.extend_from_slice(b"if (")
}

/// Appends the beginning of a line that calls a helper.
fn put_call(text: &mut Vec<u8>, margin: &[u8], helper: &[u8]) -> Result<(), AllocError>
    ensures { OnOk result (text.new.items ≡ text.old.items ++ (margin.now ++ (codes "if (" ++ (helper.now ++ codes "(")))) }
{
    put_if(text, margin)?;
    text.extend_from_slice(helper)?;
    text.extend_from_slice(b"(")
}

/// Appends two operands, with a comma between them.
fn put_arguments(
    text: &mut Vec<u8>,
    names: &StepNames,
    a: Operand,
    b: Operand,
) -> Result<(), AllocError>
    ensures { OnOk result (text.new.items ≡ text.old.items
        ++ (expression_text (scope_in names.now) (operand a) ++ (codes ", " ++ expression_text (scope_in names.now) (operand b)))) }
{
    put_operand(text, names, a)?;
    text.extend_from_slice(b", ")?;
    put_operand(text, names, b)
}

/// Appends the test that an operand is 0.
fn put_zero_test(text: &mut Vec<u8>, names: &StepNames, b: Operand) -> Result<(), AllocError>
    ensures { OnOk result (text.new.items ≡ text.old.items ++ (operand_bytes (scope_in names.now) (operand b) ++ (codes " == " ++ number_text (pos 0)))) }
{
    put_operand(text, names, b)?;
    text.extend_from_slice(b" == ")?;
    put_value(text, 0)
}

/// Appends what a line ends with that answers a number.
fn put_answer(text: &mut Vec<u8>, code: u64) -> Result<(), AllocError>
    ensures { OnOk result (text.new.items ≡ text.old.items ++ (codes ") { return " ++ (decimal code ++ codes "; }\n"))) }
{
    text.extend_from_slice(b") { return ")?;
    put_number(text, code)?;
    text.extend_from_slice(b"; }\n")
}

/// Appends a line that calls a helper, and answers the number where it gives no result.
fn put_check(
    text: &mut Vec<u8>,
    margin: &[u8],
    names: &StepNames,
    helper: &[u8],
    a: Operand,
    b: Operand,
    target: usize,
    code: u64,
) -> Result<(), AllocError>
    ensures { OnOk result (text.new.items ≡ text.old.items ++ check_line margin.now (scope_in names.now) helper.now a b target code) }
{
    put_call(text, margin, helper)?;
    put_arguments(text, names, a, b)?;
    put_address(text, names, target)?;
    put_refusal(text, code)?;
    Ok(())
}

/// The same, with the number behind this one.
fn put_next_check(
    text: &mut Vec<u8>,
    margin: &[u8],
    names: &StepNames,
    helper: &[u8],
    a: Operand,
    b: Operand,
    target: usize,
    code: u64,
) -> Result<(), AllocError>
    requires { code < 2 ^ 32 }
    ensures { OnOk result (text.new.items ≡ text.old.items ++ check_line margin.now (scope_in names.now) helper.now a b target (suc code)) }
{
    put_check(text, margin, names, helper, a, b, target, code + 1)
}

/// Appends a line that answers the number where the divisor is 0.
fn put_divisor_test(
    text: &mut Vec<u8>,
    margin: &[u8],
    names: &StepNames,
    b: Operand,
    code: u64,
) -> Result<(), AllocError>
    ensures { OnOk result (text.new.items ≡ text.old.items ++ lines_text margin.now (scope_in names.now) (divisor_tested b code none)) }
{
    put_if(text, margin)?;
    put_zero_test(text, names, b)?;
    put_answer(text, code)?;
    Ok(())
}
