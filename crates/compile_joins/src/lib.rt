// Document 01, "Operations and outputs of a matrix" and "Row sums": the operation of a divisor, the order of two terms' operands, what the
// two are joined to, and the output of a row's last term, as `sum_rules` has them. Rests on `term`, `elimination_rules` and
// `layout_rules`.
#![tactic(auto)]

ghost use Rattle.std.specs.Prelude.{◌≡◌, ◌<◌};
ghost use Rattle.limits.specs.Limits.{max_symbols};
ghost use Rattle.sum_rules.specs.Joins.{sign_field, divisor_operation, join_operation, joined_term, term_output, zero_output};
ghost use Rattle.sum_rules.specs.Shallowest.{order_of_operands, first_operand, second_operand};

use elimination_rules::Divisor;
use layout_rules::{Operation, Output};
use term::Term;

// 0 add or plus, 1 subtract or minus.
#[tactic(auto, unfolding(sum_rules::specs::Joins::sign_field))]
fn sign_field(minus: bool) -> u8
    ensures { result ≡ sign_field minus }
{
    u8::from(minus)
}

// One operation per divisor; no `From`, since both types are of other crates.
pub fn divisor_operation(d: Divisor) -> Operation
    ensures { result ≡ divisor_operation d }
{
    Operation {
        sign: sign_field(d.minus),
        a: d.a,
        sa: d.ea,
        b: d.b,
        sb: d.eb,
        width: 0,
    }
}

// Two terms that are joined, in the order of their operands.
#[derive(Clone, Copy)]
pub struct Operands {
    pub first: Term,
    pub second: Term,
}

impl Operands {
    // A positive term goes before a negative one; two of one sign keep their order.
    pub fn of(t: Term, u: Term) -> Operands
        ensures first_value { result.first ≡ first_operand order_of_operands t u }
        ensures second_value { result.second ≡ second_operand order_of_operands t u }
    {
        if t.negative() && !u.negative() {
            Operands {
                first: u,
                second: t,
            }
        } else {
            Operands {
                first: t,
                second: u,
            }
        }
    }
}

// The first's operand, plus the second's where their signs agree, minus it where they differ.
pub fn join_operation(first: Term, second: Term) -> Operation
    ensures { result ≡ join_operation first second }
{
    Operation {
        sign: sign_field(first.negative() != second.negative()),
        a: first.symbol(),
        sa: first.exponent(),
        b: second.symbol(),
        sb: second.exponent(),
        width: 0,
    }
}

// The result of a join: the operation's symbol, exponent 0, the sign of the first.
pub fn joined_term(symbol: u16, first: Term) -> Term
    requires { symbol < max_symbols }
    ensures { result ≡ joined_term symbol first }
{
    Term::joined(symbol, first.negative())
}

// The output of a row's last term; no `From`, since both types are of other crates.
pub fn term_output(t: Term) -> Output
    ensures { result ≡ term_output t }
{
    Output {
        sign: sign_field(t.negative()),
        symbol: t.symbol(),
        shift: t.exponent(),
        width: 0,
    }
}

// The output of a row without terms.
pub fn zero_output() -> Output
    ensures { result ≡ zero_output }
{
    Output {
        sign: 2,
        symbol: 0,
        shift: 0,
        width: 0,
    }
}
