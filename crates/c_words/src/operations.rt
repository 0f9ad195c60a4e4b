// C name of the questions that the source asks of a token, which goes in as its number.
ghost use Rattle.std.specs.Prelude.{◌≡◌};
ghost use Rattle.numbers.specs.Answer.{fitted, answered};
ghost use Rattle.c_words.specs.OperatorRow.{operator_row};

use crate::words;

fn row_of(token: u8) -> [u64; 9]
    ensures { result ≡ operator_row token }
{
    [
        operators::precedence::precedence(token) as u64,
        words::lookup_as_number(operators::assignments::get_base_op_from_assignment(token)),
        words::lookup_as_number(operators::assignments::convert_to_op_assignment(token)),
        operators::precedence::is_bind_right(token) as u64,
        operators::assignments::is_op_assignment(token) as u64,
        operators::assignments::has_op_assignment(token) as u64,
        operators::kinds::is_literal(token) as u64,
        operators::kinds::is_standard_symbol(token) as u64,
        operators::kinds::is_standard_keyword(token) as u64,
    ]
}

// The row: the precedence, or 0; the operator of an assignment and the assignment of an operator, or 256; six tests.
#[unsafe(no_mangle)]
pub extern "C" fn stew_operators(token: u8, answer: &mut [u8]) -> u32
    ensures value { result ≡ fitted (operator_row token) answer.old }
    ensures answer_after { answer.new ≡ answered (operator_row token) answer.old }
{
    if answer.len() < 72 {
        return 9;
    }
    let _ = numbers::write_row(&row_of(token), 8, answer);
    0
}
