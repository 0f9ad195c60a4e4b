// The operator-assignment pairs: the four questions that the Rust asks of them.
ghost use Rattle.std.specs.Prelude.{◌≡◌};
ghost use Rattle.operators.specs.Assignments.{is_op_assignment, has_op_assignment, base_op_of, op_assignment_of};

use token::tokens::*;

// Whether a token is an assignment with an operator.
pub fn is_op_assignment(token: u8) -> bool
    ensures { result ≡ is_op_assignment token }
{
    matches!(token, PLUS_ASSIGN..=POWER_OF_ASSIGN)
}

// The operator of an assignment.
#[tactic(auto, unfolding(crate::specs::Assignments::base_op_of, crate::specs::Assignments::operator_in))]
pub fn get_base_op_from_assignment(token: u8) -> Option<u8>
    ensures { result ≡ base_op_of token }
{
    match token {
        PLUS_ASSIGN => Some(PLUS),
        MINUS_ASSIGN => Some(MINUS),
        MULTIPLY_ASSIGN => Some(MULTIPLY),
        DIVIDE_ASSIGN => Some(DIVIDE),
        LEFT_SHIFT_ASSIGN => Some(LEFT_SHIFT),
        RIGHT_SHIFT_ASSIGN => Some(RIGHT_SHIFT),
        MODULO_ASSIGN => Some(MODULO),
        POWER_OF_ASSIGN => Some(POWER_OF),
        AND_ASSIGN => Some(AMPERSAND),
        OR_ASSIGN => Some(PIPE),
        XOR_ASSIGN => Some(XOR),
        _ => None,
    }
}

// Whether a token is an operator that has an assignment.
pub fn has_op_assignment(token: u8) -> bool
    ensures { result ≡ has_op_assignment token }
{
    matches!(
        token,
        PLUS | MINUS | MULTIPLY..=RIGHT_SHIFT | PIPE | XOR | AMPERSAND
    )
}

// The assignment of an operator.
#[tactic(auto, unfolding(crate::specs::Assignments::op_assignment_of, crate::specs::Assignments::assignment_in))]
pub fn convert_to_op_assignment(token: u8) -> Option<u8>
    ensures { result ≡ op_assignment_of token }
{
    match token {
        PLUS => Some(PLUS_ASSIGN),
        MINUS => Some(MINUS_ASSIGN),
        MULTIPLY => Some(MULTIPLY_ASSIGN),
        DIVIDE => Some(DIVIDE_ASSIGN),
        LEFT_SHIFT => Some(LEFT_SHIFT_ASSIGN),
        RIGHT_SHIFT => Some(RIGHT_SHIFT_ASSIGN),
        MODULO => Some(MODULO_ASSIGN),
        POWER_OF => Some(POWER_OF_ASSIGN),
        AMPERSAND => Some(AND_ASSIGN),
        PIPE => Some(OR_ASSIGN),
        XOR => Some(XOR_ASSIGN),
        _ => None,
    }
}
