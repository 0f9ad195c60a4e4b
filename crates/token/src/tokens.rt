// The tokens as numbers: their places in the source's `enum Token`, under default features.
pub const INTEGER_CONSTANT: u8 = 0;

pub const FLOAT_CONSTANT: u8 = 1;

pub const IDENTIFIER: u8 = 2;

pub const CHAR_CONSTANT: u8 = 3;

pub const STRING_CONSTANT: u8 = 4;

pub const INTERPOLATED_STRING: u8 = 5;

pub const LEFT_BRACE: u8 = 6;

pub const RIGHT_BRACE: u8 = 7;

pub const LEFT_PAREN: u8 = 8;

pub const RIGHT_PAREN: u8 = 9;

pub const LEFT_BRACKET: u8 = 10;

pub const RIGHT_BRACKET: u8 = 11;

pub const UNIT: u8 = 12;

pub const PLUS: u8 = 13;

pub const UNARY_PLUS: u8 = 14;

pub const MINUS: u8 = 15;

pub const UNARY_MINUS: u8 = 16;

pub const MULTIPLY: u8 = 17;

pub const DIVIDE: u8 = 18;

pub const MODULO: u8 = 19;

pub const POWER_OF: u8 = 20;

pub const LEFT_SHIFT: u8 = 21;

pub const RIGHT_SHIFT: u8 = 22;

pub const SEMI_COLON: u8 = 23;

pub const COLON: u8 = 24;

pub const DOUBLE_COLON: u8 = 25;

pub const DOUBLE_ARROW: u8 = 26;

pub const UNDERSCORE: u8 = 27;

pub const COMMA: u8 = 28;

pub const PERIOD: u8 = 29;

pub const ELVIS: u8 = 30;

pub const DOUBLE_QUESTION: u8 = 31;

pub const QUESTION_BRACKET: u8 = 32;

pub const EXCLUSIVE_RANGE: u8 = 33;

pub const INCLUSIVE_RANGE: u8 = 34;

pub const MAP_START: u8 = 35;

pub const EQUALS: u8 = 36;

pub const TRUE: u8 = 37;

pub const FALSE: u8 = 38;

pub const LET: u8 = 39;

pub const CONST: u8 = 40;

pub const IF: u8 = 41;

pub const ELSE: u8 = 42;

pub const SWITCH: u8 = 43;

pub const DO: u8 = 44;

pub const WHILE: u8 = 45;

pub const UNTIL: u8 = 46;

pub const LOOP: u8 = 47;

pub const FOR: u8 = 48;

pub const IN: u8 = 49;

pub const NOT_IN: u8 = 50;

pub const LESS_THAN: u8 = 51;

pub const GREATER_THAN: u8 = 52;

pub const LESS_THAN_EQUALS_TO: u8 = 53;

pub const GREATER_THAN_EQUALS_TO: u8 = 54;

pub const EQUALS_TO: u8 = 55;

pub const NOT_EQUALS_TO: u8 = 56;

pub const BANG: u8 = 57;

pub const PIPE: u8 = 58;

pub const OR: u8 = 59;

pub const XOR: u8 = 60;

pub const AMPERSAND: u8 = 61;

pub const AND: u8 = 62;

pub const FN: u8 = 63;

pub const CONTINUE: u8 = 64;

pub const BREAK: u8 = 65;

pub const RETURN: u8 = 66;

pub const THROW: u8 = 67;

pub const TRY: u8 = 68;

pub const CATCH: u8 = 69;

pub const PLUS_ASSIGN: u8 = 70;

pub const MINUS_ASSIGN: u8 = 71;

pub const MULTIPLY_ASSIGN: u8 = 72;

pub const DIVIDE_ASSIGN: u8 = 73;

pub const LEFT_SHIFT_ASSIGN: u8 = 74;

pub const RIGHT_SHIFT_ASSIGN: u8 = 75;

pub const AND_ASSIGN: u8 = 76;

pub const OR_ASSIGN: u8 = 77;

pub const XOR_ASSIGN: u8 = 78;

pub const MODULO_ASSIGN: u8 = 79;

pub const POWER_OF_ASSIGN: u8 = 80;

pub const PRIVATE: u8 = 81;

pub const IMPORT: u8 = 82;

pub const EXPORT: u8 = 83;

pub const AS: u8 = 84;

pub const LEX_ERROR: u8 = 85;

pub const COMMENT: u8 = 86;

pub const RESERVED: u8 = 87;

pub const CUSTOM: u8 = 88;

pub const UNPROCESSED_RAW_CHAR: u8 = 89;

pub const EOF: u8 = 90;

// How many tokens there are: a number from here on names none.
pub const TOKEN_COUNT: u8 = 91;
