// The characters that the rules of a script name.
pub const LF: u32 = 0x0A;

pub const CR: u32 = 0x0D;

pub const SPACE: u32 = 0x20;

pub const QUOTE: u32 = 0x22;

pub const HASH: u32 = 0x23;

pub const DOLLAR: u32 = 0x24;

pub const APOSTROPHE: u32 = 0x27;

pub const STAR: u32 = 0x2A;

pub const SLASH: u32 = 0x2F;

pub const BACKSLASH: u32 = 0x5C;

pub const UNDERSCORE: u32 = 0x5F;

pub const BACKTICK: u32 = 0x60;

pub const LEFT_BRACE: u32 = 0x7B;
