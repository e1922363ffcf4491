// The tags of 01's table and of its constants, those of a request. Numbers and no enum: a tag is any byte, and the readers take every byte
// string (`field_at`).
pub const OPTION: u8 = 0x08;

pub const SCOPE: u8 = 0x18;

pub const OPTIONS_TYPE: u8 = 0x19;

pub const DIRECT_PART: u8 = 0x1a;

pub const EXTENSION_PART: u8 = 0x1b;

pub const BOOL: u8 = 0x20;

pub const UNSIGNED: u8 = 0x21;

pub const SIGNED: u8 = 0x22;

pub const FLOAT: u8 = 0x23;

pub const STRING: u8 = 0x24;

pub const IDENT: u8 = 0x25;

pub const MESSAGE_CONSTANT: u8 = 0x26;

pub const PAIR_FIELD: u8 = 0x27;

pub const PAIR_EXTENSION: u8 = 0x28;

pub const PAIR_URL: u8 = 0x29;

pub const LIST: u8 = 0x2a;
