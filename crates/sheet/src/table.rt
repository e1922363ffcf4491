// The tags of 01's table, those of a sheet. Numbers and no enum: a tag is any byte, and the readers take every byte string (`field_at`).
pub const FILE: u8 = 0x01;

pub const MESSAGE: u8 = 0x02;

pub const EXTENSION: u8 = 0x03;

pub const ENUM: u8 = 0x04;

pub const FIELD: u8 = 0x05;

pub const VALUE: u8 = 0x06;

pub const PACKAGE: u8 = 0x10;

pub const NAME: u8 = 0x11;

pub const EXTENDEE: u8 = 0x12;

pub const NUMBER: u8 = 0x13;

pub const TYPE: u8 = 0x14;

pub const LABEL: u8 = 0x15;

pub const TYPE_PATH: u8 = 0x16;

pub const SIGNED_NUMBER: u8 = 0x17;
