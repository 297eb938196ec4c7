// The forms in which a node is shown, by their numbers.

pub const LEFT: u32 = 0;

pub const RIGHT: u32 = 1;

pub const FIRST: u32 = 2;

pub const MORE: u32 = 3;

pub const LOW: u32 = 4;

pub const BASE: u32 = 5;

pub const PIECE: u32 = 6;

pub const FULL: u32 = 7;

pub const BARE: u32 = 8;

pub const ROOT: u32 = 9;

pub const EXPAND: u32 = 10;

pub const DECLARED: u32 = 11;
