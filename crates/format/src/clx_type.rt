// The types of a tree's records.

pub const BOOL: u64 = 1;

pub const INT32: u64 = 2;

pub const UINT32: u64 = 3;

pub const INT64: u64 = 4;

pub const UINT64: u64 = 5;

pub const DOUBLE: u64 = 6;

pub const VOIDPOINTER: u64 = 7;

pub const STRING: u64 = 8;

pub const BYTEARRAY: u64 = 9;

pub const LEVEL: u64 = 11;

pub const COMPRESS: u64 = 76;
