// The kinds of requests, by the numbers that trace records have them as. Bytes, since a record and C have any: the enum of the nine is
// `rules::Request`, and one of bare kinds would only stand between two matches.
pub const PUSH: u8 = 1;

pub const POP: u8 = 2;

pub const REPLACE: u8 = 3;

pub const HOST: u8 = 4;

pub const RETURN_HOST: u8 = 5;

pub const SYNC: u8 = 6;

pub const RESTORE: u8 = 7;

pub const RESET: u8 = 8;

pub const SET: u8 = 9;
