// Readings: the number that a cell has, and the key by which duplicates are told (document 01, 'Readings').
#![tactic(auto)]

pub mod key;
pub mod number;
pub mod text;
