// Document 01, "Elimination", on masks: the occurrences of a divisor in each row, what is taken of it, its score, and the columns after a
// step. Rests on `limits`, `bits`, `elimination_rules` and `kept_rules`.
// A column goes by value and each loop has exactly MAX_ROWS turns, so that the compiler works on all rows at once.
#![tactic(auto)]

pub mod masks; // masks.rt: in one row
pub mod columns; // columns.rt: in all rows
