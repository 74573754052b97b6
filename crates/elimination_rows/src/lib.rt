// Document 01, "Digits and terms" and "Elimination": the rows, by value. Rests on `limits`, `lists`, `term` and `digits`.
#![tactic(auto)]

pub mod row; // row.rt: a row of terms
pub mod rows; // rows.rt: all rows
