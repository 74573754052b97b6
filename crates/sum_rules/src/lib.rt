// Document 01, "Row sums": rows summed two terms at a time, as definitions and laws. Has no code; rests on `elimination_rules` and
// `board_rules`.
#![tactic(auto)]
