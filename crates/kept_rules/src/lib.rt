// Request A3: kept scores, as definitions and laws. Has no code; rests on `elimination_rules`.
#![tactic(auto)]
