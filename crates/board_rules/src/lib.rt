// Document 01, "Netlist and board machine": the board machine, the coefficients of each entry, widths and depth, and what a netlist is.
// All of it is defined in specs/, with laws in proofs/. Rests on `limits`, `integers` and `layout_rules`.
// A table that is lent has the coefficients of a symbol in a row of its own, at symbol * MAX_COLUMNS + column, or a value or a depth by
// symbol.
#![tactic(auto)]

ghost use Rattle.std.specs.Prelude.{◌*◌};

use limits::{MAX_COLUMNS, MAX_SYMBOLS};

// The length of a table of coefficients.
pub const FORMS_LENGTH: usize = MAX_SYMBOLS * MAX_COLUMNS;
