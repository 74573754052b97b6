// What comes before an occurrence in a row, as masks, one for each row. Rests on `limits`.
ghost use Rattle.std.specs.Prelude.{◌<◌};
ghost use Rattle.limits.specs.Limits.{max_rows, positions};
ghost use Rattle.elimination_gained.specs.Gained.{Earlier};

use limits::MAX_ROWS;

// Before a row: all co-divisors of the rows before it.
#[derive(Clone, Copy)]
pub(crate) struct Before {
    pub row: usize,
    pub masks: [u16; MAX_ROWS],
    ghost inside: { row < max_rows },
    ghost earlier: { Earlier row 0 masks },
}

impl Before {
    // Before co-divisor c of the row: besides, what is below c in it.
    pub fn below(self, c: u8) -> [u16; MAX_ROWS]
        requires { c < positions }
        ensures { Earlier self.row c result }
    {
        let mut out = self.masks;
        out[self.row] = (1u16 << (c as u16)) - 1;
        out
    }
}
