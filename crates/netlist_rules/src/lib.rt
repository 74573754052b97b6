// Document 01, "Reading, checking, running": what read, sample_width, check and run answer. Rests on `limits`,
// `refusals`, `layout_rules` and `board_rules` alone, and sees nothing of the elimination; the theorems about these answers stand in proofs/.
#![tactic(auto)]

ghost use Rattle.std.specs.Prelude.{◌≡◌};
ghost use Rattle.netlist_rules.specs.Read.{read_refused};
ghost use Rattle.netlist_rules.specs.Check.{checked};
ghost use Rattle.netlist_rules.specs.Run.{ran};
ghost use Rattle.refusals.specs.Numbers.{refusal_in, place_in};

use refusals::Refused;

// The four answers keep a refusal as a number beside their other fields: the C interface has them so, and `read_answer`,
// `sample_width_answer`, `check_answer` and `run_answer` speak of these fields.

// What read returns: a refusal and its place, or m, n, operations and depth.
#[derive(Clone, Copy)]
pub struct ReadAnswer {
    pub refusal: u8,
    pub place: usize,
    pub m: u8,
    pub n: u8,
    pub operations: u16,
    pub depth: u16,
}

impl ReadAnswer {
    // a refusal, with all counts 0
    pub fn refused(refusal: u8, place: usize) -> ReadAnswer
        ensures { result ≡ read_refused refusal place }
    {
        ReadAnswer {
            refusal,
            place,
            m: 0,
            n: 0,
            operations: 0,
            depth: 0,
        }
    }
}

// What sample_width returns: a refusal and its place, or the sample width of the head.
#[derive(Clone, Copy)]
pub struct SampleWidthAnswer {
    pub refusal: u8,
    pub place: usize,
    pub width: u8,
}

// What check returns. Its type is not run's, though of the same fields: `check_answer` and `run_answer` name each.
#[derive(Clone, Copy)]
pub struct CheckAnswer {
    pub refusal: u8,
    pub place: usize,
}

impl From<Result<(), Refused>> for CheckAnswer {
    ghost from_gives = { λ r answer. answer ≡ checked (refusal_in r) (place_in r) };

    fn from(compared: Result<(), Refused>) -> CheckAnswer {
        match compared {
            Ok(()) => CheckAnswer {
                refusal: 0,
                place: 0,
            },
            Err(refused) => CheckAnswer {
                refusal: refused.refusal.number(),
                place: refused.place,
            },
        }
    }
}

// What run and clock return.
#[derive(Clone, Copy)]
pub struct RunAnswer {
    pub refusal: u8,
    pub place: usize,
}

impl From<Result<(), Refused>> for RunAnswer {
    ghost from_gives = { λ r answer. answer ≡ ran (refusal_in r) (place_in r) };

    fn from(through: Result<(), Refused>) -> RunAnswer {
        match through {
            Ok(()) => RunAnswer {
                refusal: 0,
                place: 0,
            },
            Err(refused) => RunAnswer {
                refusal: refused.refusal.number(),
                place: refused.place,
            },
        }
    }
}
