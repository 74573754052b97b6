// Document 01, "Why a record was declined": the refusals, each with its number, and a refusal with its place. Rests on nothing.
#![tactic(auto)]

ghost use Rattle.std.specs.Prelude.{◌≡◌};
ghost use Rattle.refusals.specs.Numbers.{number, refused_at};

// In the order of their numbers, which are those of document 01's table.
#[derive(Clone, Copy, PartialEq, Eq)]
pub enum Refusal {
    FewMatrixBytes = 1,
    MatrixLengthField = 2,
    MatrixKind = 3,
    MatrixSize = 4,
    MatrixLength = 5,
    ShortBuffer = 6,
    ShortRecord = 7,
    UnexpectedRecord = 8,
    FieldOutOfRange = 9,
    WrongWidth = 10,
    WrongTotals = 11,
    BytesLeftOver = 12,
    SizesDiffer = 13,
    RowDiffers = 14,
    SampleCount = 15,
    OutputCount = 16,
    FileForm = 17,
    EntryCount = 18,
    EntryForm = 19,
    SampleWidthOutside = 20,
    SampleOutside = 21,
}

impl Refusal {
    pub fn number(self) -> u8
        ensures { result ≡ number self }
    {
        self as u8
    }

    pub fn at(self, place: usize) -> Refused
        ensures { result ≡ refused_at self place }
    {
        Refused {
            refusal: self,
            place,
        }
    }
}

// A refusal and the place that document 01 gives with it.
#[derive(Clone, Copy, PartialEq, Eq)]
pub struct Refused {
    pub refusal: Refusal,
    pub place: usize,
}
