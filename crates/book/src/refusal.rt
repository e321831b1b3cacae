// Why a book is refused, or a call on it. C and the printed lines give the number.
ghost use Rattle.std.specs.Prelude.{◌≡◌};
ghost use Rattle.book.specs.Refusal.{number};

use super::unlisted::Unlisted;

#[derive(Clone, Copy, Debug, PartialEq, Eq)]
pub enum Refusal {
    LargeBudget, // 1: the budget is above 1,000,000
    ShortEdgeList, // 2
    ShortTypeList, // 3
    CutOff, // 4: the book ends before something in it is complete
    WrittenDefault, // 5: a field is written with the value that an absent one stands for, or a header bit has no count
    TooMany, // 6: a count is above its limit
    UnknownKind, // 7
    WrongMap, // 8: a record's map is none of its kind's
    OutOfRange, // 9: a field's number is at its limit or above
    BytesBehind, // 10: bytes stand behind the last record
    ShortPairList, // 11
    ShortOutput, // 12: the written book does not fit into the lent bytes
    ShortRowList, // 13
    UnknownReader, // 14: the reader is above 31
    WrongTable, // 15: the readers' table has another length than 1,024
    EndsBeforeStart, // 16: a statement's last day is before its first
    NoSuchQuestion, // 17: a question names an individual or a concept that the book has not
    Other(Unlisted), // any other number that a caller hands on; no function here gives one
}

impl Refusal {
    pub fn number(self) -> u8
        ensures { result ≡ number self }
    {
        match self {
            Refusal::LargeBudget => 1,
            Refusal::ShortEdgeList => 2,
            Refusal::ShortTypeList => 3,
            Refusal::CutOff => 4,
            Refusal::WrittenDefault => 5,
            Refusal::TooMany => 6,
            Refusal::UnknownKind => 7,
            Refusal::WrongMap => 8,
            Refusal::OutOfRange => 9,
            Refusal::BytesBehind => 10,
            Refusal::ShortPairList => 11,
            Refusal::ShortOutput => 12,
            Refusal::ShortRowList => 13,
            Refusal::UnknownReader => 14,
            Refusal::WrongTable => 15,
            Refusal::EndsBeforeStart => 16,
            Refusal::NoSuchQuestion => 17,
            Refusal::Other(other) => other.number,
        }
    }
}

impl From<Refusal> for u8 {
    ghost from_gives = { λ refusal n. n ≡ number refusal };

    fn from(refusal: Refusal) -> u8 {
        refusal.number()
    }
}

impl From<u8> for Refusal {
    ghost from_gives = { λ n refusal. number refusal ≡ n };

    fn from(n: u8) -> Refusal {
        match n {
            1 => Refusal::LargeBudget,
            2 => Refusal::ShortEdgeList,
            3 => Refusal::ShortTypeList,
            4 => Refusal::CutOff,
            5 => Refusal::WrittenDefault,
            6 => Refusal::TooMany,
            7 => Refusal::UnknownKind,
            8 => Refusal::WrongMap,
            9 => Refusal::OutOfRange,
            10 => Refusal::BytesBehind,
            11 => Refusal::ShortPairList,
            12 => Refusal::ShortOutput,
            13 => Refusal::ShortRowList,
            14 => Refusal::UnknownReader,
            15 => Refusal::WrongTable,
            16 => Refusal::EndsBeforeStart,
            17 => Refusal::NoSuchQuestion,
            _ => Refusal::Other(Unlisted { number: n }),
        }
    }
}
