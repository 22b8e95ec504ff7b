//! The sentence of each refusal.
ghost use Rattle.std.specs.Prelude.{◌≡◌, ◌++◌, codes};
ghost use Rattle.std.specs.Fmt.{decimal};
ghost use Rattle.wrules.specs.Rules.{number_of};
ghost use Rattle.wsentences.specs.Labels.{file_label, name_label, query_label, segment_label, table_label};

use wexchange::FileFault;
use wplanner::AskFault;
use wrules::Rule;
use wsegment::{SchemaFault, SegmentFault};
use wvalues::NameFault;

/// What a refusal is called, and what it says in words of SQL or of the formats.
#[derive(Clone, Copy)]
pub struct Sentence {
    /// The letter and the number that a refusal prints.
    pub label: &'static str,
    pub words: &'static str,
}

/// B1.
pub const STREAM: Sentence = Sentence {
    label: "B1",
    words: "the delivery stream holds a line or a body of another form",
};

const OUT_OF_MEMORY: Sentence = Sentence {
    label: "no memory",
    words: "memory was refused",
};

const T1: Sentence = Sentence {
    label: "T1",
    words: "the declaration is not spelled as one, or is longer than 65,536 bytes",
};

const T2: Sentence = Sentence {
    label: "T2",
    words: "two columns of the declaration have one name",
};

const T3: Sentence = Sentence {
    label: "T3",
    words: "a table has 1 to 64 columns",
};

const N1: Sentence = Sentence {
    label: "N1",
    words: "an origin is 1 to 32 of a-z, 0-9, _ and -",
};

const N2: Sentence = Sentence {
    label: "N2",
    words: "a number is 1 to 999999999, without leading zeros",
};

const S1: Sentence = Sentence {
    label: "S1",
    words: "the segment is longer than 67,108,864 bytes",
};

const S2: Sentence = Sentence {
    label: "S2",
    words: "the segment has no header",
};

const S3: Sentence = Sentence {
    label: "S3",
    words: "a field is not UTF-8",
};

const S4: Sentence = Sentence {
    label: "S4",
    words: "the header names a column that the table lacks",
};

const S5: Sentence = Sentence {
    label: "S5",
    words: "the header names a column twice",
};

const S6: Sentence = Sentence {
    label: "S6",
    words: "the header lacks a column of the table",
};

const S7: Sentence = Sentence {
    label: "S7",
    words: "a row has another number of fields than the header",
};

const S8: Sentence = Sentence {
    label: "S8",
    words: "a field of an integer column is no integer of 64 bits",
};

const S9: Sentence = Sentence {
    label: "S9",
    words: "the segment has more than 1,000,000 rows",
};

const X1: Sentence = Sentence {
    label: "X1",
    words: "the bytes are not those of an exchange file",
};

const X2: Sentence = Sentence {
    label: "X2",
    words: "the exchange file is cut short",
};

const X3: Sentence = Sentence {
    label: "X3",
    words: "the names do not rise, or a floor stands behind a name of its origin",
};

const X4: Sentence = Sentence {
    label: "X4",
    words: "the line E counts another number of records",
};

const X5: Sentence = Sentence {
    label: "X5",
    words: "the exchange file is of another table",
};

const X6: Sentence = Sentence {
    label: "X6",
    words: "the segment of a name is refused",
};

const X7: Sentence = Sentence {
    label: "X7",
    words: "bytes stand behind the end of the exchange file",
};

const X8: Sentence = Sentence {
    label: "X8",
    words: "the digest is not that of the bytes before it: the file was changed",
};

const Q1: Sentence = Sentence {
    label: "Q1",
    words: "the query is longer than 65,536 bytes",
};

const Q2: Sentence = Sentence {
    label: "Q2",
    words: "the query is not UTF-8",
};

const Q3: Sentence = Sentence {
    label: "Q3",
    words: "no word, number, quoted text or symbol of the language begins here",
};

const Q4: Sentence = Sentence {
    label: "Q4",
    words: "no SELECT of the language goes on like this, nested at most 64 deep",
};

const Q10: Sentence = Sentence {
    label: "Q10",
    words: "FROM names a table that is not declared, or a column stands behind another name than its source's",
};

const Q11: Sentence = Sentence {
    label: "Q11",
    words: "the source has no column of this name",
};

const Q12: Sentence = Sentence {
    label: "Q12",
    words: "one name means two columns of the source, or two items in ORDER BY",
};

const Q13: Sentence = Sentence {
    label: "Q13",
    words: "no function has this name, or it does not take these arguments",
};

const Q14: Sentence = Sentence {
    label: "Q14",
    words: "a type does not fit: sums take integers, comparisons values of one type, conditions truths",
};

const Q15: Sentence = Sentence {
    label: "Q15",
    words: "a call with OVER stands where none may, or a window function stands without OVER",
};

const Q16: Sentence = Sentence {
    label: "Q16",
    words: "an aggregate without OVER, or GROUPING, stands in WHERE or within an aggregate",
};

const Q17: Sentence = Sentence {
    label: "Q17",
    words: "a column that is not in GROUP BY stands outside the aggregates of a grouped query",
};

const Q18: Sentence = Sentence {
    label: "Q18",
    words: "FILTER stands behind a function that is no aggregate",
};

const Q19: Sentence = Sentence {
    label: "Q19",
    words: "no WINDOW entry has this name, or none before the entry that copies it",
};

const Q20: Sentence = Sentence {
    label: "Q20",
    words: "two WINDOW entries have one name",
};

const Q21: Sentence = Sentence {
    label: "Q21",
    words: "a copy of a window has PARTITION BY or a second ORDER BY, or the window has a frame",
};

const Q22: Sentence = Sentence {
    label: "Q22",
    words: "a frame ends before it starts, or an offset is 2^63 or more",
};

const Q23: Sentence = Sentence {
    label: "Q23",
    words: "GROUPS needs ORDER BY in its window",
};

const Q24: Sentence = Sentence {
    label: "Q24",
    words: "RANGE with an offset needs one key in its window's ORDER BY, which is no text",
};

const Q25: Sentence = Sentence {
    label: "Q25",
    words: "ntile and nth_value count from 1",
};

const Q26: Sentence = Sentence {
    label: "Q26",
    words: "a literal in ORDER BY is the place of an item, from 1",
};

const Q27: Sentence = Sentence {
    label: "Q27",
    words: "more than 64 items, 32 windows, 16 entries in a list, or 8 derived tables one in another",
};

const Q28: Sentence = Sentence {
    label: "Q28",
    words: "GROUP BY stands for more than 64 sets",
};

const Q40: Sentence = Sentence {
    label: "Q40",
    words: "a number is not strictly between -2^95 and 2^95",
};

const Q41: Sentence = Sentence {
    label: "Q41",
    words: "more than 2,147,483,647 rows are kept, or groups made",
};

/// The sentence of a name that is none.
pub(crate) fn name_sentence(fault: NameFault) -> Sentence
    ensures { result.label.now ≡ name_label fault }
{
    match fault {
        NameFault::BadOrigin => N1,
        NameFault::BadNumber => N2,
    }
}

/// The sentence of a declaration that is refused.
pub(crate) fn table_sentence(fault: SchemaFault) -> Sentence
    ensures { result.label.now ≡ table_label fault }
{
    match fault {
        SchemaFault::Syntax => T1,
        SchemaFault::RepeatedColumn => T2,
        SchemaFault::ColumnCount => T3,
        SchemaFault::NoMemory => OUT_OF_MEMORY,
    }
}

/// The sentence of a segment that is refused.
pub fn segment_sentence(fault: SegmentFault) -> Sentence
    ensures { result.label.now ≡ segment_label fault }
{
    match fault {
        SegmentFault::TooLong => S1,
        SegmentFault::NoHeader => S2,
        SegmentFault::HeaderNotUtf8 => S3,
        SegmentFault::RowNotUtf8 { .. } => S3,
        SegmentFault::UnknownColumn => S4,
        SegmentFault::RepeatedColumn => S5,
        SegmentFault::MissingColumn => S6,
        SegmentFault::RowLength { .. } => S7,
        SegmentFault::NotInteger { .. } => S8,
        SegmentFault::TooManyRows => S9,
        SegmentFault::NoMemory => OUT_OF_MEMORY,
    }
}

/// The sentence of an exchange file that is refused. That of a segment in it is told behind.
pub fn file_sentence(fault: FileFault) -> Sentence
    ensures { result.label.now ≡ file_label fault }
{
    match fault {
        FileFault::OtherFormat => X1,
        FileFault::Truncated => X2,
        FileFault::NotRising => X3,
        FileFault::OtherCount => X4,
        FileFault::OtherSchema => X5,
        FileFault::Segment(_) => X6,
        FileFault::Trailing => X7,
        FileFault::OtherDigest => X8,
        FileFault::NoMemory => OUT_OF_MEMORY,
    }
}

// The sentence of a rule of resolution.
fn rule_sentence(rule: Rule) -> Sentence
    ensures { result.label.now ≡ codes "Q" ++ decimal (number_of rule) }
{
    match rule {
        Rule::UnknownTable => Q10,
        Rule::UnknownColumn => Q11,
        Rule::AmbiguousName => Q12,
        Rule::WrongCall => Q13,
        Rule::WrongType => Q14,
        Rule::MisplacedWindowCall => Q15,
        Rule::MisplacedAggregate => Q16,
        Rule::UngroupedColumn => Q17,
        Rule::WrongFilter => Q18,
        Rule::UnknownWindow => Q19,
        Rule::RepeatedWindow => Q20,
        Rule::WrongCopy => Q21,
        Rule::WrongBounds => Q22,
        Rule::UnorderedGroups => Q23,
        Rule::WrongRangeKey => Q24,
        Rule::ZeroCount => Q25,
        Rule::WrongPlace => Q26,
        Rule::OverLimit => Q27,
        Rule::TooManySets => Q28,
    }
}

/// The sentence of a query that is refused.
pub fn query_sentence(fault: AskFault) -> Sentence
    ensures { result.label.now ≡ query_label fault }
{
    match fault {
        AskFault::TooLong => Q1,
        AskFault::NotUtf8 => Q2,
        AskFault::At { .. } => Q3,
        AskFault::Syntax => Q4,
        AskFault::Broken(rule) => rule_sentence(rule),
        AskFault::OutOfRange => Q40,
        AskFault::TooManyRows => Q41,
        AskFault::NoMemory => OUT_OF_MEMORY,
    }
}
