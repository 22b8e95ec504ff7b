//! Keywords, and the table that finds them.

ghost use Rattle.std.specs.Prelude.{◌≡◌, map};
ghost use Rattle.wlexer.specs.Keywords.{keyword_in, keyword_of, spelling_of};

/// A word that the language keeps for itself. A name that is spelled like one has to be written in quotes.
#[derive(Clone, Copy, Debug, PartialEq, Eq)]
pub enum Keyword {
    All,
    And,
    As,
    Asc,
    Between,
    By,
    Case,
    Cast,
    Cross,
    Cube,
    Current,
    Desc,
    Distinct,
    Except,
    Exclude,
    Exists,
    False,
    Fetch,
    Filter,
    First,
    Following,
    For,
    From,
    Full,
    Group,
    Grouping,
    Groups,
    Having,
    In,
    Inner,
    Intersect,
    Is,
    Join,
    Last,
    Left,
    Like,
    Limit,
    Natural,
    No,
    Not,
    Null,
    Nulls,
    Offset,
    On,
    Or,
    Order,
    Others,
    Outer,
    Over,
    Partition,
    Preceding,
    Range,
    Right,
    Rollup,
    Row,
    Rows,
    Select,
    Sets,
    Ties,
    True,
    Unbounded,
    Union,
    Using,
    Where,
    Window,
    With,
}

/// A keyword and its spelling, in lower case.
#[derive(Clone, Copy)]
pub struct Entry {
    pub spelling: &'static str,
    pub keyword: Keyword,
}

const KEYWORDS: [Entry; 66] = [
    Entry {
        spelling: "all",
        keyword: Keyword::All,
    },
    Entry {
        spelling: "and",
        keyword: Keyword::And,
    },
    Entry {
        spelling: "as",
        keyword: Keyword::As,
    },
    Entry {
        spelling: "asc",
        keyword: Keyword::Asc,
    },
    Entry {
        spelling: "between",
        keyword: Keyword::Between,
    },
    Entry {
        spelling: "by",
        keyword: Keyword::By,
    },
    Entry {
        spelling: "case",
        keyword: Keyword::Case,
    },
    Entry {
        spelling: "cast",
        keyword: Keyword::Cast,
    },
    Entry {
        spelling: "cross",
        keyword: Keyword::Cross,
    },
    Entry {
        spelling: "cube",
        keyword: Keyword::Cube,
    },
    Entry {
        spelling: "current",
        keyword: Keyword::Current,
    },
    Entry {
        spelling: "desc",
        keyword: Keyword::Desc,
    },
    Entry {
        spelling: "distinct",
        keyword: Keyword::Distinct,
    },
    Entry {
        spelling: "except",
        keyword: Keyword::Except,
    },
    Entry {
        spelling: "exclude",
        keyword: Keyword::Exclude,
    },
    Entry {
        spelling: "exists",
        keyword: Keyword::Exists,
    },
    Entry {
        spelling: "false",
        keyword: Keyword::False,
    },
    Entry {
        spelling: "fetch",
        keyword: Keyword::Fetch,
    },
    Entry {
        spelling: "filter",
        keyword: Keyword::Filter,
    },
    Entry {
        spelling: "first",
        keyword: Keyword::First,
    },
    Entry {
        spelling: "following",
        keyword: Keyword::Following,
    },
    Entry {
        spelling: "for",
        keyword: Keyword::For,
    },
    Entry {
        spelling: "from",
        keyword: Keyword::From,
    },
    Entry {
        spelling: "full",
        keyword: Keyword::Full,
    },
    Entry {
        spelling: "group",
        keyword: Keyword::Group,
    },
    Entry {
        spelling: "grouping",
        keyword: Keyword::Grouping,
    },
    Entry {
        spelling: "groups",
        keyword: Keyword::Groups,
    },
    Entry {
        spelling: "having",
        keyword: Keyword::Having,
    },
    Entry {
        spelling: "in",
        keyword: Keyword::In,
    },
    Entry {
        spelling: "inner",
        keyword: Keyword::Inner,
    },
    Entry {
        spelling: "intersect",
        keyword: Keyword::Intersect,
    },
    Entry {
        spelling: "is",
        keyword: Keyword::Is,
    },
    Entry {
        spelling: "join",
        keyword: Keyword::Join,
    },
    Entry {
        spelling: "last",
        keyword: Keyword::Last,
    },
    Entry {
        spelling: "left",
        keyword: Keyword::Left,
    },
    Entry {
        spelling: "like",
        keyword: Keyword::Like,
    },
    Entry {
        spelling: "limit",
        keyword: Keyword::Limit,
    },
    Entry {
        spelling: "natural",
        keyword: Keyword::Natural,
    },
    Entry {
        spelling: "no",
        keyword: Keyword::No,
    },
    Entry {
        spelling: "not",
        keyword: Keyword::Not,
    },
    Entry {
        spelling: "null",
        keyword: Keyword::Null,
    },
    Entry {
        spelling: "nulls",
        keyword: Keyword::Nulls,
    },
    Entry {
        spelling: "offset",
        keyword: Keyword::Offset,
    },
    Entry {
        spelling: "on",
        keyword: Keyword::On,
    },
    Entry {
        spelling: "or",
        keyword: Keyword::Or,
    },
    Entry {
        spelling: "order",
        keyword: Keyword::Order,
    },
    Entry {
        spelling: "others",
        keyword: Keyword::Others,
    },
    Entry {
        spelling: "outer",
        keyword: Keyword::Outer,
    },
    Entry {
        spelling: "over",
        keyword: Keyword::Over,
    },
    Entry {
        spelling: "partition",
        keyword: Keyword::Partition,
    },
    Entry {
        spelling: "preceding",
        keyword: Keyword::Preceding,
    },
    Entry {
        spelling: "range",
        keyword: Keyword::Range,
    },
    Entry {
        spelling: "right",
        keyword: Keyword::Right,
    },
    Entry {
        spelling: "rollup",
        keyword: Keyword::Rollup,
    },
    Entry {
        spelling: "row",
        keyword: Keyword::Row,
    },
    Entry {
        spelling: "rows",
        keyword: Keyword::Rows,
    },
    Entry {
        spelling: "select",
        keyword: Keyword::Select,
    },
    Entry {
        spelling: "sets",
        keyword: Keyword::Sets,
    },
    Entry {
        spelling: "ties",
        keyword: Keyword::Ties,
    },
    Entry {
        spelling: "true",
        keyword: Keyword::True,
    },
    Entry {
        spelling: "unbounded",
        keyword: Keyword::Unbounded,
    },
    Entry {
        spelling: "union",
        keyword: Keyword::Union,
    },
    Entry {
        spelling: "using",
        keyword: Keyword::Using,
    },
    Entry {
        spelling: "where",
        keyword: Keyword::Where,
    },
    Entry {
        spelling: "window",
        keyword: Keyword::Window,
    },
    Entry {
        spelling: "with",
        keyword: Keyword::With,
    },
];

/// The keyword that the word spells by the table. Most entries differ from it in length already.
fn find(table: &[Entry], word: &str) -> Option<Keyword>
    ensures { result ≡ keyword_in (map spelling_of table.now) word.now }
{
    for entry in table {
        if entry.spelling.eq_ignore_ascii_case(word) {
            return Some(entry.keyword);
        }
    }
    None
}

/// The keyword that a word spells, in letters of either case.
pub fn keyword_of(word: &str) -> Option<Keyword>
    ensures { result ≡ keyword_of word.now }
{
    find(&KEYWORDS, word)
}
