//! The grammar as a table of productions: what stands for what, by the first token.
//!
//! By its first token alone it is settled which production a nonterminal is written out by, so a text is followed without a step
//! back. The productions stand in the order of their nonterminals, so those of one are found by a binary search.

use wlexer::{Keyword, Symbol};

/// What a name in a query is, by where it stands.
#[derive(Clone, Copy, PartialEq, Eq)]
pub enum Role {
    /// A column, what stands before its dot, or a function.
    Identifier,
    /// The table behind FROM.
    Table,
    /// The alias of a source.
    Alias,
    /// A WINDOW entry.
    Entry,
    /// The window that another one copies.
    Copy,
    /// The window behind OVER.
    Use,
    /// Where a key of the query's ORDER BY begins.
    KeyBegin,
    /// Where it has ended.
    KeyEnd,
}

/// A kind of token.
#[derive(Clone, Copy)]
pub(crate) enum Kind {
    /// Any token, and the end.
    Any,
    Keyword(Keyword),
    Symbol(Symbol),
    Name,
    Number,
    Text,
}

/// A part of a production.
#[derive(Clone, Copy)]
pub(crate) enum Part {
    /// A token of this kind.
    Token(Kind),
    /// A name, which is noted.
    Name(Role),
    /// What a nonterminal stands for.
    Nonterminal(Nonterminal),
    /// From here on tokens are nested one level deeper.
    Deeper,
    /// That level ends.
    Shallower,
    /// A derived table's query begins.
    QueryBegins,
    /// It has ended.
    QueryEnds,
    /// A key of the query's ORDER BY begins.
    KeyBegins,
    /// It has ended.
    KeyEnds,
}

/// What a nonterminal stands for where such a token comes first. The first production that fits is taken.
pub(crate) struct Production {
    pub(crate) nonterminal: Nonterminal,
    pub(crate) first: Kind,
    pub(crate) parts: &'static [Part],
}

/// What productions stand for. They stand in this order.
#[derive(Clone, Copy, PartialEq, Eq)]
pub(crate) enum Nonterminal {
    Query,
    Semicolon,
    Items,
    MoreItems,
    Item,
    ItemAlias,
    Source,
    DerivedAlias,
    SourceAlias,
    Where,
    Group,
    Element,
    MoreElements,
    LoneSet,
    Set,
    MoreSets,
    SetInside,
    Parts,
    ColumnPart,
    MoreParts,
    Columns,
    MoreColumns,
    Column,
    Qualified,
    Having,
    Windows,
    Entry,
    MoreEntries,
    Window,
    Copied,
    Partition,
    WindowOrder,
    Key,
    MoreKeys,
    QueryOrder,
    OutputKey,
    MoreOutputKeys,
    Direction,
    Nulls,
    FirstOrLast,
    Limits,
    Offset,
    Limit,
    Frame,
    Extent,
    Bound,
    Side,
    Exclusion,
    Excluded,
    Condition,
    MoreConjunctions,
    Conjunction,
    MoreNegations,
    Negation,
    NullTest,
    OptionalNot,
    Comparison,
    Compared,
    Range,
    RangeTest,
    NegatedTest,
    MoreListed,
    Sum,
    MoreProducts,
    Product,
    MoreFactors,
    Signed,
    Primary,
    BehindName,
    Arguments,
    MoreConditions,
    Filter,
    Over,
    OverWhat,
}

/// The kind of token in front of a production.
macro_rules! kind {
    (_) => {
        Kind::Any
    };
    ([$keyword:ident]) => {
        Kind::Keyword(Keyword::$keyword)
    };
    ({$symbol:ident}) => {
        Kind::Symbol(Symbol::$symbol)
    };
    ((Token $kind:ident)) => {
        Kind::$kind
    };
}

/// A part of a production: a keyword in brackets, a symbol in braces, another token or a mark in parentheses, and a nonterminal.
macro_rules! part {
    ((Name $role:ident)) => {
        Part::Name(Role::$role)
    };
    ((Mark $mark:ident)) => {
        Part::$mark
    };
    ((Token $kind:ident)) => {
        Part::Token(Kind::$kind)
    };
    ([$keyword:ident]) => {
        Part::Token(Kind::Keyword(Keyword::$keyword))
    };
    ({$symbol:ident}) => {
        Part::Token(Kind::Symbol(Symbol::$symbol))
    };
    ($nonterminal:ident) => {
        Part::Nonterminal(Nonterminal::$nonterminal)
    };
}

/// A production: `NONTERMINAL: FIRST => PARTS`.
macro_rules! production {
    ($nonterminal:ident: $first:tt => $($part:tt)*) => {
        Production {
            nonterminal: Nonterminal::$nonterminal,
            first: kind!($first),
            parts: &[$(part!($part)),*],
        }
    };
}

/// The grammar of docs/QUERIES.md.
pub(crate) static PRODUCTIONS: [Production; 159] = [
    production!(Query: _ => [Select] Items [From] Source Where Group Having Windows QueryOrder Limits),
    production!(Semicolon: {Semicolon} => {Semicolon}),
    production!(Semicolon: _ =>),
    production!(Items: _ => Item MoreItems),
    production!(MoreItems: {Comma} => {Comma} Item MoreItems),
    production!(MoreItems: _ =>),
    production!(Item: {Asterisk} => {Asterisk}),
    production!(Item: _ => Condition ItemAlias),
    production!(ItemAlias: [As] => [As] (Token Name)),
    production!(ItemAlias: (Token Name) => (Token Name)),
    production!(ItemAlias: _ =>),
    production!(Source: {OpenParenthesis} => {OpenParenthesis} (Mark QueryBegins) (Mark Deeper) Query (Mark Shallower) (Mark QueryEnds)
        {CloseParenthesis} DerivedAlias),
    production!(Source: (Token Name) => (Name Table) SourceAlias),
    production!(DerivedAlias: [As] => [As] (Name Alias)),
    production!(DerivedAlias: (Token Name) => (Name Alias)),
    production!(SourceAlias: [As] => [As] (Name Alias)),
    production!(SourceAlias: (Token Name) => (Name Alias)),
    production!(SourceAlias: _ =>),
    production!(Where: [Where] => [Where] Condition),
    production!(Where: _ =>),
    production!(Group: [Group] => [Group] [By] Element MoreElements),
    production!(Group: _ =>),
    production!(Element: [Grouping] => [Grouping] [Sets] {OpenParenthesis} (Mark Deeper) Set MoreSets (Mark Shallower) {CloseParenthesis}),
    production!(Element: _ => LoneSet),
    production!(MoreElements: {Comma} => {Comma} Element MoreElements),
    production!(MoreElements: _ =>),
    production!(LoneSet: [Rollup] => [Rollup] Parts),
    production!(LoneSet: [Cube] => [Cube] Parts),
    production!(LoneSet: (Token Name) => Column),
    production!(Set: {OpenParenthesis} => {OpenParenthesis} SetInside),
    production!(Set: _ => LoneSet),
    production!(MoreSets: {Comma} => {Comma} Set MoreSets),
    production!(MoreSets: _ =>),
    production!(SetInside: {CloseParenthesis} => {CloseParenthesis}),
    production!(SetInside: _ => (Mark Deeper) Columns (Mark Shallower) {CloseParenthesis}),
    production!(Parts: {OpenParenthesis} => {OpenParenthesis} (Mark Deeper) ColumnPart MoreParts (Mark Shallower) {CloseParenthesis}),
    production!(ColumnPart: {OpenParenthesis} => {OpenParenthesis} (Mark Deeper) Columns (Mark Shallower) {CloseParenthesis}),
    production!(ColumnPart: (Token Name) => Column),
    production!(MoreParts: {Comma} => {Comma} ColumnPart MoreParts),
    production!(MoreParts: _ =>),
    production!(Columns: _ => Column MoreColumns),
    production!(MoreColumns: {Comma} => {Comma} Column MoreColumns),
    production!(MoreColumns: _ =>),
    production!(Column: (Token Name) => (Name Identifier) Qualified),
    production!(Qualified: {Dot} => {Dot} (Token Name)),
    production!(Qualified: _ =>),
    production!(Having: [Having] => [Having] Condition),
    production!(Having: _ =>),
    production!(Windows: [Window] => [Window] Entry MoreEntries),
    production!(Windows: _ =>),
    production!(Entry: (Token Name) => (Name Entry) [As] {OpenParenthesis} Window),
    production!(MoreEntries: {Comma} => {Comma} Entry MoreEntries),
    production!(MoreEntries: _ =>),
    production!(Window: {CloseParenthesis} => {CloseParenthesis}),
    production!(Window: _ => (Mark Deeper) Copied Partition WindowOrder Frame (Mark Shallower) {CloseParenthesis}),
    production!(Copied: (Token Name) => (Name Copy)),
    production!(Copied: _ =>),
    production!(Partition: [Partition] => [Partition] [By] Condition MoreConditions),
    production!(Partition: _ =>),
    production!(WindowOrder: [Order] => [Order] [By] Key MoreKeys),
    production!(WindowOrder: _ =>),
    production!(Key: _ => Condition Direction Nulls),
    production!(MoreKeys: {Comma} => {Comma} Key MoreKeys),
    production!(MoreKeys: _ =>),
    production!(QueryOrder: [Order] => [Order] [By] OutputKey MoreOutputKeys),
    production!(QueryOrder: _ =>),
    production!(OutputKey: _ => (Mark KeyBegins) Condition (Mark KeyEnds) Direction Nulls),
    production!(MoreOutputKeys: {Comma} => {Comma} OutputKey MoreOutputKeys),
    production!(MoreOutputKeys: _ =>),
    production!(Direction: [Asc] => [Asc]),
    production!(Direction: [Desc] => [Desc]),
    production!(Direction: _ =>),
    production!(Nulls: [Nulls] => [Nulls] FirstOrLast),
    production!(Nulls: _ =>),
    production!(FirstOrLast: [First] => [First]),
    production!(FirstOrLast: [Last] => [Last]),
    production!(Limits: [Limit] => [Limit] (Token Number) Offset),
    production!(Limits: [Offset] => [Offset] (Token Number) Limit),
    production!(Limits: _ =>),
    production!(Offset: [Offset] => [Offset] (Token Number)),
    production!(Offset: _ =>),
    production!(Limit: [Limit] => [Limit] (Token Number)),
    production!(Limit: _ =>),
    production!(Frame: [Rows] => [Rows] Extent Exclusion),
    production!(Frame: [Range] => [Range] Extent Exclusion),
    production!(Frame: [Groups] => [Groups] Extent Exclusion),
    production!(Frame: _ =>),
    production!(Extent: [Between] => [Between] Bound [And] Bound),
    production!(Extent: _ => Bound),
    production!(Bound: [Unbounded] => [Unbounded] Side),
    production!(Bound: [Current] => [Current] [Row]),
    production!(Bound: (Token Number) => (Token Number) Side),
    production!(Side: [Preceding] => [Preceding]),
    production!(Side: [Following] => [Following]),
    production!(Exclusion: [Exclude] => [Exclude] Excluded),
    production!(Exclusion: _ =>),
    production!(Excluded: [Current] => [Current] [Row]),
    production!(Excluded: [Group] => [Group]),
    production!(Excluded: [Ties] => [Ties]),
    production!(Excluded: [No] => [No] [Others]),
    production!(Condition: _ => Conjunction MoreConjunctions),
    production!(MoreConjunctions: [Or] => [Or] Conjunction MoreConjunctions),
    production!(MoreConjunctions: _ =>),
    production!(Conjunction: _ => Negation MoreNegations),
    production!(MoreNegations: [And] => [And] Negation MoreNegations),
    production!(MoreNegations: _ =>),
    production!(Negation: [Not] => [Not] (Mark Deeper) Negation (Mark Shallower)),
    production!(Negation: _ => Comparison NullTest),
    production!(NullTest: [Is] => [Is] OptionalNot [Null]),
    production!(NullTest: _ =>),
    production!(OptionalNot: [Not] => [Not]),
    production!(OptionalNot: _ =>),
    production!(Comparison: _ => Range Compared),
    production!(Compared: {Equal} => {Equal} Range),
    production!(Compared: {NotEqual} => {NotEqual} Range),
    production!(Compared: {Less} => {Less} Range),
    production!(Compared: {LessOrEqual} => {LessOrEqual} Range),
    production!(Compared: {Greater} => {Greater} Range),
    production!(Compared: {GreaterOrEqual} => {GreaterOrEqual} Range),
    production!(Compared: _ =>),
    production!(Range: _ => Sum RangeTest),
    production!(RangeTest: [Not] => [Not] NegatedTest),
    production!(RangeTest: [Between] => NegatedTest),
    production!(RangeTest: [In] => NegatedTest),
    production!(RangeTest: _ =>),
    production!(NegatedTest: [Between] => [Between] Sum [And] Sum),
    production!(NegatedTest: [In] => [In] {OpenParenthesis} (Mark Deeper) Sum MoreListed (Mark Shallower) {CloseParenthesis}),
    production!(MoreListed: {Comma} => {Comma} Sum MoreListed),
    production!(MoreListed: _ =>),
    production!(Sum: _ => Product MoreProducts),
    production!(MoreProducts: {Plus} => {Plus} Product MoreProducts),
    production!(MoreProducts: {Minus} => {Minus} Product MoreProducts),
    production!(MoreProducts: _ =>),
    production!(Product: _ => Signed MoreFactors),
    production!(MoreFactors: {Asterisk} => {Asterisk} Signed MoreFactors),
    production!(MoreFactors: _ =>),
    production!(Signed: {Plus} => {Plus} (Mark Deeper) Signed (Mark Shallower)),
    production!(Signed: {Minus} => {Minus} (Mark Deeper) Signed (Mark Shallower)),
    production!(Signed: _ => Primary),
    production!(Primary: (Token Number) => (Token Number)),
    production!(Primary: (Token Text) => (Token Text)),
    production!(Primary: [Null] => [Null]),
    production!(Primary: (Token Name) => (Name Identifier) BehindName),
    production!(Primary: [Grouping] => [Grouping] {OpenParenthesis} (Mark Deeper) Columns (Mark Shallower) {CloseParenthesis}),
    production!(Primary: {OpenParenthesis} => {OpenParenthesis} (Mark Deeper) Condition (Mark Shallower) {CloseParenthesis}),
    production!(BehindName: {Dot} => {Dot} (Token Name)),
    production!(BehindName: {OpenParenthesis} => {OpenParenthesis} Arguments Filter Over),
    production!(BehindName: _ =>),
    production!(Arguments: {CloseParenthesis} => {CloseParenthesis}),
    production!(Arguments: {Asterisk} => (Mark Deeper) {Asterisk} (Mark Shallower) {CloseParenthesis}),
    production!(Arguments: _ => (Mark Deeper) Condition MoreConditions (Mark Shallower) {CloseParenthesis}),
    production!(MoreConditions: {Comma} => {Comma} Condition MoreConditions),
    production!(MoreConditions: _ =>),
    production!(Filter: [Filter] => [Filter] {OpenParenthesis} (Mark Deeper) [Where] Condition (Mark Shallower) {CloseParenthesis}),
    production!(Filter: _ =>),
    production!(Over: [Over] => [Over] OverWhat),
    production!(Over: _ =>),
    production!(OverWhat: {OpenParenthesis} => {OpenParenthesis} Window),
    production!(OverWhat: (Token Name) => (Name Use)),
];
