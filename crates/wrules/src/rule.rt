//! The rules of resolution.

ghost use Rattle.std.specs.Prelude.{◌≡◌};
ghost use Rattle.wrules.specs.Rules.{number_of};

/// A rule that a query breaks, in the order in which they are judged.
#[derive(Clone, Copy, Debug, PartialEq, Eq, Drop)]
pub enum Rule {
    /// Q10: FROM names another table than the declared one, or a qualifier is not the source's alias.
    UnknownTable,
    /// Q11: a column that the source lacks.
    UnknownColumn,
    /// Q12: a name that two columns have, or two items with two expressions.
    AmbiguousName,
    /// Q13: an unknown function, or arguments that it does not take.
    WrongCall,
    /// Q14: a type that does not fit.
    WrongType,
    /// Q15: a call with OVER where none may stand, or a function that needs OVER without it.
    MisplacedWindowCall,
    /// Q16: an aggregate without OVER in WHERE or within another one.
    MisplacedAggregate,
    /// Q17: a column outside GROUP BY in a grouped query.
    UngroupedColumn,
    /// Q18: FILTER on a function that is no aggregate.
    WrongFilter,
    /// Q19: a window name that no entry has, or in an entry no earlier entry.
    UnknownWindow,
    /// Q20: two WINDOW entries of one name.
    RepeatedWindow,
    /// Q21: a copy with PARTITION BY of its own, with ORDER BY beside that of the copied window, or of a window with a
    /// frame clause.
    WrongCopy,
    /// Q22: a pair of bounds that is none, or an offset of 2^63 or more.
    WrongBounds,
    /// Q23: GROUPS in a window without ORDER BY.
    UnorderedGroups,
    /// Q24: RANGE with an offset bound in a window without exactly one key, or whose key is a text.
    WrongRangeKey,
    /// Q25: `ntile(0)`, or `nth_value(v, 0)`.
    ZeroCount,
    /// Q26: in the query's ORDER BY, a number that is no item's place, or another literal.
    WrongPlace,
    /// Q27: over 64 items, 32 windows, 16 entries in a list, or 8 derived tables one in another.
    OverLimit,
    /// Q28: over 64 sets of GROUP BY.
    TooManySets,
}

impl Rule {
    /// The number that a refusal prints, 10 to 28.
    pub fn number(self) -> u8
        ensures { result ≡ number_of self }
    {
        match self {
            Rule::UnknownTable => 10,
            Rule::UnknownColumn => 11,
            Rule::AmbiguousName => 12,
            Rule::WrongCall => 13,
            Rule::WrongType => 14,
            Rule::MisplacedWindowCall => 15,
            Rule::MisplacedAggregate => 16,
            Rule::UngroupedColumn => 17,
            Rule::WrongFilter => 18,
            Rule::UnknownWindow => 19,
            Rule::RepeatedWindow => 20,
            Rule::WrongCopy => 21,
            Rule::WrongBounds => 22,
            Rule::UnorderedGroups => 23,
            Rule::WrongRangeKey => 24,
            Rule::ZeroCount => 25,
            Rule::WrongPlace => 26,
            Rule::OverLimit => 27,
            Rule::TooManySets => 28,
        }
    }
}
