//! Names, and the functions of the language by them.

ghost use Rattle.std.specs.Prelude.{◌≡◌, bytes_eq, true};
ghost use Rattle.wscope.specs.Functions.{function_of as function_named, is_aggregate as is_aggregate_function, takes as may_take};

use crate::function::Function;

// Whether two names end in one byte.
fn ends_like(name: &[u8], other: &[u8]) -> bool
    ensures { name.now ≡ other.now → result ≡ true }
{
    name.last() == other.last()
}

/// Whether two names are one. Most names that are not are told apart by their last bytes, in a part of the time that comparing
/// them takes.
#[inline(always)]
pub(crate) fn is_same_name(name: &str, other: &str) -> bool
    ensures { result ≡ bytes_eq name.now other.now }
{
    if !ends_like(name.as_bytes(), other.as_bytes()) {
        return false;
    }
    name == other
}

/// The function of this name, in small letters.
pub fn function_of(name: &str) -> Option<Function>
    ensures { result ≡ function_named name.now }
{
    if is_same_name(name, "count") {
        return Some(Function::Count);
    }
    if is_same_name(name, "sum") {
        return Some(Function::Sum);
    }
    if is_same_name(name, "min") {
        return Some(Function::Min);
    }
    if is_same_name(name, "max") {
        return Some(Function::Max);
    }
    if is_same_name(name, "row_number") {
        return Some(Function::RowNumber);
    }
    if is_same_name(name, "rank") {
        return Some(Function::Rank);
    }
    if is_same_name(name, "dense_rank") {
        return Some(Function::DenseRank);
    }
    if is_same_name(name, "ntile") {
        return Some(Function::Ntile);
    }
    if is_same_name(name, "lag") {
        return Some(Function::Lag);
    }
    if is_same_name(name, "lead") {
        return Some(Function::Lead);
    }
    if is_same_name(name, "first_value") {
        return Some(Function::FirstValue);
    }
    if is_same_name(name, "last_value") {
        return Some(Function::LastValue);
    }
    if is_same_name(name, "nth_value") {
        return Some(Function::NthValue);
    }
    None
}

impl Function {
    /// Whether it is an aggregate: count, sum, min or max.
    pub fn is_aggregate(self) -> bool
        ensures { result ≡ is_aggregate_function self }
    {
        matches!(
            self,
            Function::Count | Function::Sum | Function::Min | Function::Max
        )
    }

    /// Whether it may be given this many arguments.
    pub fn takes(self, count: usize) -> bool
        ensures { result ≡ may_take self count }
    {
        match self {
            Function::RowNumber => count == 0,
            Function::Rank => count == 0,
            Function::DenseRank => count == 0,
            Function::Lag => 1 <= count && count <= 3,
            Function::Lead => 1 <= count && count <= 3,
            Function::NthValue => count == 2,
            _ => count == 1,
        }
    }
}
