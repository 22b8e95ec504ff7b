//! The items of a SELECT by their names, `*` written out.

ghost use Rattle.std.specs.Prelude.{◌≡◌, ◌||◌, List, None, Some, true, length, option_map, IfOk, OnOk, ℕ};
ghost use Rattle.std.specs.Borrow.{Bor};
ghost use Rattle.wquery.specs.declared.query.Item.TheVariants.{All};
ghost use Rattle.wquery.specs.Tree.{view};
ghost use Rattle.wspots.specs.Items.{HasItems, column_of, columns_from, count_behind, counted, differ, has_item, is_all, item_count};
ghost use Rattle.wspots.specs.Items.{item_of, known_in, of_name, two_called, with_item, with_items, written_out};

use std::alloc::{AllocError, Global};
use std::collections::BTreeMap;
use wnodes::same;
use wquery::{Expression, Item};
use wscope::{SourceColumn, output_name, place_named};

/// An item, as ORDER BY can name it.
#[derive(Clone, Copy)]
struct Output<'a> {
    /// Its place, from 0.
    place: usize,
    /// The column that it is, by its place in the source.
    column: Option<usize>,
    /// What it is, where it was written.
    expression: Option<&'a Expression>,
}

/// The items of a SELECT by their names.
#[derive(Drop)]
pub(crate) struct Outputs<'a> {
    /// How many there are.
    count: usize,
    /// Whether `*` is one of them. A second one names nothing more.
    has_all: bool,
    /// The first item of a name.
    first: BTreeMap<&'a str, Output<'a>>,
    /// The place of the first item of a name that is another expression than the first.
    other: BTreeMap<&'a str, usize>,
}

// Whether two items are different expressions. A column is its place.
fn differ(a: &Output<'_>, b: &Output<'_>) -> bool
    ensures { result ≡ differ (item_of a.now) (item_of b.now) }
{
    match (a.column, b.column) {
        (Some(one), Some(other)) => one != other,
        (None, None) => match (a.expression, b.expression) {
            (Some(one), Some(other)) => !same(one, other),
            _ => true,
        },
        _ => true,
    }
}

// The column that an expression is, by its place in the source.
#[tactic(auto, unfolding(wquery::specs::Tree::view))]
fn place_of(columns: &[SourceColumn], expression: &Expression) -> Option<usize>
    ensures { result ≡ column_of columns.now (view expression.now) }
{
    match expression {
        Expression::Column(column) => Some(place_named(columns, column.name.as_str())),
        _ => None,
    }
}

impl<'a> Outputs<'a> {
    /// The items over these columns.
    pub(crate) fn new(
        alloc: Global,
        columns: &'a [SourceColumn],
        items: &'a [Item],
    ) -> Result<Outputs<'a>, AllocError>
        ensures { IfOk result (HasItems columns.now items.now) }
    {
        let mut outputs = Outputs {
            count: 0,
            has_all: false,
            first: BTreeMap::new(alloc),
            other: BTreeMap::new(alloc),
        };
        'items: for item in items {
            outputs.push_item(columns, item)?;
        }
        Ok(outputs)
    }

    /// How many there are.
    pub(crate) fn len(&self) -> usize
        ensures { result ≡ self.now.count }
    {
        self.count
    }

    /// Whether some item has this name.
    pub(crate) fn has(&self, name: &str) -> bool
        ensures { result ≡ has_item self.now name.now }
    {
        self.first.contains_key(name)
    }

    /// The places of two different items of one name, from 0.
    pub(crate) fn two_called(&self, name: &str) -> Option<(usize, usize)>
        ensures { result ≡ two_called self.now name.now }
    {
        let first = self.first.get(name)?;
        let other = self.other.get(name)?;
        Some((first.place, *other))
    }

    // The first item of a name.
    fn first_called(&self, name: &str) -> Option<Output<'a>>
        ensures { result ≡ of_name self.now.first name.now }
    {
        self.first.get(name).copied()
    }

    // Notes an item of a name.
    fn note(&mut self, name: &'a str, output: Output<'a>) -> Result<(), AllocError>
        ensures known { OnOk result ((q : Bor (List ℕ)) → known_in self.new q.now
            ≡ with_item q.now (known_in self.old q.now) name.now (item_of output.entry)) }
        ensures count { self.new.count ≡ self.old.count }
        ensures all { self.new.has_all ≡ self.old.has_all }
    {
        let Some(first) = self.first_called(name) else {
            self.first.insert(name, output)?;
            return Ok(());
        };
        if !self.other.contains_key(name) && differ(&first, &output) {
            self.other.insert(name, output.place)?;
        }
        Ok(())
    }

    // Adds an item.
    fn push(
        &mut self,
        name: &'a str,
        column: Option<usize>,
        expression: Option<&'a Expression>,
    ) -> Result<(), AllocError>
        ensures known { OnOk result ((q : Bor (List ℕ)) → known_in self.new q.now ≡ with_item q.now (known_in self.old q.now) name.now
            (record { place = self.old.count; column = column; tree = option_map (λ e. view e.now) expression.entry })) }
        ensures count { self.new.count ≡ counted self.old.count 1 }
        ensures all { self.new.has_all ≡ self.old.has_all }
    {
        let output = Output {
            place: self.count,
            column,
            expression,
        };
        self.count = self.count.saturating_add(1);
        self.note(name, output)
    }

    // Adds all columns of the source.
    fn push_columns(&mut self, columns: &'a [SourceColumn]) -> Result<(), AllocError>
        ensures known { OnOk result ((q : Bor (List ℕ)) → known_in self.new q.now
            ≡ with_items q.now (known_in self.old q.now) (columns_from self.old.count 0 columns.now)) }
        ensures all { self.new.has_all ≡ self.old.has_all }
    {
        'columns: for (place, column) in columns.iter().enumerate() {
            self.push(column.name.as_str(), Some(place), None)?;
        }
        Ok(())
    }

    // Adds what `*` stands for.
    fn push_all(&mut self, columns: &'a [SourceColumn]) -> Result<(), AllocError>
        ensures known { OnOk result ((q : Bor (List ℕ)) → known_in self.new q.now
            ≡ with_items q.now (known_in self.old q.now) (written_out columns.now self.old.has_all self.old.count All)) }
        ensures count { OnOk result (self.new.count ≡ counted self.old.count (length columns.now)) }
        ensures all { OnOk result (self.new.has_all ≡ true) }
    {
        let count = self.count.saturating_add(columns.len());
        if !self.has_all {
            self.has_all = true;
            self.push_columns(columns)?;
        }
        self.count = count;
        Ok(())
    }

    // Adds what an item stands for.
    fn push_item(&mut self, columns: &'a [SourceColumn], item: &'a Item) -> Result<(), AllocError>
        ensures known { OnOk result ((q : Bor (List ℕ)) → known_in self.new q.now
            ≡ with_items q.now (known_in self.old q.now) (written_out columns.now self.old.has_all self.old.count item.now)) }
        ensures count { OnOk result (self.new.count ≡ counted self.old.count (item_count (length columns.now) item.now)) }
        ensures all { OnOk result (self.new.has_all ≡ (self.old.has_all || is_all item.now)) }
    {
        match item {
            Item::All => self.push_all(columns),
            Item::Value { expression, alias } => self.push(
                output_name(expression, alias),
                place_of(columns, expression),
                Some(expression),
            ),
        }
    }
}

/// How many items a SELECT has over so many columns, `*` written out.
pub(crate) fn count_items(columns: usize, items: &[Item]) -> usize
    ensures { result ≡ count_behind columns 0 items.now }
{
    let mut count = 0usize;
    'items: for item in items {
        let more = match item {
            Item::All => columns,
            Item::Value { .. } => 1,
        };
        count = count.saturating_add(more);
    }
    count
}
