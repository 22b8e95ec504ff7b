//! The rows of a window.
ghost use Rattle.std.specs.Prelude.{◌≡◌, ◌<◌, ◌^◌, All, length};
ghost use Rattle.wcolumns.specs.Near.{IsNear};

use wcolumns::NearColumn;
use wframe::Partitions;
use wvalues::Value;

/// The rows of a window, fewer than 2^31, and how they stand in it.
#[derive(Clone, Copy)]
pub(crate) struct ArrangedRows<'a, 'r> {
    /// The rows, by number.
    pub(crate) rows: &'r [&'r [Value]],
    /// Copies of columns of the rows, whose values lie side by side.
    pub(crate) near: &'a [NearColumn],
    /// The numbers of the rows, in the window's order.
    pub(crate) order: &'a [u32],
    /// The partitions of rows in that order, with the frame of each row.
    pub(crate) partitions: &'a Partitions<'a>,
    ghost listed: { length order.now ≡ length rows.now },
    ghost dealt: { length order.now ≡ length partitions.now.keys },
    ghost below: { All (λ i. i < length order.now) order.now },
    ghost few: { length order.now < 2 ^ 31 },
    ghost copies: { All (IsNear rows.now) near.now },
}
