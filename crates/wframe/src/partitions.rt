//! The partitions of rows that stand in order, each lent with its peers and frames.
ghost use Rattle.std.specs.Prelude.{◌≡◌, ◌<◌, ◌≤◌, ◌^◌, ◌&&◌, length, All, IfOk, IsTrue};
ghost use Rattle.wvalues.specs.Order.{keys_cmp};
ghost use Rattle.wframe.specs.KeyRows.{key_lists, sort_keys, AreInOrder, AreInOrderWithin};
ghost use Rattle.wframe.specs.Bounds.{is_offset};
ghost use Rattle.wframe.specs.Offsets.{is_range, has_range_offset};
ghost use Rattle.wframe.specs.Partitions.{IsPartition};
ghost use Rattle.wframe.specs.FrameEnds.{HasAllFrames};
ghost use Rattle.wframe.specs.Places.{Tiles, span_at};
ghost use Rattle.wframe.specs.Partition.{Partitioned, partition_of};

use crate::ahead::Ahead;
use crate::ends::FrameEnds;
use crate::frame::{Frame, Span};
use crate::frames::Frames;
use crate::key_rows::KeyRows;
use crate::peers::agreeing_end;
use std::alloc::{AllocError, Global};
use std::marker::Model;

// As many rows as numbers of 32 bits suffice for: each number, and each place behind a row, is at most that.
const MOST_ROWS: usize = u32::MAX as usize;

// The spans of rows that agree on all partition values.
fn partition_spans(alloc: Global, partition_values: &KeyRows) -> Result<Vec<Span>, AllocError>
    requires { AreInOrder partition_values.now }
    ensures tiles { IfOk result (λ spans. Tiles 0 spans.items (length (key_lists partition_values.now))) }
    ensures each { IfOk result (λ spans. All (IsPartition (keys_cmp (sort_keys partition_values.now))
        (key_lists partition_values.now)) spans.items) }
{
    let count = partition_values.count();
    let mut spans = Vec::new(alloc);
    let mut ahead = Ahead::default();
    let mut from = 0;
    while from < count {
        partition_values.look_ahead(&mut ahead, from);
        let to = agreeing_end(partition_values, from);
        spans.push(Span { from, to })?;
        from = to;
    }
    Ok(spans)
}

// The frames and peers of the rows of each span.
fn all_ends(
    alloc: Global,
    partition_values: &KeyRows,
    keys: &KeyRows,
    frame: Frame,
    spans: &[Span],
) -> Result<FrameEnds, AllocError>
    requires count { length (key_lists partition_values.now) ≡ length (key_lists keys.now) }
    requires ordered { AreInOrderWithin partition_values.now keys.now }
    requires start { IsTrue (is_range frame.mode && is_offset frame.start) → length (sort_keys keys.now) ≡ 1 }
    requires end { IsTrue (is_range frame.mode && is_offset frame.end) → length (sort_keys keys.now) ≡ 1 }
    requires room { length (key_lists keys.now) < 2 ^ 32 }
    requires tiles { Tiles 0 spans.now (length (key_lists partition_values.now)) }
    requires spans { All (IsPartition (keys_cmp (sort_keys partition_values.now)) (key_lists partition_values.now)) spans.now }
    ensures { IfOk result (HasAllFrames (record {
      order = sort_keys keys.now;
      keys = key_lists keys.now;
      frame = frame;
      spans = spans.now;
    })) }
{
    let mut ends = FrameEnds::with_capacity(alloc, frame, keys.count())?;
    let mut groups = Vec::new(alloc);
    for span in spans {
        let part = keys.part(*span);
        ends.push_partition(&mut groups, &part, frame, span.from)?;
    }
    Ok(ends)
}

/// Rows in partitions, with the peers and the frame of each.
#[derive(Drop)]
pub struct Partitions<'a> {
    keys: KeyRows<'a>,
    frame: Frame,
    spans: Vec<Span>,
    ends: FrameEnds,
}

impl<'a> Model for Partitions<'a> {
    ghost use Rattle.wframe.specs.Partition.{Partitioned};
    ghost use Rattle.wframe.specs.KeyRows.{key_lists, sort_keys};
    ghost use Rattle.wframe.specs.FrameEnds.{HasAllFrames};

    ghost Value = { Partitioned };

    ghost view = { λ p. record { order = sort_keys p.keys; keys = key_lists p.keys; frame = p.frame; spans = p.spans.items } };

    ghost invariant = { λ p. HasAllFrames (record {
      order = sort_keys p.keys;
      keys = key_lists p.keys;
      frame = p.frame;
      spans = p.spans.items;
    }) p.ends };
}

impl<'a> Partitions<'a> {
    /// Finds the partitions, the peers and the frames of rows that stand by their partition values, then by their keys.
    ///
    /// `partition_values` has those of each row, and `keys` its window keys; [`crate::are_in_order`] tests their
    /// order. An offset in RANGE asks for one key; it moves integers, and leaves a text or a null where it is. Which of
    /// several peers comes first is the caller's choice, and places are told by it. The work grows with the rows
    /// alone, whatever the offsets.
    ///
    /// It answers `AllocError` where memory was refused, or where there are 2^32 rows or more, for which numbers of 32 bits do
    /// not suffice.
    pub fn build(
        alloc: Global,
        partition_values: &KeyRows,
        keys: KeyRows<'a>,
        frame: Frame,
    ) -> Result<Partitions<'a>, AllocError>
        requires count { length (key_lists partition_values.now) ≡ length (key_lists keys) }
        requires by_values { AreInOrder partition_values.now }
        requires by_keys { AreInOrderWithin partition_values.now keys }
        requires offset_key { IsTrue (has_range_offset frame) → length (sort_keys keys) ≡ 1 }
        ensures order { IfOk result (λ all. all.order ≡ sort_keys keys.entry) }
        ensures keys { IfOk result (λ all. all.keys ≡ key_lists keys.entry) }
        ensures frame { IfOk result (λ all. all.frame ≡ frame) }
        ensures tiles { IfOk result (λ all. Tiles 0 all.spans (length all.keys)) }
        ensures each { IfOk result (λ all. All (IsPartition (keys_cmp (sort_keys partition_values.now))
            (key_lists partition_values.now)) all.spans) }
    {
        if keys.count() > MOST_ROWS {
            return Err(AllocError);
        }
        let spans = partition_spans(alloc, partition_values)?;
        let ends = all_ends(alloc, partition_values, &keys, frame, &spans)?;
        Ok(Partitions {
            keys,
            frame,
            spans,
            ends,
        })
    }

    /// How many partitions there are.
    pub fn count(&self) -> usize
        ensures count { result ≡ length self.now.spans }
        ensures tiles { Tiles 0 self.now.spans (length self.now.keys) }
    {
        self.spans.len()
    }

    /// The rows of a partition, by their places among all rows.
    pub fn span(&self, partition: usize) -> Span
        requires { partition < length self.now.spans }
        ensures span { result ≡ span_at self.now.spans partition }
        ensures some { result.from < result.to }
        ensures within { result.to ≤ length self.now.keys }
    {
        self.spans[partition]
    }

    /// A partition with its peers and frames.
    pub fn partition(&self, partition: usize) -> Frames<'_>
        requires { partition < length self.now.spans }
        ensures { result ≡ partition_of self.now (span_at self.now.spans partition) }
    {
        let span = self.span(partition);
        Frames::new(self.keys.part(span), self.frame, span, &self.ends)
    }
}
