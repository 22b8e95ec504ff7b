ghost use Rattle.std.specs.Prelude.{◌≡◌, ◌≤◌, ◌+◌, vec_len, vec_capacity};

use crate::fold::Fold;
use std::alloc::{AllocError, Global};

/// Parts, first in, first out, with their fold at hand.
///
/// One fold fills a queue, and is lent to each call. After the first call none takes memory. Of its older parts a queue
/// keeps folds alone, so what it holds is no function of what it keeps: each clause speaks of all parts that it may hold.
#[derive(Drop)]
pub struct FoldQueue<P> {
    front: Vec<P>,
    back: Vec<P>,
    back_fold: P,
    limit: usize,
    ghost within: { vec_len front + vec_len back ≤ limit },
    ghost front_room: { limit ≤ vec_capacity front },
    ghost back_room: { limit ≤ vec_capacity back },
}

impl<P: Copy> FoldQueue<P> {
    ghost use Rattle.std.specs.Prelude.{◌<◌, ◌^◌, List, [], ◌∷◌, ◌++◌, drop, IfOk};
    ghost use Rattle.wslide.specs.Laws.{total};
    ghost use Rattle.wslide.specs.Queue.{part_count, capacity, owed, KeepsParts, IsFilledBy};

    /// An empty queue with room for so many parts.
    pub fn with_capacity<F: Fold<Part = P>>(
        alloc: Global,
        fold: &F,
        limit: usize,
    ) -> Result<FoldQueue<P>, AllocError>
        ensures filled { IfOk result (λ q. IsFilledBy (F.is_part fold.now) (F.neutral fold.now) (F.joined fold.now) [] q) }
        ensures kept { IfOk result (λ q. KeepsParts (F.is_part fold.now) q) }
        ensures count { IfOk result (λ q. part_count q ≡ 0) }
        ensures capacity { IfOk result (λ q. capacity q ≡ limit) }
        ensures owed { IfOk result (λ q. owed q ≡ 0) }
    {
        let front = Vec::with_capacity(alloc, limit)?;
        let back = Vec::with_capacity(alloc, limit)?;
        Ok(FoldQueue {
            front,
            back,
            back_fold: fold.unit(),
            limit,
        })
    }

    /// Takes all parts out. Another fold may fill the queue after it.
    pub fn restart<F: Fold<Part = P>>(&mut self, fold: &F)
        ensures filled { IsFilledBy (F.is_part fold.now) (F.neutral fold.now) (F.joined fold.now) [] self.new }
        ensures kept { KeepsParts (F.is_part fold.now) self.new }
        ensures count { part_count self.new ≡ 0 }
        ensures capacity { capacity self.new ≡ capacity self.old }
        ensures owed { owed self.new ≡ 0 }
    {
        self.front.clear();
        self.back.clear();
        self.back_fold = fold.unit();
    }

    /// How many parts it holds.
    pub fn len(&self) -> usize
        ensures { result ≡ part_count self.now }
    {
        self.front.len() + self.back.len()
    }

    /// Adds a part at the end, by one join.
    pub fn push<F: Fold<Part = P>>(&mut self, fold: &F, meter: &mut F::Meter, part: P)
        requires kept { KeepsParts (F.is_part fold.now) self.old }
        requires part { F.is_part fold.now part }
        requires space { part_count self.old < capacity self.old }
        requires room { F.count meter.old + 1 < 2 ^ 64 }
        ensures filled { (held : List P) → IsFilledBy (F.is_part fold.now) (F.neutral fold.now) (F.joined fold.now) held
            self.old → IsFilledBy (F.is_part fold.now) (F.neutral fold.now) (F.joined fold.now) (held ++ part ∷ []) self.new }
        ensures kept { KeepsParts (F.is_part fold.now) self.new }
        ensures count { part_count self.new ≡ part_count self.old + 1 }
        ensures capacity { capacity self.new ≡ capacity self.old }
        ensures owed { owed self.new ≡ owed self.old + 1 }
        ensures joins { F.count meter.new ≡ F.count meter.old + 1 }
    {
        self.back_fold = fold.join(meter, self.back_fold, part);
        self.back.push_reserved(part);
    }

    /// The fold of the parts, by at most one join.
    pub fn fold<F: Fold<Part = P>>(&self, fold: &F, meter: &mut F::Meter) -> P
        requires kept { KeepsParts (F.is_part fold.now) self.now }
        requires room { F.count meter.old + 1 < 2 ^ 64 }
        ensures value { (held : List P) → IsFilledBy (F.is_part fold.now) (F.neutral fold.now) (F.joined fold.now) held
            self.now → result ≡ total (F.neutral fold.now) (F.joined fold.now) held }
        ensures part { F.is_part fold.now result }
        ensures not_less { F.count meter.old ≤ F.count meter.new }
        ensures joins { F.count meter.new ≤ F.count meter.old + 1 }
    {
        match self.front.last() {
            None => self.back_fold,
            Some(front) => fold.join(meter, *front, self.back_fold),
        }
    }

    /// Takes the oldest part out, by at most as many joins as the queue holds parts.
    ///
    /// Each part is joined in this way once, so the joins that are still owed fall by those that are made.
    pub fn pop<F: Fold<Part = P>>(&mut self, fold: &F, meter: &mut F::Meter)
        requires kept { KeepsParts (F.is_part fold.now) self.old }
        requires some { 0 < part_count self.old }
        requires room { F.count meter.old + part_count self.old < 2 ^ 64 }
        ensures filled { (held : List P) → IsFilledBy (F.is_part fold.now) (F.neutral fold.now) (F.joined fold.now) held
            self.old → IsFilledBy (F.is_part fold.now) (F.neutral fold.now) (F.joined fold.now) (drop 1 held) self.new }
        ensures kept { KeepsParts (F.is_part fold.now) self.new }
        ensures count { part_count self.new + 1 ≡ part_count self.old }
        ensures capacity { capacity self.new ≡ capacity self.old }
        ensures not_less { F.count meter.old ≤ F.count meter.new }
        ensures joins { F.count meter.new + owed self.new ≤ F.count meter.old + owed self.old }
        ensures few { F.count meter.new ≤ F.count meter.old + part_count self.old }
    {
        if self.front.is_empty() {
            self.turn(fold, meter);
        }
        self.take_front(fold);
    }

    // Takes the oldest part out of the front.
    fn take_front<F: Fold<Part = P>>(&mut self, fold: &F)
        requires kept { KeepsParts (F.is_part fold.now) self.old }
        requires some { 0 < vec_len self.old.front }
        ensures filled { (held : List P) → IsFilledBy (F.is_part fold.now) (F.neutral fold.now) (F.joined fold.now) held
            self.old → IsFilledBy (F.is_part fold.now) (F.neutral fold.now) (F.joined fold.now) (drop 1 held) self.new }
        ensures kept { KeepsParts (F.is_part fold.now) self.new }
        ensures count { part_count self.new + 1 ≡ part_count self.old }
        ensures capacity { capacity self.new ≡ capacity self.old }
        ensures owed { owed self.new ≡ owed self.old }
    {
        let _ = self.front.pop();
    }

    // Moves the parts to the front: for each the fold of itself and those that came after it.
    fn turn<F: Fold<Part = P>>(&mut self, fold: &F, meter: &mut F::Meter)
        requires kept { KeepsParts (F.is_part fold.now) self.old }
        requires empty { self.old.front.items ≡ [] }
        requires room { F.count meter.old + owed self.old < 2 ^ 64 }
        ensures filled { (held : List P) → IsFilledBy (F.is_part fold.now) (F.neutral fold.now) (F.joined fold.now) held
            self.old → IsFilledBy (F.is_part fold.now) (F.neutral fold.now) (F.joined fold.now) held self.new }
        ensures kept { KeepsParts (F.is_part fold.now) self.new }
        ensures count { part_count self.new ≡ part_count self.old }
        ensures empty { self.new.back.items ≡ [] }
        ensures capacity { capacity self.new ≡ capacity self.old }
        ensures joins { F.count meter.new ≡ F.count meter.old + owed self.old }
    {
        let mut below = fold.unit();
        while let Some(part) = self.back.pop() {
            below = fold.join(meter, part, below);
            self.front.push_reserved(below);
        }
        self.back_fold = fold.unit();
    }
}
