ghost use Rattle.std.specs.Prelude.{◌≡◌, ℕ, ◌+◌, ◌^◌, ◌<◌};
ghost use Rattle.wslide.specs.Laws.{FoldLaws};

/// What the rows of a partition come to, put together from one part for each row.
pub trait Fold {
    /// What some rows come to.
    type Part: Copy;

    /// What counts the joins. The trait makes none, so a body that is generic over it has only the one that it was lent.
    type Meter;

    /// The set of parts.
    ghost is_part: { Self → Self.Part → Type 0 };

    /// The part of no row.
    ghost neutral: { Self → Self.Part };

    /// The part of two runs of rows, one after the other.
    ghost joined: { Self → Self.Part → Self.Part → Self.Part };

    /// How many rows the partition has.
    ghost rows: { Self → ℕ };

    /// The part of one row.
    ghost part_at: { Self → ℕ → Self.Part };

    /// How many joins a meter has counted.
    ghost count: { Self.Meter → ℕ };

    /// How many joins the meter has counted.
    fn joins(&self, meter: &Self::Meter) -> u64
        ensures { result ≡ count meter.now };

    /// The part of no row.
    fn unit(&self) -> Self::Part
        ensures value { result ≡ neutral self.now }
        ensures part { is_part self.now result };

    /// The part of the row at a place of the partition.
    fn of(&self, row: usize) -> Self::Part
        requires { row < rows self.now }
        ensures value { result ≡ part_at self.now row }
        ensures part { is_part self.now result };

    /// The part of two runs of rows, one after the other. The meter counts it.
    fn join(&self, meter: &mut Self::Meter, left: Self::Part, right: Self::Part) -> Self::Part
        requires left { is_part self.now left }
        requires right { is_part self.now right }
        requires room { count meter.old + 1 < 2 ^ 64 }
        ensures value { result ≡ joined self.now left right }
        ensures part { is_part self.now result }
        ensures joins { count meter.new ≡ count meter.old + 1 };

    /// On the set of parts join is associative, and the part of no row changes nothing on either side.
    ghost laws: { (f : Self) → FoldLaws (is_part f) (neutral f) (joined f) };
}
