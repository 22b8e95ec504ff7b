//! What a frame leaves out, and the spans that are left of its extent.
ghost use Rattle.std.specs.Prelude.{◌≡◌, ◌<◌, ◌≤◌, ℕ, ◌&&◌, ◌||◌, not, nat_le, nat_lt, filter, [], ◌∷◌};
ghost use Rattle.wframe.specs.Places.{places, spans_places, is_in_span, AreApart, IsPlain};
ghost use Rattle.wframe.specs.Frame.{is_excluded};
ghost use Rattle.wframe.specs.Gaps.{nearest, before_gap, within_gap, behind_gap};
ghost use Rattle.wframe.specs.Exclusion.{gap_of};

use crate::frame::{FrameExclusion, Span};

// The place of a span nearest to this one.
fn clip(span: Span, place: usize) -> usize
    requires { span.from ≤ span.to }
    ensures low { span.from ≤ result }
    ensures high { result ≤ span.to }
    ensures before { place ≤ span.from → result ≡ span.from }
    ensures after { span.to ≤ place → result ≡ span.to }
    ensures inside { span.from ≤ place → place ≤ span.to → result ≡ place }
    ensures nearest { result ≡ nearest span place }
{
    if place < span.from {
        span.from
    } else if span.to < place {
        span.to
    } else {
        place
    }
}

// A span's places before `a`, from `b` up to `c`, and from `d` on.
fn pieces(span: Span, a: usize, b: usize, c: usize, d: usize) -> [Span; 3]
    requires span { span.from ≤ span.to }
    requires first { a ≤ b }
    requires second { b ≤ c }
    requires third { c ≤ d }
    ensures rows { (n : ℕ) → span.to ≤ n
        → spans_places result ≡ filter (λ j. is_in_span span j && (nat_lt j a || (nat_le b j && nat_lt j c) || nat_le d j)) (places n) }
    ensures apart { AreApart span.from result span.to }
    ensures plain { span.to ≤ a → IsPlain span result }
    ensures list { result ≡ record { from = span.from; to = nearest span a } ∷ record {
      from = nearest span b;
      to =
          nearest span c;
    } ∷ record { from = nearest span d; to = span.to } ∷ [] }
{
    let a = clip(span, a);
    let b = clip(span, b);
    let c = clip(span, c);
    let d = clip(span, d);
    [
        Span {
            from: span.from,
            to: a,
        },
        Span { from: b, to: c },
        Span {
            from: d,
            to: span.to,
        },
    ]
}

// Where the rows that an exclusion takes out begin and end. Those that are kept among them lie together too.
#[derive(Clone, Copy)]
struct Gap {
    from: usize,
    kept_from: usize,
    kept_to: usize,
    to: usize,
}

// What an exclusion takes out of a row's extent.
fn gap_at(span: Span, exclusion: FrameExclusion, row: usize, peers: Span) -> Gap
    requires from { peers.from ≤ row }
    requires to { row < peers.to }
    ensures gap { result ≡ gap_of exclusion span row peers }
    ensures first { result.from ≤ result.kept_from }
    ensures second { result.kept_from ≤ result.kept_to }
    ensures third { result.kept_to ≤ result.to }
{
    match exclusion {
        FrameExclusion::NoOthers => Gap {
            from: span.to,
            kept_from: span.to,
            kept_to: span.to,
            to: span.to,
        },
        FrameExclusion::CurrentRow => Gap {
            from: row,
            kept_from: row + 1,
            kept_to: row + 1,
            to: row + 1,
        },
        FrameExclusion::Group => Gap {
            from: peers.from,
            kept_from: peers.to,
            kept_to: peers.to,
            to: peers.to,
        },
        FrameExclusion::Ties => Gap {
            from: peers.from,
            kept_from: row,
            kept_to: row + 1,
            to: peers.to,
        },
    }
}

/// A row's frame: its extent without what the exclusion takes out.
pub fn without(span: Span, exclusion: FrameExclusion, row: usize, peers: Span) -> [Span; 3]
    requires span { span.from ≤ span.to }
    requires from { peers.from ≤ row }
    requires to { row < peers.to }
    ensures rows { (n : ℕ) → span.to ≤ n
        → spans_places result ≡ filter (λ j. is_in_span span j && not (is_excluded exclusion row j (is_in_span peers j))) (places n) }
    ensures apart { AreApart span.from result span.to }
    ensures plain { exclusion ≡ FrameExclusion.NoOthers → IsPlain span result }
    ensures list { result ≡ before_gap exclusion span row peers ∷ within_gap exclusion span row peers ∷ behind_gap exclusion
        span row peers ∷ [] }
{
    let gap = gap_at(span, exclusion, row, peers);
    pieces(span, gap.from, gap.kept_from, gap.kept_to, gap.to)
}
