ghost use Rattle.std.specs.Prelude.{◌≡◌, ◌<◌, length};
ghost use Rattle.std.specs.Option.{ForSome};
ghost use Rattle.wslide.specs.Aggregates.{passes, tests};

/// Whether a row's filter is true, or there is none.
#[inline(always)]
pub(crate) fn passes(filter: Option<&[bool]>, row: usize) -> bool
    requires { ForSome filter (λ filter. row < length filter.now) }
    ensures { result ≡ passes (tests filter.entry) row }
{
    match filter {
        None => true,
        Some(filter) => filter[row],
    }
}
