//! How pages are shared out among the workers.
ghost use Rattle.std.specs.Prelude.{◌<◌, ◌≤◌};
ghost use Rattle.std.specs.Int.{div_ceil};

/// How many pages a part has, so that there are no more parts than workers.
#[tactic(auto, using(crate::proofs::Sharing::parts_few))]
pub(crate) fn part_size(pages: usize, workers: u8) -> usize
    requires { 0 < workers }
    ensures some { 0 < result }
    ensures few { div_ceil pages result ≤ workers }
{
    pages.div_ceil(usize::from(workers)).max(1)
}
