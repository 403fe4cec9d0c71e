// What the options of a disk mean, where it isn't what those of a stream mean.
ghost use Rattle.std.specs.Prelude.{◌≡◌, ◌≢◌, ◌≤◌, ◌^◌, ℕ, IfSome, IfOk, IfErr, Some, None, codes, option_map};
ghost use Rattle.clap.specs.Words.{first_of, found_of, rows_of};
ghost use Rattle.atomic_sectors.specs.Sectors.{Fits};
ghost use Rattle.module_shape.specs.Limits.{IsShape, total_of};
ghost use Rattle.disk_words.specs.Cuts.{IsDrawn, cuts_of, drawing_of};
ghost use Rattle.disk_words.specs.Layouts.{line_bytes};
ghost use Rattle.disk_words.specs.Options.{on_cut_of, sectors_of};

use crate::cuts::{DrawnCuts, draw, listed};
use crate::layout::layout;
use atomic_sectors::Layout;
use clap::ArgMatches;
use command_line::options::{number_of, value};
use command_line::{LineSize, Refusal};
use disk_server::OnCut;
use module_shape::Shape;
use std::alloc::Global;

/// How its sectors lie on the lines of a module.
pub(crate) fn sectors(matches: &ArgMatches<'_>, line: LineSize, shape: &Shape) -> Option<Layout>
    ensures exact { result ≡ sectors_of line (total_of shape.now) (rows_of (found_of matches.now)) }
    ensures fits { IfSome result (λ layout. Fits (line_bytes line) layout (total_of shape.now)) }
    ensures some { IfSome result (λ layout. 1 ≤ layout.sectors) }
    ensures most { IfSome result (λ layout. (sectors : ℕ)
        → Fits (line_bytes line) (record layout { sectors = sectors }) (total_of shape.now)
        → sectors ≤ layout.sectors) }
{
    let sector = number_of(matches, "sector", 4096, 1, 16_384)?;
    layout(line, shape.total(), sector as u32)
}

/// What becomes of a request that a power cut ends.
pub(crate) fn on_cut(matches: &ArgMatches<'_>) -> Option<OnCut>
    ensures { result ≡ on_cut_of (first_of (codes "on-cut") (rows_of (found_of matches.now))) }
{
    match value(matches, "on-cut") {
        None => Some(OnCut::Drop),
        Some("drop") => Some(OnCut::Drop),
        Some("ride") => Some(OnCut::Ride),
        Some(_) => None,
    }
}

// What the options say of drawn cuts.
#[tactic(auto, unfolding(crate::specs::Cuts::drawing_of))]
fn drawing(matches: &ArgMatches<'_>) -> Option<DrawnCuts>
    ensures exact { result ≡ drawing_of (rows_of (found_of matches.now)) }
    ensures in_range { IfSome result IsDrawn }
{
    let count = number_of(matches, "cuts", 0, 0, 1_000_000)?;
    let every = number_of(matches, "cut-every", 10_000, 1, 274_877_906_944)?;
    let seed = number_of(matches, "cut-seed", 1, 0, u64::MAX)?;
    Some(DrawnCuts {
        count: count as u32,
        every,
        seed,
    })
}

/// The ticks of the power cuts.
pub(crate) fn cuts(alloc: Global, matches: &ArgMatches<'_>) -> Result<Vec<u64>, Refusal>
    ensures ok { IfOk result (λ ticks. cuts_of (rows_of (found_of matches.now))
        ≡ Some ticks.items) }
    ensures err { IfErr result (λ e. e ≢ Refusal.NoMemory → (e ≡ Refusal.Usage)
        × (cuts_of (rows_of (found_of matches.now)) ≡ None)) }
{
    let Some(drawing) = drawing(matches) else {
        return Err(Refusal::Usage);
    };
    match value(matches, "cut-ticks") {
        None => Ok(draw(alloc, drawing)?),
        Some(text) => match value(matches, "cuts") {
            None => listed(alloc, text)?.ok_or(Refusal::Usage),
            Some(_) => Err(Refusal::Usage),
        },
    }
}
