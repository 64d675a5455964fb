ghost use Rattle.std.specs.Prelude.{◌≡◌};
ghost use Rattle.definitions.specs.States.{IsShares};
ghost use Rattle.slab_work.specs.Surveyed.{surveyed};

use slab_emit::Source;
use snap_rule::Shares;
use survey::Survey;

// What all shares show: they are within their limits.
fn within_limits(_shares: Shares)
    ensures { IsShares _shares }
{}

/// That from which the lines of a survey's mesh are made.
pub fn source_of<'a>(survey: &'a Survey<'a>) -> Source<'a>
    ensures { result ≡ surveyed survey.now }
{
    within_limits(survey.shares());
    Source::new(
        survey.field(),
        survey.states(),
        survey.offsets(),
        survey.layout().slab,
    )
}
