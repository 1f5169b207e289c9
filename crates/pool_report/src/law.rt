//! Laws of reports, as functions that do nothing when they run.

ghost use Rattle.std.specs.Prelude.{◌≡◌, Ok};
ghost use Rattle.plan_model.specs.Shown.{Shown};
ghost use Rattle.pool_report.specs.Answered.{report_text};
ghost use Rattle.pool_report.specs.Grammar.{AreTextsReports};
ghost use Rattle.pool_report.specs.Law.{AreLinesRead, AreLinesEncoded, AreNamesFound, IsOf, IsTheOnlyOne, retold};
ghost use Rattle.pool_report.specs.Reading.{meaning};

use plan_model::{Answer, Input};
use pool_settings::Settings;

/// The law of the lines, which does nothing when it runs: each line that a report may have is read as what it
/// says.
pub fn lines_read_back()
    ensures { AreLinesRead }
{}

/// The law of writing, which does nothing when it runs: a line says something only if it is written as that
/// is, by its words, its names and its numbers without leading zeros. [`lines_read_back`] is the other way round.
pub fn lines_are_encoded()
    ensures { AreLinesEncoded }
{}

/// The law of the names, which does nothing that is seen: the name of a function, and that of a worker as a
/// report writes it, name this function and this worker's slot.
pub fn names_read_back(settings: &Settings)
    ensures { AreNamesFound settings.now }
{
    settings.facts();
}

/// The law of the whole text, which does nothing that is seen: a text means an answer exactly if it is a report of it,
/// line by line, by the names of the settings and in rising order.
pub fn texts_are_reports(settings: &Settings)
    ensures { AreTextsReports settings.now }
{
    settings.facts();
}

/// The law of a report, which does nothing that is seen: the report of an answer that is shown for a planning
/// problem of these settings means this very answer, with its plan listed for each live worker. So what
/// [`read`](crate::read) makes of the text that [`write`](crate::write) wrote is that answer, and a text is the
/// report of one such answer at most, plans taken as maps of the live workers.
pub fn report_reads_back(settings: &Settings, input: &Input, answer: &Answer)
    requires of_these { IsOf settings.now input.now }
    requires shown { Shown input.now answer.now }
    ensures same { meaning settings.now (report_text settings.now input.now answer.now) ≡ Ok (retold input.now answer.now) }
    ensures one { IsTheOnlyOne settings.now input.now answer.now }
{
    settings.facts();
    input.facts();
}
