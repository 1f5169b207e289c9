//! The page.

ghost use Rattle.std.specs.Prelude.{◌≡◌, ◌++◌, IfOk, OnOk};
ghost use Rattle.farm_page.specs.Health.{condition_at, sentence_at};
ghost use Rattle.farm_page.specs.Markup.{IsPageOf, opening};
ghost use Rattle.farm_page.specs.Notices.{notices};
ghost use Rattle.farm_page.specs.Rows.{workers_row};
ghost use Rattle.farm_page.specs.Sections.{Holds, body_tag, end_rows, failures_part, function_rows, headline, host_rows, server_words};

use crate::condition::{Condition, shortage_words};
use crate::drawing::drawings;
use crate::health::{Moment, condition_at, sentence_at};
use crate::markup::Markup;
use crate::notices::notices_of;
use crate::sections::{
    Share, ends_section, failures_section, functions_section, headline, hosts_section,
    workers_section,
};
use crate::style::{DAY, DRAWINGS, FRAME, NIGHT, TABLES};
use crate::view::FarmView;
use crate::writing::{put_bytes, put_text};
use std::alloc::{AllocError, Global};

/// Whether a page asks for itself again.
#[derive(Clone, Copy, Debug, PartialEq, Eq)]
pub enum Refresh {
    /// Every five seconds.
    Soon,
    /// Never.
    Never,
}

/// Adds how a page begins, whatever it shows.
fn put_opening(out: &mut Vec<u8>, refresh: Refresh) -> Result<(), AllocError>
    ensures { OnOk result (out.new.items ≡ out.old.items ++ opening refresh) }
{
    put_text(
        out,
        "<!doctype html>\n<html lang=\"en\"><head><meta charset=\"utf-8\">\
        <meta name=\"viewport\" content=\"width=device-width, initial-scale=1\">",
    )?;
    match refresh {
        Refresh::Soon => put_text(out, "<meta http-equiv=\"refresh\" content=\"5\">"),
        Refresh::Never => Ok(()),
    }
}

/// Adds the style.
fn put_style(out: &mut Markup) -> Result<(), AllocError> {
    out.put_tags("<style>")?;
    out.put_tags(DAY)?;
    out.put_tags(NIGHT)?;
    out.put_tags(FRAME)?;
    out.put_tags(TABLES)?;
    out.put_tags(DRAWINGS)?;
    out.put_tags("</style></head>\n")
}

/// Adds the tag of the body, which says how the farm is.
fn put_body(out: &mut Markup, condition: Condition) -> Result<(), AllocError>
    ensures { OnOk result (out.new ≡ out.old ++ body_tag condition) }
{
    match condition {
        Condition::Well => out.put_tags("<body class=\"well\">\n"),
        Condition::Watch => out.put_tags("<body class=\"watch\">\n"),
        Condition::Bad => out.put_tags("<body class=\"bad\">\n"),
    }
}

/// Adds the title.
fn put_title(out: &mut Markup, title: &str) -> Result<(), AllocError> {
    out.put_tags("<title>")?;
    out.put_text(title.as_bytes())?;
    out.put_tags(" - poolman</title><link rel=\"icon\" href=\"data:,\">")
}

/// Adds the job server.
fn put_server(out: &mut Markup, server: &str) -> Result<(), AllocError>
    ensures { OnOk result (out.new ≡ out.old ++ server_words server.now) }
{
    out.put_tags("<header><p>poolman at job server ")?;
    out.put_text(server.as_bytes())?;
    out.put_tags("</p>\n")
}

/// What is between the opening and the sentence. The only error is out of memory.
fn head(alloc: Global, view: &FarmView, moment: Moment, title: &str) -> Result<Markup, AllocError>
    ensures { IfOk result (λ head. Holds head (body_tag (condition_at view.now moment))) }
{
    let mut out = Markup::new(alloc);
    put_title(&mut out, title)?;
    put_style(&mut out)?;
    put_body(&mut out, condition_at(view, moment))?;
    put_server(&mut out, view.server.as_str())?;
    Ok(out)
}

/// Adds what shows that no plan is better. The sentence of a farm without a plan says it already, if that is not late and does not end.
fn put_shortage(alloc: Global, out: &mut Markup, view: &FarmView) -> Result<(), AllocError> {
    let shortage = match &view.shortage {
        Some(shortage) if view.outcome.has_plan() => shortage,
        _ => return Ok(()),
    };
    let words = shortage_words(alloc, shortage)?;
    out.put_tags("<p>No plan is better: ")?;
    out.put_text(words.as_bytes())?;
    out.put_tags(".</p>\n")
}

/// Adds the number of the attempt and its time.
fn put_attempt(out: &mut Markup, view: &FarmView) -> Result<(), AllocError> {
    out.put_tags("<p>Attempt ")?;
    out.put_number(u64::from(view.attempt))?;
    if let Some(time) = &view.time {
        out.put_tags(" at ")?;
        out.put_text(time.as_bytes())?;
    }
    out.put_tags(". ")
}

/// What is between the sentence and the drawings. The only error is out of memory.
fn state(alloc: Global, view: &FarmView, refresh: Refresh) -> Result<Markup, AllocError> {
    let mut out = Markup::new(alloc);
    put_shortage(alloc, &mut out, view)?;
    put_attempt(&mut out, view)?;
    match refresh {
        Refresh::Soon => out.put_tags("<a href=\"/?still\">pause</a></p></header>\n<main>\n")?,
        Refresh::Never => out.put_tags("<a href=\"/\">resume</a></p></header>\n<main>\n")?,
    }
    Ok(out)
}

/// The end of a page.
const FOOT: &str =
    "</main><footer><p>Do not trust this page: check the plan yourself with <a href=\"/evidence\">its evidence</a> \
and <b>poolman check</b>.</p><nav><a href=\"/report\">report</a><a href=\"/status.txt\">status text</a>\
<a href=\"/lost\">lost workers</a><a href=\"/metrics\">metrics</a><a href=\"/health\">health</a>\
<a href=\"/live\">live</a></nav></footer>\n</body></html>\n";

/// The tables of a page. The only error is out of memory.
fn tables(alloc: Global, view: &FarmView) -> Result<Markup, AllocError>
    ensures busy { IfOk result (λ part. Holds part (function_rows Share.Busy view.now.workers.all view.now.functions.items)) }
    ensures quiet { IfOk result (λ part. Holds part (function_rows Share.Quiet view.now.workers.all view.now.functions.items)) }
    ensures hosts { IfOk result (λ part. Holds part (host_rows view.now.hosts.items)) }
    ensures workers { IfOk result (λ part. Holds part (workers_row view.now)) }
    ensures ends { IfOk result (λ part. Holds part (end_rows view.now.ends.items)) }
    ensures failures { IfOk result (λ part. Holds part (failures_part view.now.failures)) }
{
    let mut out = functions_section(alloc, view)?;
    let hosts = hosts_section(alloc, view)?;
    let workers = workers_section(alloc, view)?;
    let ends = ends_section(alloc, view)?;
    let failures = failures_section(alloc, view)?;
    out.put(&hosts)?;
    out.put(&workers)?;
    out.put(&ends)?;
    out.put(&failures)?;
    Ok(out)
}

/// What a page shows, after its opening. The only error is out of memory.
fn rest_of(
    alloc: Global,
    view: &FarmView,
    moment: Moment,
    refresh: Refresh,
) -> Result<Markup, AllocError>
    ensures condition { IfOk result (λ rest. Holds rest (body_tag (condition_at view.now moment))) }
    ensures sentence { IfOk result (λ rest. Holds rest (headline (sentence_at view.now moment))) }
    ensures busy { IfOk result (λ rest. Holds rest (function_rows Share.Busy view.now.workers.all view.now.functions.items)) }
    ensures quiet { IfOk result (λ rest. Holds rest (function_rows Share.Quiet view.now.workers.all view.now.functions.items)) }
    ensures notices { IfOk result (λ rest. Holds rest (notices view.now)) }
    ensures hosts { IfOk result (λ rest. Holds rest (host_rows view.now.hosts.items)) }
    ensures workers { IfOk result (λ rest. Holds rest (workers_row view.now)) }
    ensures ends { IfOk result (λ rest. Holds rest (end_rows view.now.ends.items)) }
    ensures failures { IfOk result (λ rest. Holds rest (failures_part view.now.failures)) }
{
    let words = sentence_at(alloc, view, moment)?;
    let mut out = head(alloc, view, moment, words.as_str())?;
    let headline = headline(alloc, words.as_str())?;
    let notices = notices_of(alloc, view)?;
    let state = state(alloc, view, refresh)?;
    let drawing = drawings(alloc, &view.attempts)?;
    let tables = tables(alloc, view)?;
    out.put(&headline)?;
    out.put(&notices)?;
    out.put(&state)?;
    out.put(&drawing)?;
    out.put(&tables)?;
    out.put_tags(FOOT)?;
    Ok(out)
}

/// The page of a farm at a moment, in HTML: how the farm is then in one sentence, what is to be done, what shows it, the backlogs and the
/// waiting jobs of the last attempts as two drawings, and the tables of the functions, the hosts, all workers, the causes for which workers
/// ended, and the last jobs that were not completed. It has no script, and no file from elsewhere. Whatever names it shows, each `<` in it
/// begins a tag of the program's own. The only error is out of memory.
pub fn page_text(
    alloc: Global,
    view: &FarmView,
    moment: Moment,
    refresh: Refresh,
) -> Result<Vec<u8>, AllocError>
    ensures own { IfOk result (λ page. IsPageOf refresh page.items) }
    ensures condition { IfOk result (λ page. Holds page.items (body_tag (condition_at view.now moment))) }
    ensures sentence { IfOk result (λ page. Holds page.items (headline (sentence_at view.now moment))) }
    ensures busy { IfOk result (λ page. Holds page.items (function_rows Share.Busy view.now.workers.all view.now.functions.items)) }
    ensures quiet { IfOk result (λ page. Holds page.items (function_rows Share.Quiet view.now.workers.all view.now.functions.items)) }
    ensures notices { IfOk result (λ page. Holds page.items (notices view.now)) }
    ensures hosts { IfOk result (λ page. Holds page.items (host_rows view.now.hosts.items)) }
    ensures workers { IfOk result (λ page. Holds page.items (workers_row view.now)) }
    ensures ends { IfOk result (λ page. Holds page.items (end_rows view.now.ends.items)) }
    ensures failures { IfOk result (λ page. Holds page.items (failures_part view.now.failures)) }
{
    let rest = rest_of(alloc, view, moment, refresh)?.into_bytes();
    let mut page = Vec::new(alloc);
    put_opening(&mut page, refresh)?;
    put_bytes(&mut page, rest.as_slice())?;
    Ok(page)
}
