//! The cells of a page's tables.

ghost use Rattle.std.specs.Prelude.{◌≡◌, ◌++◌, IsTrue, OnOk};
ghost use Rattle.farm_page.specs.Markup.{is_markup};
ghost use Rattle.farm_page.specs.Rows as spec;

use crate::markup::Markup;
use crate::view::Workers;
use std::alloc::AllocError;

/// How wide a bar is.
const BAR: u32 = 84;

/// How a number is shown.
#[derive(Clone, Copy)]
pub enum Mark {
    /// As it is.
    Plain,
    /// As one to look at.
    Warn,
    /// As one that is wrong.
    Bad,
}

/// Why there is no number.
#[derive(Clone, Copy)]
pub enum Gap {
    /// Any number may be.
    Any,
    /// It is not known.
    Unknown,
}

/// Begins a cell.
fn put_cell_tag(out: &mut Markup, mark: Mark) -> Result<(), AllocError>
    ensures { OnOk result (out.new ≡ out.old ++ spec.cell_tag mark) }
{
    match mark {
        Mark::Plain => out.put_tags("<td>"),
        Mark::Warn => out.put_tags("<td class=\"warn\">"),
        Mark::Bad => out.put_tags("<td class=\"bad\">"),
    }
}

/// Adds the cell of a number.
pub fn put_cell(out: &mut Markup, mark: Mark, number: u64) -> Result<(), AllocError>
    ensures { OnOk result (out.new ≡ out.old ++ spec.cell mark number) }
{
    put_cell_tag(out, mark)?;
    out.put_number(number)?;
    out.put_tags("</td>")
}

/// Adds the cell of a number that is not there.
pub fn put_gap(out: &mut Markup, gap: Gap) -> Result<(), AllocError>
    ensures { OnOk result (out.new ≡ out.old ++ spec.gap_cell gap) }
{
    match gap {
        Gap::Any => out.put_tags("<td class=\"none\">any</td>"),
        Gap::Unknown => out.put_tags("<td class=\"none\">-</td>"),
    }
}

/// Adds the cell of a number, or why there is none.
pub fn put_cell_if(out: &mut Markup, number: Option<u64>, gap: Gap) -> Result<(), AllocError>
    ensures { OnOk result (out.new ≡ out.old ++ spec.cell_if number gap) }
{
    match number {
        Some(number) => put_cell(out, Mark::Plain, number),
        None => put_gap(out, gap),
    }
}

/// Adds the cell of a number that is to be 0, or that it is not known.
pub fn put_fault_cell(out: &mut Markup, number: Option<u64>) -> Result<(), AllocError>
    ensures { OnOk result (out.new ≡ out.old ++ spec.fault_cell number) }
{
    match number {
        Some(0) => put_cell(out, Mark::Plain, 0),
        Some(number) => put_cell(out, Mark::Warn, number),
        None => put_gap(out, Gap::Unknown),
    }
}

/// Adds the heading of a row.
pub fn put_row_name(out: &mut Markup, name: &str) -> Result<(), AllocError>
    ensures { OnOk result (out.new ≡ out.old ++ spec.row_name name.now) }
{
    out.put_tags("<tr><th scope=\"row\">")?;
    out.put_text(name.as_bytes())?;
    out.put_tags("</th>")
}

/// Adds the cell of words, with some of the program's own before them.
pub fn put_words(out: &mut Markup, lead: &str, words: &str) -> Result<(), AllocError>
    requires { IsTrue (is_markup lead.now) }
    ensures { OnOk result (out.new ≡ out.old ++ spec.words_cell lead.now words.now) }
{
    out.put_tags("<td class=\"words\">")?;
    out.put_tags(lead)?;
    out.put_text(words.as_bytes())?;
    out.put_tags("</td>")
}

/// How much of a bar some of all workers fill.
fn share(part: u32, all: u32) -> u32
    ensures { result ≡ spec.share part all }
{
    if all == 0 {
        return 0;
    }
    let part = u64::from(part.min(all));
    (u64::from(BAR) * part / u64::from(all)) as u32
}

/// Adds the cell of a bar that shows how many of all workers there are, with a tick at the least number.
pub fn put_bar(out: &mut Markup, workers: Workers, least: u32) -> Result<(), AllocError>
    ensures { OnOk result (out.new ≡ out.old ++ spec.bar workers least) }
{
    out.put_tags(
        "<td><svg class=\"bar\" viewBox=\"0 0 84 8\" aria-hidden=\"true\">\
        <rect class=\"track\" width=\"84\" height=\"8\" rx=\"4\"/>\
        <rect class=\"fill\" height=\"8\" rx=\"4\" width=\"",
    )?;
    out.put_number(u64::from(share(workers.alive, workers.all)))?;
    out.put_tags("\"/><rect class=\"least\" width=\"2\" height=\"8\" x=\"")?;
    out.put_number(u64::from(share(least, workers.all)))?;
    out.put_tags("\"/></svg></td>")
}

/// Adds the cell of that bar, or that it is not known how many workers there are.
pub fn put_bar_if(
    out: &mut Markup,
    alive: Option<u32>,
    all: u32,
    least: u32,
) -> Result<(), AllocError>
    ensures { OnOk result (out.new ≡ out.old ++ spec.bar_if alive all least) }
{
    match alive {
        Some(alive) => put_bar(out, Workers { alive, all }, least),
        None => put_gap(out, Gap::Unknown),
    }
}
