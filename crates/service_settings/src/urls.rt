//! The URLs of a services file: the checks that look at them, and whose they are.

ghost use Rattle.std.specs.Prelude.{◌≡◌, option_map};
ghost use Rattle.toml.specs.View.{table_view, view};
ghost use Rattle.pool_settings.specs.Place as places;
ghost use Rattle.pool_settings.specs.Reading.{machines_key};
ghost use Rattle.file_keys.specs.Tree.{entries_at};
ghost use Rattle.service_settings.specs.Entries.{shown};
ghost use Rattle.service_settings.specs.Reading as spec;

use crate::checks::{first_in, unless};
use crate::keys::{MACHINES, URL};
use crate::place::ServicesPlace;
use crate::tree::{entry_table, table_at, text_at};
use crate::url_parts::{is_https, parts_of};
use plan_model::MachineId;
use pool_settings::{Place, Section, Settings};
use toml::{Table, Value};

/// What is asked of each URL of a file.
#[derive(Clone, Copy)]
pub enum UrlRule {
    /// It does not begin with `https://`.
    NoHttps,
    /// It is `http://HOST[:PORT][/PATH]`.
    Form,
}

fn is_kept(rule: UrlRule, url: &str) -> bool
    ensures { result ≡ spec.is_kept rule url.now }
{
    match rule {
        UrlRule::NoHttps => !is_https(url.as_bytes()),
        UrlRule::Form => parts_of(url.as_bytes()).is_some(),
    }
}

/// Whether the URL of a table keeps the rule, if it is there.
fn keeps(rule: UrlRule, table: &Table) -> bool
    ensures { result ≡ spec.keeps rule (table_view table.now) }
{
    match text_at(table, URL.name) {
        Some(url) => is_kept(rule, url),
        None => true,
    }
}

fn wrong_url_of<'t>(
    rule: UrlRule,
    name: &'t str,
    value: &'t Value,
) -> Option<ServicesPlace<&'t str>>
    ensures { shown result ≡ spec.wrong_url_of rule (name.now, view value.now) }
{
    let machine = value.as_table()?;
    unless(
        keeps(rule, machine),
        ServicesPlace::At(Place::EntryKey(Section::Machines, name, URL.name)),
    )
}

/// The first machine of the file whose own URL does not keep the rule.
fn wrong_own_url(rule: UrlRule, tree: &Table) -> Option<ServicesPlace<&str>>
    ensures { shown result ≡ places.first_in (spec.wrong_url_of rule) (entries_at machines_key (table_view tree.now)) }
{
    first_in(table_at(tree, MACHINES.name), |name, value| {
        wrong_url_of(rule, name, value)
    })
}

/// The first URL of the file that does not keep the rule.
pub fn wrong_url(rule: UrlRule, tree: &Table) -> Option<ServicesPlace<&str>>
    ensures { shown result ≡ spec.wrong_url rule (table_view tree.now) }
{
    unless(keeps(rule, tree), ServicesPlace::At(Place::Key(URL.name))).or_else(|| wrong_own_url(
        rule, tree,
    ))
}

fn own_url<'t>(tree: &'t Table, name: &str) -> Option<&'t str>
    ensures { option_map (λ t. t.now) result ≡ spec.own_url (table_view tree.now) name.now }
{
    let machine = entry_table(Section::Machines, tree, name)?;
    text_at(machine, URL.name)
}

/// The URL of a machine: its own, or that at the top.
pub fn url_text<'t>(tree: &'t Table, name: &str) -> Option<&'t str>
    ensures { option_map (λ t. t.now) result ≡ spec.url_text (table_view tree.now) name.now }
{
    own_url(tree, name).or_else(|| text_at(tree, URL.name))
}

fn has_no_url(tree: &Table, name: &str) -> bool
    ensures { result ≡ spec.has_no_url (table_view tree.now) name.now }
{
    match url_text(tree, name) {
        Some(url) => parts_of(url.as_bytes()).is_none(),
        None => true,
    }
}

/// The first machine of the settings that has no URL.
pub fn no_url<'s>(settings: &'s Settings, tree: &Table) -> Option<ServicesPlace<&'s str>>
    ensures { shown result ≡ spec.no_url settings.now (table_view tree.now) }
{
    for number in 0..settings.machines() {
        let name = settings.machine_name(MachineId::new(number));
        if has_no_url(tree, name) {
            return Some(ServicesPlace::At(Place::Entry(Section::Machines, name)));
        }
    }
    None
}
