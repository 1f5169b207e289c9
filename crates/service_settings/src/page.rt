//! The page of a farm: where it is, and how it is asked for.

ghost use Rattle.std.specs.Prelude.{◌≡◌, IfOk, IfSome, [], map, option_map, string_bytes, true};
ghost use Rattle.std.specs.Int.NonZero.{non_zero_u32_get};
ghost use Rattle.std.specs.List.{filter_map};
ghost use Rattle.std.specs.Option.{option_map_or};
ghost use Rattle.toml.specs.Data.{as_str, get_member};
ghost use Rattle.toml.specs.View.{array_view, items_view, table_view};
ghost use Rattle.file_keys.specs.Hosts.{is_socket};
ghost use Rattle.file_keys.specs.Tree.{values_in, values_of};
ghost use Rattle.service_settings.specs.Reading as spec;

use crate::keys::{BACKLOG, HOSTS, LISTEN, PAGE};
use crate::tree::table_at;
use file_keys::{as_address, number_of, value_at};
use std::alloc::{AllocError, Global};
use std::marker::Model;
use std::num::NonZeroU32;
use toml::{Table, Value};

/// The page of a farm.
#[derive(Drop)]
pub struct Page {
    listen: String,
    hosts: Vec<String>,
    backlog: Option<NonZeroU32>,
}

impl Model for Page {
    ghost use Rattle.std.specs.Prelude.{◌≡◌, map, option_map, string_bytes, true};
    ghost use Rattle.std.specs.Int.NonZero.{non_zero_u32_get};
    ghost use Rattle.file_keys.specs.Hosts.{is_socket};
    ghost use Rattle.service_settings.specs.Services as meant;

    ghost Value = { meant.Page };

    ghost view = { λ p. record {
      listen = string_bytes p.listen;
      hosts = map (λ s. string_bytes s) p.hosts.items;
      backlog = option_map non_zero_u32_get p.backlog;
    } };

    ghost invariant = { λ p. is_socket (string_bytes p.listen) ≡ true };
}

impl Page {
    /// The page at the key `page` of a tree, if it has an address there. The only error is out of memory.
    pub(crate) fn read(alloc: Global, tree: &Table) -> Result<Option<Page>, AllocError>
        ensures { IfOk result (λ page. page ≡ spec.page_in (table_view tree.now)) }
    {
        let Some(table) = table_at(tree, PAGE.name) else {
            return Ok(None);
        };
        let Some(address) = listen_in(table) else {
            return Ok(None);
        };
        let listen = String::from_str(alloc, address)?;
        let hosts = hosts_of(alloc, table)?;
        Ok(Some(Page {
            listen,
            hosts,
            backlog: backlog_in(table),
        }))
    }

    /// The address and the port that the page is at: a text that is read as a socket's address, as `127.0.0.1:4780` or `[::1]:4780`.
    pub fn listen(&self) -> &str
        ensures all { result.now ≡ self.now.listen }
        ensures socket { is_socket result.now ≡ true }
    {
        self.listen.as_str()
    }

    /// Further names under which the page is asked for, as the file lists them.
    pub fn hosts(&self) -> &[String]
        ensures { map (λ s. string_bytes s) result.now ≡ self.now.hosts }
    {
        &self.hosts
    }

    /// How many jobs may wait for each worker of a function. With it the page says how many workers are missing; None: it does not.
    pub fn backlog(&self) -> Option<NonZeroU32>
        ensures { option_map non_zero_u32_get result ≡ self.now.backlog }
    {
        self.backlog
    }
}

/// The backlog that is wanted, if a page has one.
fn backlog_in(page: &Table) -> Option<NonZeroU32>
    ensures { option_map non_zero_u32_get result ≡ spec.backlog_in (table_view page.now) }
{
    let number = number_of(&BACKLOG, page)?;
    NonZeroU32::new(number)
}

/// The address that a page has, if it is one.
pub fn listen_in(page: &Table) -> Option<&str>
    ensures value { option_map (λ t. t.now) result ≡ spec.listen_in (table_view page.now) }
    ensures socket { IfSome result (λ t. is_socket t.now ≡ true) }
{
    as_address(value_at(page, LISTEN.name)?)
}

/// The values that a page lists as its names.
fn listed_in(page: &Table) -> Option<&Vec<Value>>
    ensures { option_map_or (λ v. values_of (array_view v.now)) result []
        ≡ option_map_or values_in (get_member spec.hosts_key (table_view page.now)) [] }
{
    match value_at(page, HOSTS.name) {
        Some(listed) => listed.as_array(),
        None => None,
    }
}

/// The names that a page lists.
fn hosts_of(alloc: Global, page: &Table) -> Result<Vec<String>, AllocError>
    ensures { IfOk result (λ hosts. map (λ s. string_bytes s) hosts.items ≡ spec.hosts_in (table_view page.now)) }
{
    let listed: &[Value] = match listed_in(page) {
        Some(values) => values,
        None => &[],
    };
    texts_of(alloc, listed)
}

/// The texts among some values.
fn texts_of(alloc: Global, values: &[Value]) -> Result<Vec<String>, AllocError>
    ensures { IfOk result
        (λ texts. map (λ s. string_bytes s) texts.items ≡ filter_map as_str (values_of (items_view values.now))) }
{
    let mut texts = Vec::new(alloc);
    for value in values {
        if let Some(text) = value.as_str() {
            texts.push(String::from_str(alloc, text)?)?;
        }
    }
    Ok(texts)
}
