//! Names in byte order, numbered from 0.

ghost use Rattle.std.specs.Prelude.{◌≡◌, ◌<◌, ◌^◌, IfOk, IfSome, length, string_bytes};
ghost use Rattle.std.specs.Cmp.Lexicographic.{slice_cmp};
ghost use Rattle.std.specs.Ordering.{nat_cmp};
ghost use Rattle.pool_settings.specs.Entries.{table_entries};
ghost use Rattle.pool_settings.specs.Names.{IsInByteOrder, name_at, place_of};
ghost use Rattle.pool_settings.specs.Reading.{names_of};

use std::alloc::{AllocError, Global};
use std::cmp::Ordering;
use std::marker::Model;
use toml::Table;

/// Names in byte order, each there once.
#[derive(Drop)]
pub struct Names {
    names: Vec<String>,
}

impl Model for Names {
    ghost use Rattle.std.specs.Prelude.{ℕ, List, map, string_bytes};
    ghost use Rattle.pool_settings.specs.Names.{IsInByteOrder};

    ghost Value = { List (List ℕ) };

    ghost view = { λ n. map (λ s. string_bytes s) n.names.items };

    ghost invariant = { λ n. IsInByteOrder (map (λ s. string_bytes s) n.names.items) };
}

impl Names {
    /// The keys of a table.
    pub fn of_table(alloc: Global, table: &Table) -> Result<Names, AllocError>
        ensures keys { IfOk result (λ names. names ≡ names_of (table_entries table.now)) }
        ensures ordered { IfOk result IsInByteOrder }
    {
        let mut names = Vec::with_capacity(alloc, table.len())?;
        for (name, _value) in table {
            names.push(String::from_str(alloc, name.as_str())?)?;
        }
        Ok(Names { names })
    }

    /// How many names there are.
    pub fn len(&self) -> usize
        ensures all { result ≡ length self.now }
        ensures ordered { IsInByteOrder self.now }
    {
        self.names.len()
    }

    /// The number of a name, by binary search.
    pub fn place_of(&self, name: &[u8]) -> Option<u32>
        requires { length self.now < 2 ^ 32 }
        ensures place { result ≡ place_of self.now name.now }
        ensures within { IfSome result (λ n. n < length self.now) }
    {
        match self
            .names
            .binary_search_by(|held| in_byte_order(held, name))
        {
            Ok(place) => Some(place as u32),
            Err(_) => None,
        }
    }

    /// The number of a name, which is looked for at `guess` first: names in rising order are found at once if each guess is the number
    /// after the last.
    pub fn place_from(&self, name: &[u8], guess: u32) -> Option<u32>
        requires { length self.now < 2 ^ 32 }
        ensures { result ≡ place_of self.now name.now }
    {
        if (guess as usize) < self.len() && self.at(guess).as_bytes() == name {
            return Some(guess);
        }
        self.place_of(name)
    }

    /// The name at a number, and the empty text after the last.
    pub fn at(&self, number: u32) -> &str
        ensures { result.now ≡ name_at self.now number }
    {
        match self.names.get(number as usize) {
            Some(name) => name.as_str(),
            None => "",
        }
    }

    pub fn copy(&self, alloc: Global) -> Result<Names, AllocError>
        ensures { IfOk result (λ names. names ≡ self.now) }
    {
        let mut names = Vec::with_capacity(alloc, self.names.len())?;
        for name in &self.names {
            names.push(String::from_str(alloc, name.as_str())?)?;
        }
        Ok(Names { names })
    }
}

fn in_byte_order(held: &String, name: &[u8]) -> Ordering
    ensures { result ≡ slice_cmp nat_cmp (string_bytes held.now) name.now }
{
    held.as_bytes().cmp(name)
}
