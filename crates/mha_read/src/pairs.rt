ghost use Rattle.std.specs.Prelude.{◌≡◌, ◌++◌, ◌∷◌, [], OnOk, option_map, map};
ghost use Rattle.std.specs.List.{list_any};
ghost use Rattle.std.specs.Str.{bytes_eq};
ghost use Rattle.formats.specs.Heads.{names_of, value_of};
ghost use Rattle.mha_read.specs.PairLists.{shown_pair};
ghost use Rattle.mha_read.specs.Told.{Turns};

use crate::meaning::{Meaning, read_meaning};
use st_base::{Key, NoMemory};
use std::alloc::Global;
use std::marker::Model;

#[derive(Drop)]
struct Pair {
    name: Vec<u8>,
    value: Vec<u8>,
}

/// The pairs of a name and a value in the lines of a head, in their order.
#[derive(Drop)]
pub struct Pairs {
    alloc: Global,
    pairs: Vec<Pair>,
}

impl Model for Pairs {
    ghost use Rattle.std.specs.Prelude.{List, ℕ, map};

    ghost Value = { List (List ℕ × List ℕ) };

    ghost view = { λ p. map (λ q. (q.name.items, q.value.items)) p.pairs.items };
}

pub fn is_text(bytes: &[u8], text: &[u8]) -> bool
    ensures { result ≡ bytes_eq bytes.now text.now }
{
    bytes == text
}

fn is_name_of(name: &[u8], key: Key) -> bool
    ensures { result ≡ list_any (bytes_eq name.now) (names_of key) }
{
    match key {
        Key::ObjectType => is_text(name, b"ObjectType"),
        Key::NDims => is_text(name, b"NDims"),
        Key::BinaryData => is_text(name, b"BinaryData"),
        Key::ByteOrder => is_text(name, b"BinaryDataByteOrderMSB")
            || is_text(name, b"ElementByteOrderMSB"),
        Key::CompressedData => is_text(name, b"CompressedData"),
        Key::Channels => is_text(name, b"ElementNumberOfChannels"),
        Key::DimSize => is_text(name, b"DimSize"),
        Key::ElementType => is_text(name, b"ElementType"),
        Key::DataFile => is_text(name, b"ElementDataFile"),
        Key::Spacing => is_text(name, b"ElementSpacing"),
        Key::Offset => is_text(name, b"Offset"),
    }
}

fn first_value(pairs: &[Pair], key: Key) -> Option<&[u8]>
    ensures { option_map (λ v. v.now) result ≡ value_of (map shown_pair pairs.now) key }
{
    for pair in pairs {
        if is_name_of(&pair.name, key) {
            return Some(pair.value.as_slice());
        }
    }
    None
}

impl Pairs {
    /// No pairs.
    pub fn new(alloc: Global) -> Pairs
        ensures { result ≡ [] }
    {
        Pairs {
            alloc,
            pairs: Vec::new(alloc),
        }
    }

    /// One more pair at the end.
    pub fn push(&mut self, name: &[u8], value: &[u8]) -> Result<(), NoMemory>
        ensures { OnOk result (self.new ≡ self.old ++ (name.now, value.now) ∷ []) }
    {
        let Ok(name) = name.to_vec(self.alloc) else {
            return Err(NoMemory);
        };
        let Ok(value) = value.to_vec(self.alloc) else {
            return Err(NoMemory);
        };
        if self.pairs.push(Pair { name, value }).is_err() {
            return Err(NoMemory);
        }
        Ok(())
    }

    /// The value of the first line with a name of the key.
    pub fn value(&self, key: Key) -> Option<&[u8]>
        ensures { option_map (λ v. v.now) result ≡ value_of self.now key }
    {
        first_value(&self.pairs, key)
    }
}

/// What a line does to the search for the data line.
#[derive(Clone, Copy, Debug, PartialEq, Eq)]
pub enum Turn {
    GoesOn,
    IsData,
    IsBad,
}

/// Takes what a line says.
pub fn take_line(pairs: &mut Pairs, line: &[u8]) -> Result<Turn, NoMemory>
    ensures { Turns result pairs.old pairs.new line.now }
{
    match read_meaning(line) {
        Meaning::Nothing => Ok(Turn::GoesOn),
        Meaning::Bad => Ok(Turn::IsBad),
        Meaning::Pair { name, value } => {
            if pairs.push(name, value).is_err() {
                return Err(NoMemory);
            }
            if is_text(name, b"ElementDataFile") {
                Ok(Turn::IsData)
            } else {
                Ok(Turn::GoesOn)
            }
        }
    }
}
