// Numbers by key.
ghost use Rattle.std.specs.Prelude.{◌≡◌, ℕ, [], Some, cond, OnOk, OnErr};
ghost use Rattle.std.specs.Map.{lookup};

use std::alloc::{AllocError, AllocFailed, Global};
use std::collections::BTreeMap;
use std::marker::Model;

/// Numbers by key, which contracts see as a list of pairs.
#[derive(Drop)]
pub struct Table<K: Ord> {
    map: BTreeMap<K, u32>,
}

impl<K: Ord> Model for Table<K> {
    ghost use Rattle.std.specs.Prelude.{List, ℕ};
    ghost use Rattle.std.specs.Coded.{coded_list, coded×, coded_ℕ};

    ghost Value = { List (K × ℕ) };

    ghost coded = { coded_list (coded× K.code coded_ℕ) };

    ghost view = { λ t. t.map.entries };
}

impl<K: Ord + Drop> Table<K> {
    pub fn new(alloc: Global) -> Table<K>
        ensures { result ≡ [] }
    {
        Table {
            map: BTreeMap::new(alloc),
        }
    }

    /// The number of the key, if it has one.
    pub fn get(&self, key: &K) -> Option<u32>
        ensures { result ≡ lookup (K.eq key.now) self.now }
    {
        self.map.get(key).copied()
    }

    /// Gives the key a number, in the place of the one that it had.
    pub fn put(&mut self, key: K, number: u32) -> Result<(), AllocError>
        ensures { OnOk result ((k : K) → lookup (K.eq k) self.new ≡ cond (K.eq key k) (Some number) (lookup (K.eq k) self.old)) }
    {
        self.map.insert(key, number)?;
        Ok(())
    }
}
