//! Lists of values that a contract sees as the list itself.
ghost use Rattle.std.specs.Prelude.{◌≡◌, List, [], ◌∷◌, ◌++◌, length, take, IfOk, OnOk, OnErr, IsTrue, ◌↔◌};
ghost use Rattle.std.specs.Coded.{coded_list};

use crate::{Key, OutOfMemory, Place};
use std::alloc::Global;
use std::marker::Model;

/// A value of which an equal one can be made, where there is memory.
pub trait TryCopy: Sized + Drop {
    /// An equal value.
    fn copy(&self, alloc: Global) -> Result<Self, OutOfMemory>
        ensures equal { IfOk result (λ copy. copy ≡ self.now) };

    /// Equal values, in the same order.
    fn copy_all(items: &[Self], alloc: Global) -> Result<Vec<Self>, OutOfMemory>
        ensures equal { IfOk result (λ copies. copies.items ≡ items.now) }
    {
        let mut copies = Vec::with_capacity(alloc, items.len())?;
        for item in items {
            copies.push(item.copy(alloc)?)?;
        }
        Ok(copies)
    }
}

impl<T: TryCopy> TryCopy for Items<T> {
    fn copy(&self, alloc: Global) -> Result<Self, OutOfMemory> {
        Ok(Self {
            items: T::copy_all(self.items.as_slice(), alloc)?,
        })
    }
}

impl TryCopy for u64 {
    fn copy(&self, _alloc: Global) -> Result<Self, OutOfMemory> {
        Ok(*self)
    }

    fn copy_all(items: &[Self], alloc: Global) -> Result<Vec<Self>, OutOfMemory> {
        Ok(Vec::from_slice(alloc, items)?)
    }
}

impl TryCopy for u8 {
    fn copy(&self, _alloc: Global) -> Result<Self, OutOfMemory> {
        Ok(*self)
    }

    fn copy_all(items: &[Self], alloc: Global) -> Result<Vec<Self>, OutOfMemory> {
        Ok(Vec::from_slice(alloc, items)?)
    }
}

impl TryCopy for Key {
    fn copy(&self, _alloc: Global) -> Result<Self, OutOfMemory> {
        Ok(*self)
    }

    fn copy_all(items: &[Self], alloc: Global) -> Result<Vec<Self>, OutOfMemory> {
        Ok(Vec::from_slice(alloc, items)?)
    }
}

impl TryCopy for Place {
    fn copy(&self, _alloc: Global) -> Result<Self, OutOfMemory> {
        Ok(*self)
    }

    fn copy_all(items: &[Self], alloc: Global) -> Result<Vec<Self>, OutOfMemory> {
        Ok(Vec::from_slice(alloc, items)?)
    }
}

/// A growing list.
#[derive(Drop)]
pub struct Items<T> {
    items: Vec<T>,
}

impl<T> Model for Items<T> {
    ghost Value = { List T };

    ghost coded = { coded_list T.code };

    ghost view = { λ list. list.items.items };
}

/// Ids of one kind of object.
pub type Ids = Items<u64>;

/// The bytes of a file, or a part of them.
pub type Bytes = Items<u8>;

/// The bytes of several files, by number.
pub type FileList = Items<Bytes>;

/// Keys of objects.
pub type KeyList = Items<Key>;

/// The places of a line, in order.
pub type Places = Items<Place>;

/// Lines, or rings.
pub type LineList = Items<Places>;

/// Polygons: the rings of each, the outer one first.
pub type Polygons = Items<LineList>;

impl<T> Items<T> {
    /// The empty list.
    pub fn new(alloc: Global) -> Self
        ensures empty { result ≡ [] }
    {
        Self {
            items: Vec::new(alloc),
        }
    }

    /// The items of a vector; takes no memory.
    pub fn from_vec(items: Vec<T>) -> Self
        ensures items { result ≡ items.items }
    {
        Self { items }
    }

    /// The vector of the items; takes no memory.
    pub fn into_vec(self) -> Vec<T>
        ensures items { result.items ≡ self }
    {
        let Self { items } = self;
        items
    }

    /// The items in order.
    pub fn as_slice(&self) -> &[T]
        ensures items { result.now ≡ self.now }
    {
        self.items.as_slice()
    }

    /// Adds an item at the end.
    pub fn push(&mut self, item: T) -> Result<(), OutOfMemory>
    where
        T: Drop,
        ensures ok { OnOk result (self.new ≡ self.old ++ item ∷ []) }
        ensures err { OnErr result (self.new ≡ self.old) }
    {
        self.items.push(item)?;
        Ok(())
    }
}
