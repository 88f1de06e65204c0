//! What is kept of units, by their names.

ghost use Rattle.std.specs.Prelude.{◌≡◌, ◌<◌, ℕ, None, Some, OnErr, OnOk, IfOk, IfSome, if◌then◌else◌, length, option_copied};
ghost use Rattle.df_roll.specs.Roll.{seat_of};
ghost use Rattle.df_unit.specs.Name.{same};
ghost use Rattle.df_unit.specs.declared.name.UnitName.{UnitName};
ghost use Rattle.df_kept.specs.Kept.{IsPlace, kept_at};

use df_memory::NoMemory;
use df_roll::Roll;
use df_unit::UnitName;
use std::alloc::Global;
use std::marker::Model;

/// Values of some units.
#[derive(Drop)]
pub struct Kept<V: Drop> {
    roll: Roll,
    values: Vec<V>,
}

impl<V: Drop> Model for Kept<V> {
    ghost use Rattle.df_kept.specs.Kept.{AreKept, KeptState, kept_code};

    ghost Value = { KeptState V };

    ghost coded = { kept_code V.code };

    ghost view = { λ k. (k.roll.seats, k.values.items) };

    ghost invariant = { λ k. AreKept (k.roll.seats, k.values.items) };
}

impl<V: Drop> Kept<V> {
    /// Nothing of any unit.
    pub fn new(alloc: Global) -> Kept<V>
        ensures { (n : UnitName) → kept_at n result ≡ None }
    {
        Kept {
            roll: Roll::new(alloc),
            values: Vec::new(alloc),
        }
    }

    /// What is kept of a unit.
    pub fn get(&self, name: &UnitName) -> Option<&V>
        ensures { option_copied result ≡ kept_at name.now self.now }
    {
        match self.roll.place(name) {
            Some(place) => self.values.get(place),
            None => None,
        }
    }

    /// The place at which a value of a unit is kept.
    pub fn place(&self, name: &UnitName) -> Option<usize>
        ensures { IfSome result (λ k. IsPlace name.now k self.now) }
    {
        self.roll.place(name)
    }

    /// What is kept at a unit's place.
    pub fn at(&self, place: usize) -> &V
        requires { place < length self.now.1 }
        ensures { (n : UnitName) → IsPlace n place self.now →
            kept_at n self.now ≡ Some result.now }
    {
        &self.values[place]
    }

    /// Keeps a value in place of the one at a unit's place.
    pub fn renew(&mut self, place: usize, value: V)
        requires { place < length self.old.1 }
        ensures set { (name n : UnitName) → seat_of name self.old.0 ≡ Some place → kept_at n self.new
            ≡ (if same name n then Some value else kept_at n self.old) }
        ensures places { (n : UnitName) (k : ℕ) → IsPlace n k self.old → IsPlace n k self.new }
    {
        self.values[place] = value;
    }

    /// Keeps a value of a unit of which none is kept, and answers its place.
    fn add(&mut self, name: UnitName, value: V) -> Result<usize, NoMemory>
        requires { seat_of name self.old.0 ≡ None }
        ensures ok { OnOk result ((n : UnitName) → kept_at n self.new
            ≡ (if same name n then Some value else kept_at n self.old)) }
        ensures place { IfOk result (λ k. IsPlace name k self.new) }
        ensures unchanged { OnErr result (self.new ≡ self.old) }
    {
        let place = self.values.as_slice().len();
        self.values.reserve(1)?;
        self.roll.reserve(1)?;
        let _new = self.roll.seat(name, place);
        self.values.push_reserved(value);
        Ok(place)
    }

    /// Keeps a value of a unit, in place of an earlier one, and answers its place.
    pub fn put(&mut self, name: &UnitName, value: V) -> Result<usize, NoMemory>
        ensures ok { OnOk result ((n : UnitName) → kept_at n self.new
            ≡ (if same name.now n then Some value else kept_at n self.old)) }
        ensures place { IfOk result (λ k. IsPlace name.now k self.new) }
        ensures unchanged { OnErr result (self.new ≡ self.old) }
    {
        match self.roll.place(name) {
            Some(place) => {
                self.renew(place, value);
                Ok(place)
            }
            None => self.add(name.copy()?, value),
        }
    }
}
