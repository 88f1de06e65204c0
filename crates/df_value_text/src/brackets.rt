//! The brackets that are open at a place in a value.
ghost use Rattle.std.specs.Prelude.{◌≡◌, ◌<◌, ◌≤◌, Bool, List, [], ◌∷◌, length, drop, ◌^◌, MatchOption};
ghost use Rattle.df_value_text.specs.code.Brackets.{bits};

use std::marker::Model;

/// The brackets that are open, the innermost first: false for lists, true for maps.
#[derive(Drop)]
pub struct Brackets {
    kinds: u64,
    count: u32,
}

impl Model for Brackets {
    ghost Value = { List Bool };

    ghost view = { λ b. bits b.count b.kinds };

    ghost invariant = { λ b. b.kinds < 2 ^ b.count };
}

impl Brackets {
    pub fn none() -> Brackets
        ensures { result ≡ [] }
    {
        Brackets { kinds: 0, count: 0 }
    }

    pub fn len(&self) -> u64
        ensures { result ≡ length self.now }
    {
        u64::from(self.count)
    }

    pub fn innermost(&self) -> Option<bool>
        ensures { MatchOption result (self.now ≡ []) (λ map. self.now ≡ map ∷ drop 1 self.now) }
    {
        if self.count == 0 {
            return None;
        }
        Some(self.kinds % 2 == 1)
    }

    pub fn push(&mut self, map: bool)
        requires { length self.old ≤ 32 }
        ensures { self.new ≡ map ∷ self.old }
    {
        self.kinds = 2 * self.kinds + u64::from(map);
        self.count += 1;
    }

    pub fn pop(&mut self)
        ensures { self.new ≡ drop 1 self.old }
    {
        if self.count > 0 {
            self.kinds /= 2;
            self.count -= 1;
        }
    }
}
