//! What an image is, as laws.
ghost use Rattle.std.specs.Prelude.{◌≡◌, ℕ, ◌^◌, ◌<◌, List, length};
ghost use Rattle.df_disk.specs.Records.{IsEmpty};
ghost use Rattle.df_image.specs.Image.{IsDamagedAt, KeepsJournal, State};

/// An image keeps one start and one journal, or is damaged at one gate, or is empty, and only one
/// of these.
pub fn an_image_is_one_thing()
    ensures one_journal { (image : List ℕ) (core other : State) → length image < 2 ^ 64
        → KeepsJournal core image → KeepsJournal other image → core ≡ other }
    ensures one_damage { (image : List ℕ) (place other : ℕ) → length image < 2 ^ 64
        → IsDamagedAt place image → IsDamagedAt other image → place ≡ other }
    ensures kept_is_whole { (image : List ℕ) (core : State) (place : ℕ) → length image < 2 ^ 64
        → KeepsJournal core image → ¬ IsDamagedAt place image }
    ensures kept_is_some { (image : List ℕ) (core : State) → KeepsJournal core image
        → ¬ IsEmpty image }
{}
