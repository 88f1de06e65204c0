//! What the bytes of a file tell, as laws.

ghost use Rattle.std.specs.Prelude.{◌≡◌, ℕ, List, Option};
ghost use Rattle.df_records.specs.RecordFile.{Fields, IsBadAt, IsFileOf};

/// The bytes of a file determine what it tells, and each of its records is in form: no bytes are
/// both read and refused.
pub fn a_file_is_one_list<T>()
    ensures one { (header : Fields) (told_of : Fields → Option T) (bytes : List ℕ)
        (some others : List T) → IsFileOf header told_of bytes some →
        IsFileOf header told_of bytes others → some ≡ others }
    ensures good { (header : Fields) (told_of : Fields → Option T) (bytes : List ℕ)
        (told : List T) (line : ℕ) → IsFileOf header told_of bytes told →
        ¬ IsBadAt header told_of bytes line }
{}
