//! Numbers for names, in the order in which names are met.

ghost use Rattle.std.specs.Prelude.{IfOk, OnOk, Some};
ghost use Rattle.df_why.specs.code.Numbers.{Finds, IsNumbering, KeepsNumbers};

use df_memory::NoMemory;
use std::collections::BTreeMap;

/// The number of a name, if there is a name: the one that it has, or the next.
pub(crate) fn number<K: Ord + Drop>(
    numbers: &mut BTreeMap<K, usize>,
    name: Option<K>,
) -> Result<Option<usize>, NoMemory>
    requires { IsNumbering K.cmp numbers.old }
    ensures numbered { OnOk result (IsNumbering K.cmp numbers.new) }
    ensures kept { OnOk result (KeepsNumbers K.cmp numbers.old numbers.new) }
    ensures found { IfOk result (λ n. Finds K.cmp numbers.new name n) }
{
    match name {
        Some(name) => Ok(Some(number_of(numbers, name)?)),
        None => Ok(None),
    }
}

fn number_of<K: Ord + Drop>(numbers: &mut BTreeMap<K, usize>, name: K) -> Result<usize, NoMemory>
    requires { IsNumbering K.cmp numbers.old }
    ensures numbered { OnOk result (IsNumbering K.cmp numbers.new) }
    ensures kept { OnOk result (KeepsNumbers K.cmp numbers.old numbers.new) }
    ensures found { IfOk result (λ n. Finds K.cmp numbers.new (Some name) (Some n)) }
{
    if let Some(number) = numbers.get(&name) {
        return Ok(*number);
    }
    let next = numbers.len();
    numbers.insert(name, next)?;
    Ok(next)
}
